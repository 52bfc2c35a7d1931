// The laws of scripts with stores: each function does nothing, and its contract is the law.
ghost use Rattle.std.specs.{Prelude.{◌≡◌, ◌≢◌, ℕ, ◌≤◌, IsTrue, List, [], None}, FinMap.empty};
ghost use Rattle.iso_model.specs.{declared.access.Geometry.Geometry, declared.limits.TheConstants.LAST, Array.Array, Geometry.is_valid, World.{empty_history, fresh, World}, Worlds.IsWorld};
ghost use Rattle.script_model.specs.{declared.script.Line.Line, declared.script.Op.Op, declared.script.Op.TheVariants.FileRead, Step.step, FilesArea.{file_blocks, files_area}, Operations.AreLines};
ghost use Rattle.store_model.specs.{HashRegion.{hash_map, IsHashRegion}, Areas.{hash_area, tree_area}, TreeRegion.{tree_map, IsTreeRegion}, FileRegion.{files, AreFileRegions}};
ghost use Rattle.store_scripts.specs.{Answers.{answered, file_answered, CallsStore}, InOrder.{FilesAnswer, StoresAnswer}, Kept.{BeginsWell, StaysKept, TellParts}, Stores.{image_files, image_hash, image_tree, the_files, the_tree, IsStoreOf}};

/// Where the transactions that commit in a script keep to the stores, the history after it is one by calls of the stores. The calls of
/// a transaction that commits, as its lines and their replies tell them, answer as one thread's calls on the map directly before the
/// commit, and end in the map directly after it; so do those of a group's members, which are ended in order. Those of a live
/// transaction answer so by the map at its begin, where it keeps to the stores; and where it writes nothing, each of them by that map
/// alone, whatever it marks.
///
/// So it is of the hash store with the tree store (`stores`) and with the files (`files`), where the tree store's region is written by
/// calls on files alone. A call of the tree store that writes does not keep to the files; one that reads does.
pub fn stores_of_a_script_answer()
    ensures stores { (W : World) (lines : List (ℕ × Line)) → AreLines lines → StoresAnswer W lines }
    ensures files { (W : World) (lines : List (ℕ × Line)) → AreLines lines → FilesAnswer W lines }
{}

/// The accesses of a live transaction that keeps to the stores are those of the calls that its lines tell, each made on what the
/// transaction was shown and local for its store, and others that write neither region, whatever other transactions do.
pub fn told_calls_are_parts()
    ensures stores { (W : World) (lines : List (ℕ × Line)) → IsWorld W → W.live ≡ [] → AreLines lines → TellParts the_tree W lines }
    ensures files { (W : World) (lines : List (ℕ × Line)) → IsWorld W → W.live ≡ [] → AreLines lines → TellParts the_files W lines }
{}

/// A call of the hash store or the tree store that is refused writes nothing: its transaction keeps to the stores, and to the files, where
/// it did before. So does one whose read of a file is refused; each other refused call on files may have written, and what it wrote is
/// tested.
pub fn refused_store_calls_keep_to_the_stores()
    ensures stores { (W : World) (client : ℕ) (op : Op) → IsWorld W → CallsStore op → answered op (step W client op).0 ≡ None → StaysKept the_tree W client op }
    ensures files { (W : World) (client : ℕ) (op : Op) → IsWorld W → CallsStore op → answered op (step W client op).0 ≡ None → StaysKept the_files W client op }
    ensures reads { (W : World) (client : ℕ) (name : List ℕ) (off len : ℕ) → let op = FileRead name off len in IsWorld W → file_answered op (step W client op).0 ≡ None → StaysKept the_files W client op }
{}

/// The stores of an image are the hash store and the tree store of its areas, and the files that have the tree store for their names,
/// where it has them; what it does not have is empty. The stores of a new image are well formed.
pub fn stores_of_an_image_are_its_regions()
    ensures hash { (g : Geometry) → g.hash ≢ 0 → IsStoreOf (image_hash g) (IsHashRegion (hash_area g)) (hash_map (hash_area g)) }
    ensures tree { (g : Geometry) → g.tree ≢ 0 → IsStoreOf (image_tree g) (IsTreeRegion (tree_area g)) (tree_map (tree_area g)) }
    ensures files { (g : Geometry) → file_blocks g ≢ 0 → IsStoreOf (image_files g) (AreFileRegions (files_area g)) (files (files_area g)) }
    ensures no_hash { (g : Geometry) (A : Array) → g.hash ≡ 0 → (image_hash g).map_of A ≡ empty }
    ensures no_tree { (g : Geometry) (A : Array) → g.tree ≡ 0 → (image_tree g).map_of A ≡ empty }
    ensures no_files { (g : Geometry) (A : Array) → file_blocks g ≡ 0 → (image_files g).map_of A ≡ empty }
    ensures made { (g : Geometry) (generation : ℕ) → IsTrue (is_valid g) → generation ≤ LAST → BeginsWell the_tree (fresh g generation (empty_history g)) }
    ensures made_files { (g : Geometry) (generation : ℕ) → IsTrue (is_valid g) → generation ≤ LAST → BeginsWell the_files (fresh g generation (empty_history g)) }
{}
