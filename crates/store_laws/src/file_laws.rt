// The laws of stores, at the file store, and at a transaction that looks into its tree.
ghost use Rattle.std.specs.{Prelude.{◌≡◌, ℕ, ◌≤◌, ◌+◌, List}, FinMap.empty};
ghost use Rattle.iso_model.specs.{declared.access.Geometry.Geometry, Array.{zeros, Array}, History.History};
ghost use Rattle.store_model.specs.{declared.files.FileAreas.FileAreas, FileCalls.{create_op, create_program, read_op, read_program, remove_op, remove_program, rename_op, rename_program, write_op, write_program}, FileRegion.{files, AreFileAreas, AreFileRegions}};
ghost use Rattle.iso_fs.specs.Ends.{HasRun};
ghost use Rattle.store_laws.specs.{Calls.IsBlank, Files.{file_store, FileMade, FileRead, FileThere, MakeFile, ReadFile, RemoveFile, RenameFile, WriteFile}, Growing.MakesPart, Looks.{LooksAnswerAt, LooksShown}, Parts.{CommitsAfter, IsByCalls}, Tree.tree_store};

/// What the calls of the file store promise of an answer Ok, that they made the accesses of their program and are local, makes them
/// parts of their transaction. A call of the tree store that writes is none: its region belongs to the file calls.
pub fn file_calls_are_parts()
    ensures made { (a : FileAreas) (name : List ℕ) → MakesPart (file_store a) (HasRun (create_program a name)) (create_op name) (MakeFile name) (λ r. FileMade) }
    ensures was_read { (a : FileAreas) (name : List ℕ) (off len : ℕ) → MakesPart (file_store a) (HasRun (read_program a name off len)) (read_op name off len) (ReadFile name off len) (λ r. FileRead r) }
    ensures was_written { (a : FileAreas) (name : List ℕ) (off : ℕ) (bytes : List ℕ) → MakesPart (file_store a) (HasRun (write_program a name off bytes)) (write_op name off bytes) (WriteFile name off bytes) (λ r. FileThere r) }
    ensures renamed { (a : FileAreas) (old new : List ℕ) → MakesPart (file_store a) (HasRun (rename_program a old new)) (rename_op old new) (RenameFile old new) (λ r. FileThere r) }
    ensures removed { (a : FileAreas) (name : List ℕ) → MakesPart (file_store a) (HasRun (remove_program a name)) (remove_op name) (RemoveFile name) (λ r. FileThere r) }
{}

/// Regions of zeros are well formed and hold no file; so are those of a new image.
pub fn blank_file_regions_are_empty()
    ensures blank { (a : FileAreas) (A : Array) → AreFileAreas a → IsBlank a.tree A → IsBlank a.files A → AreFileRegions a A × (files a A ≡ empty) }
    ensures made { (a : FileAreas) (n : ℕ) → AreFileAreas a → a.files.start + a.files.blocks ≤ n → AreFileRegions a (zeros a.tree.size n) × (files a (zeros a.tree.size n) ≡ empty) }
{}

/// A transaction that calls on files may look into the tree store that has their names. Its calls on files answer as one thread's, as
/// they do without the looks. Each look answers by the tree's map of the array directly before the commit, with what the
/// transaction wrote before it (`commits`); in a live transaction, of the array at its begin so (`live`). Calls of a hash store are
/// among the other accesses here.
pub fn looks_into_the_tree_beside_files_answer()
    ensures commits { (b : FileAreas) (g : Geometry) (H : History) (n : ℕ) → AreFileAreas b → IsByCalls (file_store b) g H n → CommitsAfter H n (LooksAnswerAt (file_store b) (tree_store b.tree) H) }
    ensures live { (b : FileAreas) (A : Array) → AreFileAreas b → AreFileRegions b A → LooksShown (file_store b) (tree_store b.tree) A }
{}
