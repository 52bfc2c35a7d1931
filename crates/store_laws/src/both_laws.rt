// The laws of stores, at a hash store and a tree store that one transaction calls.
ghost use Rattle.std.specs.Prelude.{◌≢◌, ℕ, IsTrue, List};
ghost use Rattle.iso_model.specs.{declared.access.Geometry.Geometry, Array.{zeros, Array}, Geometry.is_valid, History.History};
ghost use Rattle.store_model.specs.declared.stores.Area.{Area};
ghost use Rattle.store_model.specs.HashCalls as hash;
ghost use Rattle.store_model.specs.TreeCalls as tree;
ghost use Rattle.store_model.specs.{HashRegion.{del_op, get_op, put_op, IsHashArea}, Areas.{hash_area, tree_area}, TreeRegion.{scan_op, IsTreeArea}};
ghost use Rattle.store_laws.specs.{Both.{BothWellFormed, IsByBoth}, Calls.{AreDisjoint, Del, Found, Get, Got, Put, WasPut, WasThere}, Committed.{BothAnswerFrom, BothAnswerShown}, Growing.{MakesFirstPart, MakesSecondPart}, Hash.hash_store, Tree.{tree_store, OnKey, Scan}};
ghost use Rattle.tx_blocks.specs.Runs.{HasEnded};

/// Where commits write the regions of a hash store and of a tree store by calls that answered Ok alone, and both begin well formed, the
/// calls of each store in a commit answer as one thread's calls on its finite map: it begins as the map of the array directly before the
/// commit, and ends as the map of the array directly after it. A transaction's calls answer so by the maps of what it is shown (`live`),
/// and where it writes nothing, each of them by the map at its begin.
pub fn calls_of_both_stores_answer_in_order()
    ensures history { (a b : Area) (g : Geometry) (H : History) (n : ℕ) → IsHashArea a → IsTreeArea b → IsByBoth (hash_store a) (tree_store b) g H n → BothAnswerFrom (hash_store a) (tree_store b) H n }
    ensures live { (a b : Area) (A : Array) → IsHashArea a → IsTreeArea b → BothWellFormed (hash_store a) (tree_store b) A → BothAnswerShown (hash_store a) (tree_store b) A }
{}

/// What the calls of both stores promise of an answer Ok makes them parts of their transaction, where the areas have no block in
/// common: a call of the one then writes no block of the other.
pub fn calls_of_both_stores_are_parts()
    ensures hash_got { (a b : Area) (key : List ℕ) → IsHashArea a → AreDisjoint a b
        → MakesFirstPart (hash_store a) (tree_store b) (HasEnded (hash.get_program a key)) (get_op key) (Get key) (λ r. Got r) }
    ensures hash_was_put { (a b : Area) (key value : List ℕ) → IsHashArea a → AreDisjoint a b
        → MakesFirstPart (hash_store a) (tree_store b) (HasEnded (hash.put_program a key value)) (put_op key value) (Put key value) (λ r. WasPut) }
    ensures hash_was_there { (a b : Area) (key : List ℕ) → IsHashArea a → AreDisjoint a b
        → MakesFirstPart (hash_store a) (tree_store b) (HasEnded (hash.del_program a key)) (del_op key) (Del key) (λ r. WasThere r) }
    ensures tree_got { (a b : Area) (key : List ℕ) → AreDisjoint a b
        → MakesSecondPart (hash_store a) (tree_store b) (HasEnded (tree.get_program b key)) (get_op key) (OnKey (Get key)) (λ r. Got r) }
    ensures tree_was_put { (a b : Area) (key value : List ℕ) → IsTreeArea b → AreDisjoint a b
        → MakesSecondPart (hash_store a) (tree_store b) (HasEnded (tree.put_program b key value)) (put_op key value) (OnKey (Put key value)) (λ r. WasPut) }
    ensures tree_was_there { (a b : Area) (key : List ℕ) → AreDisjoint a b
        → MakesSecondPart (hash_store a) (tree_store b) (HasEnded (tree.del_program b key)) (del_op key) (OnKey (Del key)) (λ r. WasThere r) }
    ensures tree_found { (a b : Area) (from to : List ℕ) (most : ℕ) → AreDisjoint a b
        → MakesSecondPart (hash_store a) (tree_store b) (HasEnded (tree.scan_program b from to most)) (scan_op from to most) (Scan from to most) (λ r. Found r) }
{}

/// The stores of an image have no block in common. Where a valid image has both, their areas are such as the laws ask for, and the
/// regions of a new one are well formed.
pub fn stores_of_an_image_are_apart()
    ensures disjoint { (g : Geometry) → AreDisjoint (hash_area g) (tree_area g) }
    ensures areas { (g : Geometry) → IsTrue (is_valid g) → g.hash ≢ 0 → g.tree ≢ 0 → IsHashArea (hash_area g) × IsTreeArea (tree_area g) }
    ensures made { (g : Geometry) → IsTrue (is_valid g) → g.hash ≢ 0 → g.tree ≢ 0
        → BothWellFormed (hash_store (hash_area g)) (tree_store (tree_area g)) (zeros g.block g.blocks) }
{}
