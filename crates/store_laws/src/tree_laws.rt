// The laws of stores, at the tree store.
ghost use Rattle.std.specs.{Prelude.{◌≡◌, ℕ, ◌≤◌, ◌+◌, List}, FinMap.empty};
ghost use Rattle.iso_model.specs.Array.{zeros, Array};
ghost use Rattle.store_model.specs.{declared.stores.Area.Area, TreeCalls.{del_program, get_program, put_program, scan_program}, HashRegion.{del_op, get_op, put_op}, TreeRegion.{scan_op, tree_map, IsTreeArea, IsTreeRegion}};
ghost use Rattle.store_laws.specs.{Calls.{Del, Found, Get, Got, IsBlank, Put, WasPut, WasThere}, Growing.MakesPart, Tree.{tree_store, OnKey, Scan}};
ghost use Rattle.tx_blocks.specs.Runs.{HasEnded};

/// What the calls of the tree store promise of an answer Ok, that they made the accesses of their program and are local, makes them
/// parts of their transaction.
pub fn tree_calls_are_parts()
    ensures got { (a : Area) (key : List ℕ) → MakesPart (tree_store a) (HasEnded (get_program a key)) (get_op key) (OnKey (Get key)) (λ r. Got r) }
    ensures was_put { (a : Area) (key value : List ℕ) → MakesPart (tree_store a) (HasEnded (put_program a key value)) (put_op key value) (OnKey (Put key value)) (λ r. WasPut) }
    ensures was_there { (a : Area) (key : List ℕ) → MakesPart (tree_store a) (HasEnded (del_program a key)) (del_op key) (OnKey (Del key)) (λ r. WasThere r) }
    ensures found { (a : Area) (from to : List ℕ) (most : ℕ) → MakesPart (tree_store a) (HasEnded (scan_program a from to most)) (scan_op from to most) (Scan from to most) (λ r. Found r) }
{}

/// A region of zeros is well formed and holds no pair; so is the region of a new image.
pub fn blank_tree_regions_are_empty()
    ensures blank { (a : Area) (A : Array) → IsTreeArea a → IsBlank a A → IsTreeRegion a A × (tree_map a A ≡ empty) }
    ensures made { (a : Area) (n : ℕ) → IsTreeArea a → a.start + a.blocks ≤ n → IsTreeRegion a (zeros a.size n) × (tree_map a (zeros a.size n) ≡ empty) }
{}
