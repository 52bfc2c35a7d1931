// The laws of stores, at the hash store.
ghost use Rattle.std.specs.{Prelude.{◌≡◌, ℕ, ◌≤◌, ◌+◌, List}, FinMap.empty};
ghost use Rattle.iso_model.specs.Array.{zeros, Array};
ghost use Rattle.store_model.specs.{declared.stores.Area.Area, HashCalls.{del_program, get_program, put_program}, HashRegion.{del_op, get_op, hash_map, put_op, IsHashArea, IsHashRegion}};
ghost use Rattle.store_laws.specs.{Calls.{Del, Get, Got, IsBlank, Put, WasPut, WasThere}, Growing.MakesPart, Hash.hash_store};
ghost use Rattle.tx_blocks.specs.Runs.{HasEnded};

/// What the calls of the hash store promise of an answer Ok, that they made the accesses of their program and are local, makes them
/// parts of their transaction.
pub fn hash_calls_are_parts()
    ensures got { (a : Area) (key : List ℕ) → MakesPart (hash_store a) (HasEnded (get_program a key)) (get_op key) (Get key) (λ r. Got r) }
    ensures was_put { (a : Area) (key value : List ℕ) → MakesPart (hash_store a) (HasEnded (put_program a key value)) (put_op key value) (Put key value) (λ r. WasPut) }
    ensures was_there { (a : Area) (key : List ℕ) → MakesPart (hash_store a) (HasEnded (del_program a key)) (del_op key) (Del key) (λ r. WasThere r) }
{}

/// A region of zeros is well formed and holds no pair; so is the region of a new image.
pub fn blank_hash_regions_are_empty()
    ensures blank { (a : Area) (A : Array) → IsHashArea a → IsBlank a A → IsHashRegion a A × (hash_map a A ≡ empty) }
    ensures made { (a : Area) (n : ℕ) → IsHashArea a → a.start + a.blocks ≤ n → IsHashRegion a (zeros a.size n) × (hash_map a (zeros a.size n) ≡ empty) }
{}
