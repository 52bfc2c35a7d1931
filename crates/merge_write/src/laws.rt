// What the contracts of a patch come to together.
ghost use Rattle.std.specs.{Prelude.{◌≡◌, ◌≢◌, ◌++◌, ℕ, IsTrue, List, [], ◌∷◌, None, Option, length, map, replicate}, List.AllByRecursion};
ghost use Rattle.iso_model.specs.{declared.access.Access.Access, declared.access.Span.Span, Array.{merged, Array}, Effect.{block_runs, effects_from, is_write, own, runs_from}, Premises.{block_at, HasBytes}};
ghost use Rattle.merge_write.specs.Patch.{written, laid, followed, piece, run_of};

/// A write that is set on a blank patch, which is then laid over a block, is the write to that block.
pub fn patches_write()
    ensures { (spans : List Span) (size : ℕ) (block bytes : List ℕ) → length block ≡ size → length bytes ≡ size
        → laid (written spans 0 (replicate size None) bytes) block ≡ merged spans 0 block bytes }
{}

/// The writes of a block that are set in order, from a blank patch on, make what the list writes there,
/// and its spans are the runs that a record keeps of that block.
pub fn patches_hold_the_effect()
    ensures blank { (b size : ℕ) → effects_from [] b 0 size ≡ replicate size None }
    ensures set { (accesses : List Access) (a : Access) (b size : ℕ) → IsTrue (is_write a) → a.block ≡ b → length a.bytes ≡ size
        → written a.spans 0 (effects_from accesses b 0 size) a.bytes ≡ effects_from (accesses ++ a ∷ []) b 0 size }
    ensures spans { (accesses : List Access) (b size : ℕ) → map piece (runs_from 0 0 (effects_from accesses b 0 size)) ≡ map piece (block_runs size accesses b) }
{}

/// Effects grow: by a write of the block alone; those of both lists are the first ones followed by the later ones;
/// laid over a block as it was, they show what the list leaves of it; and the pieces of a block are its runs.
pub fn effects_grow()
    ensures kept { (accesses : List Access) (a : Access) (b size : ℕ) → (IsTrue (is_write a) → a.block ≢ b)
        → effects_from (accesses ++ a ∷ []) b 0 size ≡ effects_from accesses b 0 size }
    ensures followed { (xs ys : List Access) (b size : ℕ) → followed (effects_from xs b 0 size) (effects_from ys b 0 size) ≡ effects_from (xs ++ ys) b 0 size }
    ensures shown { (A : Array) (accesses : List Access) (b size : ℕ) → AllByRecursion (HasBytes size) accesses → length (block_at A b) ≡ size
        → laid (effects_from accesses b 0 size) (block_at A b) ≡ block_at (own A accesses) b }
    ensures runs { (b : ℕ) (values : List (Option ℕ)) → map (run_of b) (map piece (runs_from 0 0 values)) ≡ runs_from b 0 values }
{}
