// The laws of stores: each function does nothing, and its contract is the law.
ghost use Rattle.std.specs.Prelude.{◌≡◌, ◌⊎◌, ℕ, ◌-◌, List, [], Some};
ghost use Rattle.iso_model.specs.{declared.access.Access.Access, declared.access.Commit.Commit, declared.access.Geometry.Geometry, Array.Array, declared.access.Mode.TheVariants.Serial, History.{array_at, last, History}, Isolation.IsIsolated, Premises.{appended, IsHistory}};
ghost use Rattle.store_laws.specs.{Both.{firsts, seconds, BothInOrder, BothWellFormed, First, IsByBoth, IsOfBoth, MixedParts, Neither, Second}, Committed.{AnswersShown, AreCommitted, BothAnswerFrom, BothAnswerShown, AnswersFrom, IsCommitted}, Growing.{BothGrow, Grows, IsMadeOf, IsMadeOfBoth}, Parts.{calls_in, AnswerInOrder, Called, IsByCalls, IsOfCalls, Other, PartsOf}, Region.SpareRegion, Writes.{ShareNoBlock, WriteWithin}};
ghost use Rattle.tx_blocks.specs.{Runs.{HasRead, IsLocalCall}, Tx.{added, with_accesses, Tx}};

use crate::RegionStore;

/// The calls of a commit answer as one thread's calls on a map, which begins as the map directly before the commit and ends as the
/// map directly after it: `commit` says it of a commit that is serial, `history` of all commits after some number, where they are made of
/// calls. The region is well formed from there on, the calls of a transaction answer so by the map at its begin, and where it writes
/// nothing, each of them by that map (`AnswersFrom`). Whatever the history, they answer so by the map of what it is shown (`live`).
pub fn committed_calls_answer_in_order<S: RegionStore>(store: &S)
    ensures commit { let s = S.store store.now in (H : History) (k : ℕ) (parts : PartsOf s) → IsCommitted s H k parts → AnswerInOrder s parts (array_at H (k - 1)) (array_at H k) }
    ensures history { let s = S.store store.now in (g : Geometry) (H : History) (n : ℕ) → IsByCalls s g H n → AnswersFrom s H n }
    ensures live { let s = S.store store.now in (A : Array) → s.IsWellFormed A → AnswersShown s A }
{}

/// Where transactions call two stores, the calls of each answer as one thread's calls on its map. Where the stores are
/// apart, what writes in the region of the one spares that of the other.
pub fn calls_of_two_stores_answer_in_order<S: RegionStore, T: RegionStore>(first: &S, second: &T)
    ensures commit { let s = S.store first.now in let t = T.store second.now in (H : History) (k : ℕ) (parts : MixedParts s t) → AreCommitted s t H k parts
        → BothInOrder s t parts (array_at H (k - 1)) (array_at H k) }
    ensures history { let s = S.store first.now in let t = T.store second.now in (g : Geometry) (H : History) (n : ℕ) → IsByBoth s t g H n → BothAnswerFrom s t H n }
    ensures live { let s = S.store first.now in let t = T.store second.now in (A : Array) → BothWellFormed s t A → BothAnswerShown s t A }
    ensures apart { let s = S.store first.now in let t = T.store second.now in (accesses : List Access) → ShareNoBlock s t → WriteWithin s accesses → SpareRegion t accesses }
{}

/// A history, of a new image or of one that was opened, is one by calls from its last commit on where the region is well formed
/// there, and it stays one as commits by calls come to it.
pub fn histories_stay_by_calls<S: RegionStore>(store: &S)
    ensures begun { let s = S.store store.now in (g : Geometry) (H : History) → IsHistory g H → IsIsolated g H → s.IsWellFormed (array_at H (last H))
        → IsByCalls s g H (last H) }
    ensures appended { let s = S.store store.now in (g : Geometry) (H : History) (c : Commit) (n : ℕ) → IsByCalls s g H n → IsIsolated g (appended H c) → IsOfCalls s H c
        → IsByCalls s g (appended H c) n }
{}

/// A history is one by calls of two stores from its last commit on where both are well formed there, and it stays one likewise.
pub fn histories_of_two_stores_stay_by_calls<S: RegionStore, T: RegionStore>(first: &S, second: &T)
    ensures begun { let s = S.store first.now in let t = T.store second.now in (g : Geometry) (H : History) → IsHistory g H → IsIsolated g H → BothWellFormed s t (array_at H (last H))
        → IsByBoth s t g H (last H) }
    ensures appended { let s = S.store first.now in let t = T.store second.now in (g : Geometry) (H : History) (c : Commit) (n : ℕ) → IsByBoth s t g H n → IsIsolated g (appended H c) → IsOfBoth s t H c
        → IsByBoth s t g (appended H c) n }
{}

/// A transaction is made of no parts at its begin, and of one part more after each call that is local for its store, and after other
/// accesses that write no block of the region, as the reads of a call that was refused. Its commit is by calls then.
pub fn transactions_grow_by_parts<S: RegionStore>(store: &S)
    ensures begun { let s = S.store store.now in (A : Array) (t : Tx) → t.base ≡ Some A → t.accesses ≡ [] → IsMadeOf s A t [] }
    ensures called { let s = S.store store.now in (t u : Tx) (call : s.Call) (answer : s.Answer) (done : List Access) → u ≡ with_accesses t done
        → IsLocalCall s.IsWellFormed s.map_of (s.act call) t u answer → Grows s t u (Called call (added t u) answer) }
    ensures other { let s = S.store store.now in (t u : Tx) (done : List Access) → u ≡ with_accesses t done → SpareRegion s done → Grows s t u (Other done) }
    ensures refused { let s = S.store store.now in (t u : Tx) → (read : HasRead t u) → Grows s t u (Other read.done) }
    ensures committed { let s = S.store store.now in (H : History) (c : Commit) (t : Tx) (parts : PartsOf s) → IsMadeOf s (array_at H c.begin) t parts
        → t.accesses ≡ c.accesses → (calls_in parts ≡ []) ⊎ (c.mode ≡ Serial) → IsOfCalls s H c }
{}

/// A transaction that calls two stores gets one part more after each call of either that spares the other's region, and
/// after other accesses that write neither.
pub fn transactions_of_two_stores_grow_by_parts<S: RegionStore, T: RegionStore>(
    first: &S,
    second: &T,
)
    ensures begun { let s = S.store first.now in let t = T.store second.now in (A : Array) (x : Tx) → x.base ≡ Some A → x.accesses ≡ [] → IsMadeOfBoth s t A x [] }
    ensures first { let s = S.store first.now in let t = T.store second.now in (x y : Tx) (call : s.Call) (answer : s.Answer) (done : List Access) → y ≡ with_accesses x done
        → IsLocalCall s.IsWellFormed s.map_of (s.act call) x y answer → SpareRegion t (added x y) → BothGrow s t x y (First call (added x y) answer) }
    ensures second { let s = S.store first.now in let t = T.store second.now in (x y : Tx) (call : t.Call) (answer : t.Answer) (done : List Access) → y ≡ with_accesses x done
        → IsLocalCall t.IsWellFormed t.map_of (t.act call) x y answer → SpareRegion s (added x y) → BothGrow s t x y (Second call (added x y) answer) }
    ensures other { let s = S.store first.now in let t = T.store second.now in (x y : Tx) (done : List Access) → y ≡ with_accesses x done
        → SpareRegion s done → SpareRegion t done → BothGrow s t x y (Neither done) }
    ensures refused { let s = S.store first.now in let t = T.store second.now in (x y : Tx) → (read : HasRead x y) → BothGrow s t x y (Neither read.done) }
    ensures committed { let s = S.store first.now in let t = T.store second.now in (H : History) (c : Commit) (x : Tx) (parts : MixedParts s t) → IsMadeOfBoth s t (array_at H c.begin) x parts
        → x.accesses ≡ c.accesses → ((calls_in (firsts parts) ≡ []) × (calls_in (seconds parts) ≡ [])) ⊎ (c.mode ≡ Serial) → IsOfBoth s t H c }
{}
