// The laws of single steps: each function does nothing, and its contract is the law.
ghost use Rattle.std.specs.{Prelude.{◌≡◌, ◌↔◌, ℕ, ◌<◌, ◌≤◌, ◌||◌, List, [], ◌∷◌, ◌++◌, IsFalse, true, length, sum_by}, List.AllByRecursion};
ghost use Rattle.iso_model.specs.{declared.access.Access.Access, declared.access.Commit.Commit, declared.access.Run.Run, declared.access.Span.Span, Array.{covered, in_span}, Effect.{effect_at, runs}, History.last, Marks.marked, Step.write_access, Versions.{is_kept, is_written, versions, IsWritten, StillShows}, World.{floor, logged_commits, BeganAt, World}};

/// A mark changes the last access alone. The first mark of an access takes the place of its whole block, so that a write
/// writes nothing outside it; a further one adds its bytes.
pub fn marks_change_the_last_access()
    ensures last { (span : Span) (accesses : List Access) (a : Access)
        → marked span (accesses ++ a ∷ []) ≡ accesses ++ record a { spans = a.spans ++ span ∷ [] } ∷ [] }
    ensures first { (span : Span) (p : ℕ) → covered (span ∷ []) p ≡ in_span p span }
    ensures further { (first : Span) (spans : List Span) (span : Span) (p : ℕ)
        → covered ((first ∷ spans) ++ span ∷ []) p ≡ (covered (first ∷ spans) p || in_span p span) }
    ensures unwritten { (span : Span) (accesses : List Access) (block : ℕ) (bytes : List ℕ) (p : ℕ) → IsFalse (in_span p span)
        → effect_at (marked span (accesses ++ write_access block bytes ∷ [])) block p ≡ effect_at accesses block p }
{}

/// The floor is the least live begin, and the last commit's number where no transaction is live.
pub fn floor_is_the_least_begin()
    ensures below { (W : World) → AllByRecursion (λ t. floor W ≤ t.begin) W.live }
    ensures met { (W : World) → 0 < length W.live → BeganAt (floor W) W.live }
    ensures none { (W : World) → W.live ≡ [] → floor W ≡ last W.history }
{}

/// A byte is written up to a trim number where a commit up to it writes the byte. A run is kept where its commit is above
/// the trim number or one of its bytes is not written again up to it; where nothing was trimmed, each run is kept.
pub fn versions_are_what_still_shows()
    ensures written { (trim k : ℕ) (commits : List Commit) (b p : ℕ) → (is_written trim k commits b p ≡ true) ↔ IsWritten trim k commits b p }
    ensures kept { (trim n : ℕ) (later : List Commit) (run : Run) → (is_kept trim n later run ≡ true) ↔ StillShows trim n later run }
    ensures all { (W : World) → W.trim ≡ W.base → versions W ≡ sum_by (λ c. length (runs W.geometry c.accesses)) (logged_commits W) }
{}
