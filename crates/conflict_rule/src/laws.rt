// How notes follow a history: a law is a function that does nothing, and says something by its contract.
ghost use Rattle.std.specs.Prelude.{ℕ, ◌+◌, ◌<◌, ◌≤◌, List, [], ◌∷◌, ◌++◌, length};
ghost use Rattle.byte_marks.specs.Touched.{AreTouched};
ghost use Rattle.iso_model.specs.{declared.access.Commit.Commit, declared.access.Geometry.Geometry, declared.access.Kind.TheVariants.Write, History.History};
ghost use Rattle.conflict_rule.specs.{Notes.{above, Note}, Decision.{AreNotesAfter, Bytes}};

/// After the last commit there are no notes (`none`); with a new commit's note added they are those of the longer history (`added`);
/// and those above a later number are the notes after that one (`dropped`).
pub fn notes_follow_the_commits()
    ensures none { (g : Geometry) (H : History) (n : ℕ) → H.first + length H.commits ≤ n + 1 → AreNotesAfter g H n [] }
    ensures added { (g : Geometry) (H : History) (n : ℕ) (notes : List Note) (c : Commit) (writes : Bytes)
        → n < H.first + length H.commits → AreNotesAfter g H n notes → AreTouched g.block g.blocks Write c.accesses writes
        → AreNotesAfter g (record H { commits = H.commits ++ c ∷ [] }) n (notes ++ (H.first + length H.commits, writes) ∷ []) }
    ensures dropped { (g : Geometry) (H : History) (m n : ℕ) (notes : List Note) → m ≤ n → AreNotesAfter g H m notes
        → AreNotesAfter g H n (above n notes) }
{}
