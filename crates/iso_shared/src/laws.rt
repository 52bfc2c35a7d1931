// The laws of legal lists: each function does nothing, and its contract is the law.
ghost use Rattle.std.specs.{Prelude.{◌≡◌, ℕ, ◌<◌, List, [], ◌∷◌, ◌++◌, Some}, List.AllByRecursion};
ghost use Rattle.iso_model.specs.{declared.access.Mode.Mode, Worlds.Extends};
ghost use Rattle.iso_shared.specs.{declared.entry.Entry.Entry, declared.entry.Entry.TheVariants.{Begin, Look}, declared.entry.Posting.Posting, Legal.{IsLegal, handed, returned}, Plain.{CommitsUpTo, WasPosted}, Standing.ShowsFrom, States.{Start, is_loose, opened, state_at}};
ghost use Rattle.turn_lock.specs.Numbers.{is_out};

/// In a legal list a number is out exactly where its transaction is live and under no label.
pub fn numbers_out_are_loose()
    ensures { (A : Start) (es : List Entry) (n : ℕ) → A.world.live ≡ [] → IsLegal A es → is_out handed returned n es ≡ is_loose n (state_at A es) }
{}

/// What a look finds was posted under its label, as it was then, and nothing between the two took it out.
pub fn looks_find_what_was_posted()
    ensures { (A : Start) (es : List Entry) (label : List ℕ) (p : Posting) → A.world.live ≡ [] → IsLegal A (es ++ Look label (Some p) ∷ []) → WasPosted (opened A) es label p }
{}

/// The history at a place of a list goes on from the one at each place before it, and so begins with the one at which the list began.
pub fn histories_of_lists_grow()
    ensures { (A : Start) (front later : List Entry) → Extends (state_at A front).world.history (state_at A (front ++ later)).world.history }
{}

/// A begin is at or above each commit that was told of before it.
pub fn begins_are_above_the_commits_before()
    ensures { (A : Start) (es : List Entry) (n at : ℕ) (mode : Mode) → 0 < A.world.history.first → IsLegal A (es ++ Begin n at mode ∷ []) → AllByRecursion (λ e. CommitsUpTo at e) es }
{}

/// An image that shows no commit before the last one of a list shows none before one that the list told of.
pub fn told_commits_are_shown()
    ensures { (A : Start) (told es : List Entry) (image : List ℕ) → 0 < A.world.history.first → IsLegal A told → (shown : ShowsFrom A told es image) → AllByRecursion (λ e. CommitsUpTo shown.at e) told }
{}
