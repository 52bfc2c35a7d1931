// The laws of the definitions: each function does nothing, and its contract is the law.
ghost use Rattle.std.specs.{Prelude.{◌≡◌, ◌≢◌, ◌↔◌, ℕ, ◌<◌, ◌≤◌, ◌+◌, ◌++◌, true, List, map}, List.AllByRecursion};
ghost use Rattle.iso_model.specs.{declared.access.Commit.Commit, declared.access.Geometry.Geometry, Effect.or_else, Image.written, Versions.kept_from};
ghost use Rattle.mv_index.specs.{declared.version.Version.Version, Shown.{byte_in, ShowTheSame}, Placed.IsIndexOf, Versions.{BlockVersions, count_of, IsHidden, shown_since, still_shows, upto}};

/// A version is dropped at a number exactly where it is not above it, and each of its bytes is in a later one up to the number.
pub fn hidden_versions_are_dropped()
    ensures { (t : ℕ) (v : Version) (later : List Version) → still_shows t v later ≢ true ↔ IsHidden t v later }
{}

/// What a trim at a number drops changes no byte at that number or a later one.
pub fn dropped_versions_show_nothing()
    ensures from_there { (t n : ℕ) (versions : List Version) → t ≤ n → ShowTheSame (upto n (shown_since t versions)) (upto n versions) }
    ensures all { (t : ℕ) (versions : List Version) → ShowTheSame (shown_since t versions) versions }
{}

/// A trim after an earlier one is the later one alone.
pub fn trims_follow_one_another()
    ensures { (t later : ℕ) (versions : List Version) → t ≤ later → shown_since later (shown_since t versions) ≡ shown_since later versions }
{}

/// Versions above the number of a trim come after those that it keeps.
pub fn later_versions_are_kept()
    ensures { (t : ℕ) (versions more : List Version) → AllByRecursion (λ v. t < v.number) more → shown_since t (versions ++ more) ≡ shown_since t versions ++ more }
{}

/// Of two lists one after the other the later one shows its bytes, and the first one the others.
pub fn later_versions_come_first()
    ensures { (image : List ℕ) (xs ys : List Version) (p : ℕ) → byte_in image (xs ++ ys) p ≡ or_else (byte_in image ys p) (byte_in image xs p) }
{}

/// An index of the records of these commits has as many versions as the model counts.
pub fn versions_are_those_that_the_model_keeps()
    ensures { (g : Geometry) (trim first place : ℕ) (commits : List Commit) (index : List BlockVersions) → IsIndexOf g first place trim (map (written g) commits) index
        → count_of index ≡ kept_from g trim first commits }
{}
