// The laws of indexes and of the blocks that are read by them: each function does nothing, and its contract is the law.
ghost use Rattle.std.specs.{Prelude.{◌≡◌, ℕ, ◌+◌, ◌-◌, ◌*◌, ◌^◌, ◌<◌, ◌≤◌, List, [], ◌∷◌, ◌++◌, IsTrue, length, map, drop, take}, List.AllByRecursion};
ghost use Rattle.iso_model.specs.{declared.access.Geometry.Geometry, declared.access.Run.Run, Geometry.{base_place, image_size, is_valid, log_place}, History.{History, array_at, last}, Image.{AreRuns, IsRecord, Written, records}, Premises.{IsHistory, block_at}};
ghost use Rattle.iso_image.specs.Half.{Half, IsHeld, MayFollow, half_of, history_of, last_told, next_gate};
ghost use Rattle.mv_index.specs.{declared.version.Version.Version, Moves.{AreSplit, moved_to}, Placed.IsIndexOf, Shown.{AllLie, ShowTheSame}, Versions.{BlockVersions, shown_since, upto, versions_in}, Weights.bytes_above};
ghost use Rattle.version_read.specs.{Blocks.IsOver, Parts.{BlocksRise, HasTaken, MayTake, part_of}};

/// A block that is read by the index of a half is the block of the half's history: with the versions up to a number, from the
/// trim number on, at that number, and with pieces that show what all versions show, at the last number and later.
pub fn blocks_are_those_of_the_half()
    ensures upto { (g : Geometry) (x : Half) (t n b : ℕ) (index : List BlockVersions) (image block : List ℕ) → IsHeld g x image
        → IsIndexOf g (x.base + 1) (log_place g x.at) t x.told index → t ≤ n → b < g.blocks → length block ≡ g.block
        → IsOver image (base_place g x.at + b * g.block) (upto n (versions_in index b)) block → block ≡ block_at (array_at (history_of g x) n) b }
    ensures newest { (g : Geometry) (x : Half) (t n b : ℕ) (index : List BlockVersions) (pieces : List Version) (image block : List ℕ) → IsHeld g x image
        → IsIndexOf g (x.base + 1) (log_place g x.at) t x.told index → last_told x ≤ n → b < g.blocks → length block ≡ g.block
        → ShowTheSame pieces (versions_in index b) → IsOver image (base_place g x.at + b * g.block) pieces block → block ≡ block_at (array_at (history_of g x) n) b }
{}

/// So is the block of a history whose commits above a number are in the half.
pub fn blocks_are_those_of_the_history()
    ensures upto { (g : Geometry) (at generation base t n b : ℕ) (H : History) (index : List BlockVersions) (image block : List ℕ) → IsHistory g H
        → H.first ≤ base + 1 → IsHeld g (half_of g at generation base H) image
        → IsIndexOf g (base + 1) (log_place g at) t (half_of g at generation base H).told index → base ≤ n → t ≤ n → b < g.blocks → length block ≡ g.block
        → IsOver image (base_place g at + b * g.block) (upto n (versions_in index b)) block → block ≡ block_at (array_at H n) b }
    ensures newest { (g : Geometry) (at generation base t n b : ℕ) (H : History) (index : List BlockVersions) (pieces : List Version) (image block : List ℕ) → IsHistory g H
        → H.first ≤ base + 1 → IsHeld g (half_of g at generation base H) image
        → IsIndexOf g (base + 1) (log_place g at) t (half_of g at generation base H).told index → base ≤ n → last H ≤ n → b < g.blocks → length block ≡ g.block
        → ShowTheSame pieces (versions_in index b) → IsOver image (base_place g at + b * g.block) pieces block → block ≡ block_at (array_at H n) b }
{}

/// The versions of records that fit the log of a half lie in the image, and so do the blocks of its base.
pub fn versions_lie_in_the_image()
    ensures all { (g : Geometry) (first at t b : ℕ) (told : List Written) (index : List BlockVersions) → at ≤ 1 → AllByRecursion (IsRecord g) told
        → length (records g first told) ≤ g.log → IsIndexOf g first (log_place g at) t told index → AllLie g.block (image_size g) (versions_in index b) }
    ensures upto { (g : Geometry) (first at t n b : ℕ) (told : List Written) (index : List BlockVersions) → at ≤ 1 → AllByRecursion (IsRecord g) told
        → length (records g first told) ≤ g.log → IsIndexOf g first (log_place g at) t told index → AllLie g.block (image_size g) (upto n (versions_in index b)) }
    ensures base { (g : Geometry) (at b : ℕ) → at ≤ 1 → b < g.blocks → base_place g at + b * g.block + g.block ≤ image_size g }
{}

/// What becomes of the index of the records of a log: it begins without versions, takes in the next record, is trimmed at a
/// later number, and after the first records are left out and the others are elsewhere it is the index of those.
pub fn indexes_follow_their_log()
    ensures none { (g : Geometry) (first place t : ℕ) (index : List BlockVersions) → length index ≡ g.blocks → ((b : ℕ) → versions_in index b ≡ [])
        → IsIndexOf g first place t [] index }
    ensures more { (g : Geometry) (first place t : ℕ) (told : List Written) (w : Written) (old new : List BlockVersions) → IsIndexOf g first place t told old
        → t < first + length told → HasTaken (first + length told) (place + length (records g first told)) (map part_of w.parts) old new
        → IsIndexOf g first place t (told ++ w ∷ []) new }
    ensures trimmed { (g : Geometry) (first place t later : ℕ) (told : List Written) (old new : List BlockVersions) → IsIndexOf g first place t told old
        → t ≤ later → length new ≡ length old → ((b : ℕ) → versions_in new b ≡ shown_since later (versions_in old b))
        → IsIndexOf g first place later told new }
    ensures moved { (g : Geometry) (first place t k to later : ℕ) (told : List Written) (old new : List BlockVersions) → AllByRecursion (IsRecord g) told
        → IsIndexOf g first place t told old → k ≤ length told → t < first + k → later < first + k → length new ≡ length old
        → ((b : ℕ) → versions_in new b ≡ moved_to (place + length (records g first (take k told))) to (versions_in old b))
        → IsIndexOf g (first + k) to later (drop k told) new }
    ensures split { (g : Geometry) (first place t k b : ℕ) (told : List Written) (index : List BlockVersions) → AllByRecursion (IsRecord g) told
        → IsIndexOf g first place t told index → AreSplit (place + length (records g first (take k told))) (versions_in index b) }
{}

/// The index of a half's records may take in the next one.
pub fn next_records_may_be_taken_in()
    ensures may { (g : Geometry) (x : Half) (t : ℕ) (w : Written) (index : List BlockVersions) → IsTrue (is_valid g) → x.at ≤ 1
        → AllByRecursion (IsRecord g) x.told → MayFollow g x (w ∷ []) → IsIndexOf g (x.base + 1) (log_place g x.at) t x.told index
        → MayTake (last_told x + 1) (next_gate g x) (map part_of w.parts) index }
    ensures few { (g : Geometry) (x : Half) (w : Written) → IsTrue (is_valid g) → MayFollow g x (w ∷ []) → length (map part_of w.parts) < 2 ^ 32 }
    ensures blocks { (g : Geometry) (parts : List Run) → AreRuns g parts → AllByRecursion (λ part. part.block < g.blocks) (map part_of parts) }
    ensures order { (g : Geometry) (parts : List Run) → AreRuns g parts → BlocksRise (map part_of parts) }
    ensures small { (g : Geometry) (parts : List Run) → IsTrue (is_valid g) → AreRuns g parts → AllByRecursion (λ run. length run.bytes < 2 ^ 16) parts }
{}

/// The index of a log says how many bytes the records above a number take, if it is not below that of its last trim: the
/// parts above it, each with its head, and 20 bytes for each record.
pub fn records_above_are_in_the_index()
    ensures { (g : Geometry) (first place t k : ℕ) (told : List Written) (index : List BlockVersions) → AllByRecursion (IsRecord g) told → IsIndexOf g first place t told index
        → t < first + k → bytes_above (first + k - 1) index + 20 * (length told - k) ≡ length (records g (first + k) (drop k told)) }
{}
