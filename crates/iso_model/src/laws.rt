// The laws of the definitions: each function does nothing, and its contract is the law.
ghost use Rattle.std.specs.{Prelude.{◌≡◌, ◌≢◌, ◌↔◌, ℕ, ◌<◌, ◌≤◌, ◌+◌, ◌-◌, IsTrue, IsFalse, IsSome, IfSome, List, Some, None, length, map, slice_get, slice_index, unwrap_or}, List.AllByRecursion};
ghost use Rattle.iso_model.specs.{declared.access.Access.Access, declared.access.Clash.Clash, declared.access.Commit.Commit, declared.access.Geometry.Geometry, declared.access.Kind.TheVariants.Write, declared.access.Mode.Mode, declared.access.Mode.TheVariants.{Serial, Snapshot}, declared.access.Run.Run, Array.{Array, byte_at, covered, put}, Conflict.{clash, IsClash, IsSerialAt, IsSnapshotAt, NotAfter}, Effect.{effect_at, has_write, own, runs, touches}, Geometry.is_valid, History.{array_at, last, History}, Image.{commits_of, held, written, AreRuns, IsImage, IsRecord, SameEffect, Shows, recorded}, Isolation.IsIsolated, Premises.{appended, block_at, value_in, AreAccesses, AreBytes, HasBytes, HasShape, IsAccess, IsHistory, Limits}, Step.{put_access, read_access}, World.{empty_history, fresh}, Worlds.{Extends, IsWorld, MayHave}};

/// A valid geometry keeps its limits, and the image is small.
pub fn valid_geometry_keeps_limits()
    ensures { (g : Geometry) → IsTrue (is_valid g) → Limits g }
{}

/// A write gives the bytes that it covers its values, and keeps every other byte.
pub fn put_writes_what_it_covers()
    ensures covered { (A : Array) (w : Access) (p : ℕ) → length w.bytes ≡ length (block_at A w.block) → p < length (block_at A w.block)
        → IsTrue (covered w.spans p) → byte_at (put A w) w.block p ≡ slice_index w.bytes p }
    ensures not_covered { (A : Array) (w : Access) (p : ℕ) → IsFalse (covered w.spans p) → byte_at (put A w) w.block p ≡ byte_at A w.block p }
    ensures other_blocks { (A : Array) (w : Access) (b : ℕ) → b ≢ w.block → block_at (put A w) b ≡ block_at A b }
    ensures blocks { (A : Array) (w : Access) → length (put A w) ≡ length A }
    ensures bytes { (A : Array) (w : Access) (b : ℕ) → length (block_at (put A w) b) ≡ length (block_at A b) }
{}

/// The writes of a list leave at each byte what they write there, and keep the bytes that they do not cover.
pub fn own_leaves_the_effect()
    ensures value { (A : Array) (accesses : List Access) (b p : ℕ) → AllByRecursion (HasBytes (length (block_at A b))) accesses
        → p < length (block_at A b) → byte_at (own A accesses) b p ≡ unwrap_or (effect_at accesses b p) (byte_at A b p) }
    ensures written { (accesses : List Access) (b p : ℕ) → IsSome (effect_at accesses b p) ↔ IsTrue (touches Write accesses b p) }
    ensures blocks { (A : Array) (accesses : List Access) → length (own A accesses) ≡ length A }
    ensures bytes { (A : Array) (accesses : List Access) (b : ℕ) → length (block_at (own A accesses) b) ≡ length (block_at A b) }
{}

/// The runs are maximal, rising, disjoint and in the array, and have the bytes that the list writes, with their values;
/// no other runs do.
pub fn runs_cover_what_is_written()
    ensures maximal { (g : Geometry) (accesses : List Access) → AreRuns g (runs g accesses) }
    ensures values { (g : Geometry) (accesses : List Access) (b p : ℕ) → b < g.blocks → p < g.block
        → value_in (runs g accesses) b p ≡ effect_at accesses b p }
    ensures only { (g : Geometry) (accesses : List Access) (list : List Run) → AreRuns g list
        → ((b p : ℕ) → b < g.blocks → p < g.block → value_in list b p ≡ effect_at accesses b p) → list ≡ runs g accesses }
{}

/// A list has runs exactly where it has a write.
pub fn writes_have_runs()
    ensures some { (g : Geometry) (accesses : List Access) → 0 < g.block → AreAccesses g accesses → IsTrue (has_write accesses) ↔ (0 < length (runs g accesses)) }
    ensures none { (g : Geometry) (accesses : List Access) → 0 < g.block → AreAccesses g accesses → IsFalse (has_write accesses) ↔ (length (runs g accesses) ≡ 0) }
{}

/// The writes that a record represents have the effect of the accesses that it was made of, and so leave the same arrays.
pub fn records_keep_the_effect()
    ensures effect { (g : Geometry) (accesses : List Access) → SameEffect g (recorded g (runs g accesses)) accesses }
    ensures runs { (g : Geometry) (list : List Run) → AreRuns g list → runs g (recorded g list) ≡ list }
{}

/// An image that holds a history from some commit on shows that history, up to its last commit, whatever its form.
pub fn held_history_shows()
    ensures arrays { (g : Geometry) (b n : ℕ) (H : History) → IsHistory g H → H.first ≤ b + 1 → b ≤ n → array_at (held g b H) n ≡ array_at H n }
    ensures shows { (g : Geometry) (b form generation : ℕ) (H : History) (bytes : List ℕ) → IsHistory g H → H.first ≤ b + 1 → b ≤ last H
        → IsImage bytes (record g { form = form }) generation (held g b H) → Shows bytes g H (last H) }
    ensures whole { (g : Geometry) (b : ℕ) (H : History) → b + 1 ≡ H.first
        → held g b H ≡ record H { commits = commits_of g H.first (map (written g) H.commits) } }
    ensures longer { (bytes : List ℕ) (g : Geometry) (H G : History) (p : ℕ) → 0 < H.first → Extends H G
        → Shows bytes g H p → Shows bytes g G p }
{}

/// The clash is a least meeting, and where there is none a transaction with a write meets no later commit.
pub fn clash_is_the_least_meeting()
    ensures found { (g : Geometry) (H : History) (mode : Mode) (begin : ℕ) (accesses : List Access) (c : Clash)
        → clash g H mode begin accesses ≡ Some c → IsClash g H mode begin accesses c }
    ensures least { (g : Geometry) (H : History) (mode : Mode) (begin : ℕ) (accesses : List Access) (c d : Clash)
        → clash g H mode begin accesses ≡ Some c → IsClash g H mode begin accesses d → NotAfter c d }
    ensures none { (g : Geometry) (H : History) (mode : Mode) (begin : ℕ) (accesses : List Access) (d : Clash)
        → IsTrue (has_write accesses) → clash g H mode begin accesses ≡ None → ¬ IsClash g H mode begin accesses d }
    ensures read_only { (g : Geometry) (H : History) (mode : Mode) (begin : ℕ) (accesses : List Access)
        → IsFalse (has_write accesses) → clash g H mode begin accesses ≡ None }
    ensures only { (g : Geometry) (H : History) (mode : Mode) (begin : ℕ) (accesses : List Access) (c : Clash)
        → IsTrue (has_write accesses) → IsClash g H mode begin accesses c → ((d : Clash) → IsClash g H mode begin accesses d → NotAfter c d)
        → clash g H mode begin accesses ≡ Some c }
{}

/// A transaction with a write and without a clash at the last commit is isolated at the next number.
pub fn no_clash_isolates()
    ensures serial { (g : Geometry) (H : History) (c : Commit) → IsHistory g H → AreAccesses g c.accesses → H.first ≤ c.begin + 1 → c.begin ≤ last H
        → IsTrue (has_write c.accesses) → clash g H Serial c.begin c.accesses ≡ None → IsSerialAt (appended H c) (last H + 1) }
    ensures snapshot { (g : Geometry) (H : History) (c : Commit) → IsHistory g H → AreAccesses g c.accesses
        → IsTrue (has_write c.accesses) → clash g H Snapshot c.begin c.accesses ≡ None → IsSnapshotAt g (appended H c) (last H + 1) }
{}

/// A commit that is appended leaves the earlier ones isolated.
pub fn commits_stay_isolated()
    ensures serial { (H : History) (c : Commit) (k : ℕ) → 0 < H.first → H.first ≤ k → k ≤ last H
        → IfSome (slice_get H.commits (k - H.first)) (λ d. d.begin ≤ last H) → IsSerialAt H k → IsSerialAt (appended H c) k }
    ensures snapshot { (g : Geometry) (H : History) (c : Commit) (k : ℕ) → 0 < H.first → H.first ≤ k → k ≤ last H
        → IsSnapshotAt g H k → IsSnapshotAt g (appended H c) k }
    ensures all { (g : Geometry) (H : History) (c : Commit) → IsHistory g H → IsIsolated g H
        → AreAccesses g c.accesses → H.first ≤ c.begin + 1 → c.begin ≤ last H → IsTrue (has_write c.accesses)
        → clash g H c.mode c.begin c.accesses ≡ None → IsIsolated g (appended H c) }
{}

/// An empty history is one of its image, and isolated; a commit of accesses to the image keeps it one of the image; each
/// of its arrays has the image's shape.
pub fn histories_grow()
    ensures empty { (g : Geometry) → IsHistory g (empty_history g) × IsIsolated g (empty_history g) }
    ensures appended { (g : Geometry) (H : History) (c : Commit) → IsHistory g H → AreAccesses g c.accesses → IsHistory g (appended H c) }
    ensures arrays { (g : Geometry) (H : History) (n : ℕ) → IsHistory g H → HasShape g (array_at H n) }
{}

/// The puts and reads that are not refused are accesses to the array.
pub fn operations_access_the_array()
    ensures put { (g : Geometry) (block off : ℕ) (bytes : List ℕ) → block < g.blocks → 0 < length bytes → off + length bytes ≤ g.block
        → AreBytes bytes → IsAccess g (put_access g.block block off bytes) }
    ensures read { (g : Geometry) (block : ℕ) → block < g.blocks → IsAccess g (read_access block) }
{}

/// A commit with a write may be a record.
pub fn commits_make_records()
    ensures { (g : Geometry) (c : Commit) → 0 < g.block → AreAccesses g c.accesses → IsTrue (has_write c.accesses) → MayHave g c.mode
        → IsRecord g (written g c) }
{}

/// The history that an image holds is sound: the world that the image opens to is a sound one.
pub fn images_open_to_sound_worlds()
    ensures { (bytes : List ℕ) (g : Geometry) (generation : ℕ) (H : History) → AreBytes bytes → IsImage bytes g generation H
        → IsWorld (fresh g generation H) }
{}

/// An image holds one geometry, one generation and one history.
pub fn images_hold_one_history()
    ensures geometry { (bytes : List ℕ) (g f : Geometry) (m n : ℕ) (H G : History) → IsImage bytes g m H → IsImage bytes f n G → g ≡ f }
    ensures generation { (bytes : List ℕ) (g f : Geometry) (m n : ℕ) (H G : History) → IsImage bytes g m H → IsImage bytes f n G → m ≡ n }
    ensures history { (bytes : List ℕ) (g f : Geometry) (m n : ℕ) (H G : History) → IsImage bytes g m H → IsImage bytes f n G → H ≡ G }
{}

/// What an image holds is what it shows: one commit, and one array at it.
pub fn images_show_one_history()
    ensures held { (bytes : List ℕ) (g : Geometry) (form generation : ℕ) (K H : History) (p : ℕ)
        → IsImage bytes (record g { form = form }) generation K → Shows bytes g H p → (last K ≡ p) × (array_at K p ≡ array_at H p) }
    ensures one { (bytes : List ℕ) (g : Geometry) (H G : History) (p q : ℕ) → Shows bytes g H p → Shows bytes g G q
        → (p ≡ q) × (array_at H p ≡ array_at G q) }
{}
