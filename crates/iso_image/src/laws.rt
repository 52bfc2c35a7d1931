// The laws of images whose bytes change: each function does nothing, and its contract is the law.
ghost use Rattle.std.specs.{Prelude.{◌≡◌, ◌⊎◌, ℕ, ◌+◌, ◌-◌, ◌<◌, ◌≤◌, List, [], ◌∷◌, ◌++◌, IsTrue, Some, length, take, drop}, List.AllByRecursion};
ghost use Rattle.iso_model.specs.{declared.access.Geometry.Geometry, declared.limits.TheConstants.LAST, Geometry.{header_place, is_valid, log_place}, History.{History, last}, Premises.IsHistory, Step.after_commit, World.{World, Live, empty_history, fresh, used}, Image.{IsImage, IsRecord, Shows, Written, current_half, generation_at, kind_of, records, spell, written}};
ghost use Rattle.iso_disk.specs.Disk.{Torn, spliced};
ghost use Rattle.commit_gate.specs.Gate.{IsClosed, IsOpen};
ghost use Rattle.iso_image.specs.{Changes.{Appending, InHalf, MaySwitch}, Half.{AreOne, Half, IsFilled, IsHeld, MayFollow, empty_image, half_of, half_of_world, history_of, in_form, last_told, next_gate, told_bytes, with_records}};

/// Where a half that is held lies: its gate is open and its log lies in the image, each record after those before it,
/// and after the last one a closed gate.
pub fn held_halves_stand_in_the_image()
    ensures at { (g : Geometry) (x : Half) (bytes : List ℕ) → IsHeld g x bytes → x.at ≤ 1 }
    ensures header { (g : Geometry) (x : Half) (bytes : List ℕ) → IsHeld g x bytes → IsOpen (header_place g x.at) bytes }
    ensures log { (g : Geometry) (x : Half) (bytes : List ℕ) → IsHeld g x bytes → log_place g x.at + g.log ≤ length bytes }
    ensures room { (g : Geometry) (x : Half) (bytes : List ℕ) → IsHeld g x bytes → length (told_bytes g x) < g.log }
    ensures gate { (g : Geometry) (x : Half) (bytes : List ℕ) → IsHeld g x bytes → IsClosed (next_gate g x) bytes }
    ensures records { (g : Geometry) (x : Half) (bytes : List ℕ) → IsHeld g x bytes → AllByRecursion (IsRecord g) x.told }
    ensures last { (g : Geometry) (x : Half) (bytes : List ℕ) → IsHeld g x bytes → last_told x ≤ LAST }
    ensures record_at { (g : Geometry) (x : Half) (before : List Written) (w : Written) (after : List Written) (bytes : List ℕ) → IsHeld g x bytes
        → x.told ≡ before ++ w ∷ after
        → take (length (spell 1 (kind_of g w.mode) (x.base + 1 + length before) w.parts)) (drop (log_place g x.at + length (records g (x.base + 1) before)) bytes)
        ≡ spell 1 (kind_of g w.mode) (x.base + 1 + length before) w.parts }
{}

/// Bytes after the gate of the next record may change. As long as that gate is closed they say nothing; once it is open
/// over whole records, those are told. So records that are appended are all there or none.
pub fn records_are_told_once_their_gate_opens()
    ensures behind { (g : Geometry) (x : Half) (from count : ℕ) (old new : List ℕ) → IsHeld g x old → next_gate g x < from
        → from + count ≤ log_place g x.at + g.log → Torn from count old new → IsHeld g x new }
    ensures moments { (g : Geometry) (x : Half) (more : List Written) (bytes old new : List ℕ) → MayFollow g x more
        → bytes ≡ records g (last_told x + 1) more ++ 0 ∷ [] → IsHeld g x old → Appending (next_gate g x) bytes old new
        → IsHeld g x new ⊎ IsHeld g (with_records more x) new }
    ensures whole { (g : Geometry) (x : Half) (more : List Written) (bytes old new : List ℕ) → MayFollow g x more
        → bytes ≡ records g (last_told x + 1) more ++ 0 ∷ [] → IsHeld g x old → new ≡ spliced old (next_gate g x) bytes
        → IsHeld g (with_records more x) new }
    ensures opened { (g : Geometry) (x : Half) (more : List Written) (body old new : List ℕ) → MayFollow g x more
        → 1 ∷ body ≡ records g (last_told x + 1) more ++ 0 ∷ [] → IsHeld g x old → take (length body) (drop (next_gate g x + 1) old) ≡ body
        → Torn (next_gate g x) 1 old new → IsOpen (next_gate g x) new → IsHeld g (with_records more x) new }
{}

/// What is appended is written after a closed gate, and then the gate: at each moment the gate is closed, or all is there.
pub fn appended_bytes_are_whole_or_closed()
    ensures body { (gate b : ℕ) (body old new : List ℕ) → IsClosed gate old → Torn (gate + 1) (length body) old new
        → Appending gate (b ∷ body) old new }
    ensures gate { (gate : ℕ) (body old mid new : List ℕ) → gate + 1 + length body ≤ length old → Torn (gate + 1) (length body) old mid
        → take (length body) (drop (gate + 1) mid) ≡ body → Torn gate 1 mid new → Appending gate (1 ∷ body) old new }
{}

/// Bytes that change in the other half leave what the image holds, as long as the current half stays the current one: the
/// other gate is closed, or the other generation is lower. So does an open gate that is shut, at each moment.
pub fn the_other_half_is_free()
    ensures current { (g : Geometry) (x : Half) (other : ℕ) (old new : List ℕ) → x.at + other ≡ 1 → IsHeld g x old → InHalf g other old new
        → current_half g new ≡ Some x.at → IsHeld g x new }
    ensures closed { (g : Geometry) (x : Half) (other : ℕ) (old new : List ℕ) → x.at + other ≡ 1 → IsHeld g x old → InHalf g other old new
        → IsClosed (header_place g other) new → IsHeld g x new }
    ensures older { (g : Geometry) (x : Half) (other : ℕ) (old new : List ℕ) → x.at + other ≡ 1 → IsHeld g x old → InHalf g other old new
        → generation_at new (header_place g other) < x.generation → IsHeld g x new }
    ensures shut { (g : Geometry) (x : Half) (other : ℕ) (old new : List ℕ) → x.at + other ≡ 1 → IsHeld g x old
        → IsOpen (header_place g other) old → Torn (header_place g other) 1 old new → IsHeld g x new }
{}

/// The gate of a half that was filled, with a higher generation, switches to it.
pub fn an_open_gate_switches_halves()
    ensures moments { (g : Geometry) (form : ℕ) (x y : Half) (old new : List ℕ) → MaySwitch g form x y → IsHeld g x old → IsFilled (in_form form g) y old
        → Torn (header_place g y.at) 1 old new → IsHeld g x new ⊎ IsHeld (in_form form g) y new }
    ensures opened { (g : Geometry) (form : ℕ) (x y : Half) (old new : List ℕ) → MaySwitch g form x y → IsHeld g x old → IsFilled (in_form form g) y old
        → Torn (header_place g y.at) 1 old new → IsOpen (header_place g y.at) new → IsHeld (in_form form g) y new }
{}

/// An image that holds the half of a history, in whatever form, shows that history up to its last commit.
pub fn held_halves_show_the_history()
    ensures { (g : Geometry) (form at generation b : ℕ) (H : History) (bytes : List ℕ) → IsHistory g H → H.first ≤ b + 1 → b ≤ last H
        → IsHeld (in_form form g) (half_of g at generation b H) bytes → Shows bytes g H (last H) }
{}

/// A new image holds the empty history in its first half.
pub fn a_new_image_holds_the_empty_history()
    ensures { (g : Geometry) → IsTrue (is_valid g) → g.form ≡ 1 → IsHeld g (half_of g 0 1 0 (empty_history g)) (empty_image g) }
{}

/// An image holds one half, which is that of the world that it opens to.
pub fn images_hold_one_half()
    ensures one { (g f : Geometry) (x y : Half) (bytes : List ℕ) → IsHeld g x bytes → IsHeld f y bytes → AreOne g f x y }
    ensures image { (g : Geometry) (x : Half) (bytes : List ℕ) → IsHeld g x bytes → IsImage bytes g x.generation (history_of g x) }
    ensures opened { (bytes : List ℕ) (g : Geometry) (generation : ℕ) (H : History) → (image : IsImage bytes g generation H)
        → IsHeld g (half_of_world (fresh g generation H) image.half) bytes }
{}

/// The half of a world takes the bytes that the world uses, and a commit adds its record; with a later base the last records
/// stay. None of it hangs on the form.
pub fn halves_follow_the_world()
    ensures used { (W : World) (at : ℕ) → length (told_bytes W.geometry (half_of_world W at)) ≡ used W }
    ensures commit { (W : World) (t : Live) (at : ℕ) → W.history.first ≤ W.base + 1 → W.base ≤ last W.history → 0 < W.history.first
        → half_of_world (after_commit W t) at
        ≡ with_records (written W.geometry (record { begin = t.begin; mode = t.mode; accesses = t.accesses }) ∷ []) (half_of_world W at) }
    ensures later { (g : Geometry) (at generation next b c : ℕ) (H : History) → H.first ≤ b + 1 → b ≤ c
        → (half_of g at next c H).told ≡ drop (c - b) (half_of g at generation b H).told }
    ensures form { (g : Geometry) (form at generation b : ℕ) (H : History) → half_of (in_form form g) at generation b H ≡ half_of g at generation b H }
    ensures spelled { (g : Geometry) (form n : ℕ) (told : List Written) → records (in_form form g) n told ≡ records g n told }
{}
