// What holds of the bytes of every record: each function does nothing, and its contract is the law.
ghost use Rattle.std.specs.Prelude.{◌≡◌, ℕ, ◌<◌, ◌≤◌, List, Some, length, take};
ghost use Rattle.iso_model.specs.declared.access.Geometry.{Geometry};
ghost use Rattle.iso_format.specs.{declared.format_error.FormatError.TheVariants.Short, Records.{fault_of, record_window, recorded}};

/// A record is read from the bytes that its head asks for as from any that go on after them.
pub fn records_are_read_from_their_window()
    ensures head { (bytes : List ℕ) (n : ℕ) → 12 ≤ n → record_window (take n bytes) ≡ record_window bytes }
    ensures fault { (g : Geometry) (number : ℕ) (bytes : List ℕ) (n : ℕ) → record_window bytes ≤ n → n ≤ length bytes
        → fault_of g number (take n bytes) ≡ fault_of g number bytes }
    ensures recorded { (bytes : List ℕ) (n : ℕ) → record_window bytes ≤ n → recorded (take n bytes) ≡ recorded bytes }
{}

/// Bytes that end before that are too short.
pub fn records_are_not_read_from_less()
    ensures head { (g : Geometry) (number : ℕ) (bytes : List ℕ) → length bytes < 20 → fault_of g number bytes ≡ Some (Short 0) }
    ensures body { (g : Geometry) (number : ℕ) (bytes : List ℕ) → 20 ≤ length bytes → length bytes < record_window bytes
        → fault_of g number bytes ≡ Some (Short 8) }
{}
