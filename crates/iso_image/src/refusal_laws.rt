// The laws of refusals: each function does nothing, and its contract is the law.
ghost use Rattle.std.specs.Prelude.{◌≡◌, ◌≢◌, ◌↔◌, ℕ, ◌+◌, ◌≤◌, List, [], ◌∷◌, Some, None, length, drop, slice_index};
ghost use Rattle.iso_model.specs.{declared.access.Geometry.Geometry, History.History, Image.IsImage, Premises.AreBytes};
ghost use Rattle.iso_format.specs.{declared.format_error.FormatError.FormatError, Records.fault_of};
ghost use Rattle.iso_image.specs.Refusal.{damaged, log_refusal, opened, record_bytes, refusal, told_by, told_first};

/// Bytes are refused exactly where they are an image of no history, and else they open to the one that they hold.
pub fn refused_where_there_is_no_history()
    ensures opened { (bytes : List ℕ) (g : Geometry) (generation : ℕ) (H : History) → AreBytes bytes
        → (opened bytes ≡ Some (record { geometry = g; generation = generation; history = H })) ↔ IsImage bytes g generation H }
    ensures refused { (bytes : List ℕ) → AreBytes bytes
        → (refusal bytes ≡ None) ↔ ((g : Geometry) × (generation : ℕ) × (H : History) × IsImage bytes g generation H) }
{}

/// A log is tested and told record by record, up to the first closed gate; a bound on the records that is not below the
/// log's length cuts nothing off.
pub fn logs_are_told_record_by_record()
    ensures closed { (g : Geometry) (place n most : ℕ) (log : List ℕ) → slice_index log 0 ≢ 1
        → (log_refusal g place n most log ≡ None) × (told_by g most log ≡ []) }
    ensures failed { (g : Geometry) (place n most : ℕ) (log : List ℕ) (fault : FormatError) → slice_index log 0 ≡ 1 → length log ≤ most
        → fault_of g n log ≡ Some fault → log_refusal g place n most log ≡ Some (damaged place fault) }
    ensures passed { (g : Geometry) (place n most : ℕ) (log : List ℕ) → slice_index log 0 ≡ 1 → length log ≤ most → fault_of g n log ≡ None
        → log_refusal g place n most log ≡ log_refusal g (place + record_bytes log) (n + 1) most (drop (record_bytes log) log) }
    ensures told { (g : Geometry) (most : ℕ) (log : List ℕ) → slice_index log 0 ≡ 1 → length log ≤ most
        → told_by g most log ≡ told_first g log ∷ told_by g most (drop (record_bytes log) log) }
{}
