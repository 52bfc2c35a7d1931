// A law of halves that are filled: the function does nothing, and its contract is the law.
ghost use Rattle.std.specs.Prelude.{◌≡◌, ◌+◌, ◌-◌, ◌≤◌, ℕ};
ghost use Rattle.iso_model.specs.{declared.access.Geometry.Geometry, History.History, Premises.IsHistory};
ghost use Rattle.iso_image.specs.Half.{half_of};
ghost use Rattle.half_switch.specs.Plan.{refilled};

/// A half that is filled from the half of a history is the half of the same history at the later base.
pub fn filled_halves_tell_the_same_history()
    ensures { (g : Geometry) (at generation next b c : ℕ) (H : History) → IsHistory g H → H.first ≤ b + 1 → b ≤ c
        → refilled g next c (half_of g at generation b H) ≡ half_of g (1 - at) next c H }
{}
