// The laws of single steps: each function does nothing, and its contract is the law.
ghost use Rattle.std.specs.Prelude.{◌≡◌, ℕ, ◌≤◌, List, IsSome, length};
ghost use Rattle.iso_model.specs.{declared.limits.TheConstants.MAX_INPUT, Step.shown_to, World.{Live, World}};
ghost use Rattle.script_model.specs.{declared.script.Op.Op, Script.script, Step.step, Operations.IsUpkeep};

/// An input that is cut has a bad line.
pub fn cut_inputs_are_bad()
    ensures { (input : List ℕ) → MAX_INPUT ≤ length input → IsSome (script input).bad }
{}

/// Trimming, numbers, compaction and an upgrade leave the commits and the transactions, and so all that they are shown.
pub fn upkeep_changes_nothing_that_is_shown()
    ensures live { (W : World) (client : ℕ) (op : Op) → IsUpkeep op → (step W client op).1.live ≡ W.live }
    ensures history { (W : World) (client : ℕ) (op : Op) → IsUpkeep op → (step W client op).1.history ≡ W.history }
    ensures shown { (W : World) (client : ℕ) (op : Op) (t : Live) (block : ℕ) → IsUpkeep op
        → shown_to (step W client op).1 t block ≡ shown_to W t block }
{}
