// The laws of the definitions: each function does nothing, and its contract is the law.
ghost use Rattle.std.specs.Prelude.{◌≡◌, ℕ, ◌≤◌, IsTrue, List};
ghost use Rattle.iso_model.specs.{declared.access.Geometry.Geometry, declared.access.Mode.TheVariants.Serial, declared.limits.TheConstants.LAST, Conflict.IsSerialAt, Geometry.is_valid, History.last, World.{empty_history, fresh, World}, Worlds.{IsWorld, LeadsTo}};
ghost use Rattle.script_model.specs.{declared.script.Line.Line, declared.script.Op.Op, Script.{after, script}, Step.step, Operations.{AreLines, IsOp}};

/// Each step of a sound world, and so each script, keeps the geometry but for the form, extends the history and leads to a
/// sound world, in which every commit is isolated.
pub fn worlds_stay_sound()
    ensures made { (g : Geometry) (generation : ℕ) → IsTrue (is_valid g) → generation ≤ LAST → IsWorld (fresh g generation (empty_history g)) }
    ensures step { (W : World) (client : ℕ) (op : Op) → IsWorld W → IsOp op → LeadsTo W (step W client op).1 }
    ensures lines { (W : World) (lines : List (ℕ × Line)) → IsWorld W → AreLines lines → LeadsTo W (after W lines) }
    ensures script { (input : List ℕ) → AreLines (script input).lines }
    ensures serial { (W : World) (k : ℕ) → IsWorld W → W.geometry.form ≡ 1 → W.geometry.mode ≡ Serial
        → W.history.first ≤ k → k ≤ last W.history → IsSerialAt W.history k }
{}
