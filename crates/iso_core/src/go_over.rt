// A core that goes over to the other half.
ghost use Rattle.std.specs.Prelude.{◌≡◌, ◌-◌};
ghost use Rattle.iso_model.specs.Step.{after_switch};
ghost use Rattle.iso_core.specs.{Kept.IsOf, Switching.MayGoOver};

use crate::kept::Kept;

/// Goes over to the other half, which has the base at the floor and is the current one now. The logs of both are at these
/// places. The records above the floor keep their bytes, so their versions move with them.
pub(crate) fn go_over(kept: &mut Kept, form: u8, old_log: u64, new_log: u64, floor: u64)
    requires { MayGoOver kept.old form old_log new_log floor }
    ensures switched { (m : MayGoOver kept.old form old_log new_log floor) → IsOf kept.new (after_switch m.world form) }
    ensures half { kept.new.half ≡ 1 - kept.old.half }
    ensures down { kept.new.down ≡ kept.old.down }
{
    let records = kept.log.last() - floor;
    let bytes = kept.index.bytes_above(floor) + 20 * records;
    let gate = old_log + u64::from(kept.log.used()) - bytes;
    kept.index.move_to(gate, new_log);
    kept.log.go_to(new_log, bytes as u32);
    kept.geometry.form = form;
    kept.half = 1 - kept.half;
    kept.generation += 1;
    kept.base = floor;
    kept.trim = floor;
}
