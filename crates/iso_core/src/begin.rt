// The begin of a transaction.
ghost use Rattle.std.specs.Prelude.{◌≡◌, ℕ, ◌+◌, ◌&&◌, ◌==◌, IfOk, IfErr, IsErrOf, OnErr, not};
ghost use Rattle.iso_model.specs.{declared.limits.TheConstants.LAST, Geometry.same_mode, Step.{after_begin, begin_step, mode_named}, World.{World, unattached}};
ghost use Rattle.iso_model.specs.declared.core_reply.CoreReply.TheVariants as reply;
ghost use Rattle.iso_core.specs.{Calls.Refuses, Kept.{Becomes, IsOf}};

use crate::answers::Begun;
use crate::kept::Kept;
use iso_model::{CoreError, Geometry, LAST, MAX_LIVE, Mode};

/// Whether the image has no transactions of this mode.
fn is_refused(geometry: &Geometry, mode: Mode) -> bool
    ensures { result ≡ ((geometry.now.form == 1) && not (same_mode mode geometry.now.mode)) }
{
    let same = match (mode, geometry.mode) {
        (Mode::Serial, Mode::Serial) | (Mode::Snapshot, Mode::Snapshot) => true,
        _ => false,
    };
    geometry.form == 1 && !same
}

/// Begins a transaction, while the core is up.
pub(crate) fn begin(kept: &mut Kept, mode: Option<Mode>) -> Result<Begun, CoreError>
    requires { (W : World) × IsOf kept.old W }
    ensures begun { (W : World) → IsOf kept.old W → IfOk result (λ b. (b.tx ≡ W.next) × (b.mode ≡ mode_named W mode)
        × ((begin_step W unattached (mode_named W mode)).0 ≡ reply.Began b.at) × Becomes kept.old kept.new (after_begin W unattached (mode_named W mode))) }
    ensures refused { (W : World) → IsOf kept.old W → IfErr result (Refuses (begin_step W unattached (mode_named W mode)).0) }
    ensures last { (at : ℕ) → IsErrOf result (CoreError.Worn at) → at ≡ LAST }
    ensures kept { OnErr result (kept.new ≡ kept.old) }
{
    let mode = mode.unwrap_or(kept.geometry.mode);
    if is_refused(&kept.geometry, mode) {
        return Err(CoreError::ModeFixed);
    }
    if kept.live.len() as usize >= MAX_LIVE {
        return Err(CoreError::TooManyTx);
    }
    if kept.next > LAST {
        return Err(CoreError::Worn { at: LAST });
    }
    let tx = kept.next;
    let at = kept.log.last();
    if let Err(_) = kept.live.enter(tx, at, mode) {
        return Err(CoreError::Memory);
    }
    kept.next = tx + 1;
    Ok(Begun { tx, at, mode })
}
