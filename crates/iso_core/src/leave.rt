// The end of a transaction without a commit.
ghost use Rattle.iso_model.specs.Step.{after_leaving};
ghost use Rattle.iso_core.specs.{Calls.HasLive, Kept.Becomes};

use crate::kept::Kept;

/// Takes a live transaction out. It takes no memory.
pub(crate) fn leave(kept: &mut Kept, tx: u64)
    requires { HasLive kept.old tx }
    ensures { (l : HasLive kept.old tx) → Becomes kept.old kept.new (after_leaving l.world l.t) }
{
    kept.live.leave(tx);
}
