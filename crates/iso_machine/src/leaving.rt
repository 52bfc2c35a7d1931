// Transactions that leave a core.
ghost use Rattle.std.specs.Prelude.{◌≡◌, []};
ghost use Rattle.iso_model.specs.{Step.with_live, World.World};
ghost use Rattle.iso_core.specs.{Core.{StandsFor, disk_of}, Standing.up};
ghost use Rattle.iso_machine.specs.Standing.{AreOf};

use crate::attached::Attached;
use crate::finder::Finder;
use iso_core::Core;
use iso_disk::Disk;

/// Aborts these transactions, which are all live ones.
pub(crate) fn abort_all<D: Disk>(core: &mut Core<D>, finder: &Finder, live: &[Attached])
    requires { (W : World) × AreOf D.state core.old finder.now live.now W }
    ensures stands { (W : World) → AreOf D.state core.old finder.now live.now W → StandsFor D.state core.new (with_live W []) up }
    ensures disk { disk_of core.new ≡ disk_of core.old }
{
    let mut rest = live;
    while let Some((first, others)) = rest.split_first() {
        core.abort(first.tx);
        rest = others;
    }
}
