// Accounts on a device from its first entry to its last.
ghost use Rattle.std.specs.Prelude.{◌≡◌, ◌≤◌, length, IfErr, IfOk};
ghost use Rattle.iso_core.specs.declared.group_end.TheConstants.{MAX_GROUP};
ghost use Rattle.iso_shared.specs.Ports.{IsPort, first_geometry, port_view};
ghost use Rattle.turn_lock.specs.Views.{fresh};
ghost use Rattle.accounts.specs.{Ends.{StartsOn, SumStays}, Jobs.{HasEndedGift, HasGiven, IsEnder, IsMover, planned}, Kept.{HasStore, IsKeptPort, KeepsOn, MayBegin, MayGive}};

use crate::account::{AccountError, Plan, Report, Work};
use crate::amounts::Place;
use crate::gathered::{gather, session_on};
use crate::half::Half;
use crate::jobs::run_both;
use crate::learning::{given_of, learn};
use crate::sessions::commit;
use crate::tellers::{Ender, Giver, Mover};
use group_commit::Ended;
use handle_pass::Session;
use iso_core::Core;
use iso_disk::Disk;
use iso_model::{CoreError, LAST, Memory};
use iso_shared::{Origin, Port, Shared, Tx};
use std::alloc::Global;
use std::sync::Wait;
use std::thread::Threads;
use store_model::Region;

/// What one thread has given away for another one.
struct Gift<D: Disk + Drop, O: Origin> {
    members: Vec<Option<Tx<D, O>>>,
    half: Option<Half<D, O>>,
}

// One thread makes transactions that are given away, while another one makes transfers of its own.
fn give_beside<'a, D: Disk + Drop + Send, O: Origin + Send + Sync, R: Threads + Wait + Sync>(
    rt: &R,
    alloc: Global,
    region: Region,
    plan: Plan<'a>,
    first: Session<'a, D, O>,
    second: Session<'a, D, O>,
) -> (Session<'a, D, O>, Session<'a, D, O>, Gift<D, O>, u32)
    requires first { MayGive (planned plan) O.start region first × (length plan.handed.now ≤ MAX_GROUP) }
    requires second { MayBegin (planned plan) O.start region second }
    ensures first { HasGiven O.start (planned plan.entry) first.entry result.0 result.2.members.items result.2.half }
    ensures second { KeepsOn (planned plan.entry) O.start second.entry result.1 }
{
    let mut giver = Giver {
        alloc,
        region,
        plan,
        session: first,
    };
    let mut mover = Mover {
        alloc,
        region,
        plan,
        transfers: plan.second,
        session: second,
    };
    let ((members, half), done) = run_both(rt, &mut giver, &mut mover);
    let Giver {
        alloc: _,
        region: _,
        plan: _,
        session: first,
    } = giver;
    let Mover {
        alloc: _,
        region: _,
        plan: _,
        transfers: _,
        session: second,
    } = mover;
    (first, second, Gift { members, half }, done)
}

/// How a gift was ended.
struct Outcome<D: Disk + Drop, O: Origin> {
    halved: Result<u64, AccountError>,
    group: Result<Vec<Ended<D, O>>, CoreError>,
}

// The other thread ends what was given to it, by its session and by a port, while the first one makes transfers of its own.
fn end_beside<'a, D: Disk + Drop + Send, O: Origin + Send + Sync, R: Threads + Wait + Sync>(
    rt: &R,
    mover: Mover<'a, D, O>,
    ender: Ender<'a, D, O>,
) -> (
    Session<'a, D, O>,
    Session<'a, D, O>,
    Port<D, O>,
    u32,
    Outcome<D, O>,
)
    requires mover { IsMover O.start mover }
    requires ender { IsEnder O.start ender }
    ensures moved { KeepsOn (planned mover.entry.plan) O.start mover.entry.session result.0 }
    ensures ended { HasEndedGift O.start ender.entry result.1 result.2 result.4.group }
{
    let (mut mover, mut ender) = (mover, ender);
    let (done, (halved, group)) = run_both(rt, &mut mover, &mut ender);
    let Mover {
        alloc: _,
        region: _,
        plan: _,
        transfers: _,
        session: first,
    } = mover;
    let Ender {
        alloc: _,
        region: _,
        plan: _,
        session: second,
        half,
        shared: _,
        port,
        members,
    } = ender;
    if let Some(_) = half {
        unreachable!()
    }
    if let Some(_) = members {
        unreachable!()
    }
    (first, second, port, done, Outcome { halved, group })
}

// All of it, over two sessions and the first port of a device, which has all units again at the end.
fn run_on<'a, D: Disk + Drop + Send, O: Origin + Send + Sync, R: Threads + Wait + Sync>(
    rt: &R,
    alloc: Global,
    shared: &'a Shared<D, O>,
    port: Port<D, O>,
    region: Region,
    plan: Plan<'a>,
) -> (Report, Port<D, O>)
    requires port { IsPort shared.now port × (port_view port ≡ fresh) }
    requires image { first_geometry shared.now ≡ O.start.world.geometry }
    requires store { HasStore O.start region }
    requires few { length plan.handed.now ≤ MAX_GROUP }
    ensures port { IsKeptPort shared.now (planned plan.entry) O.start result.1 }
    ensures units { (port_view result.1).units ≡ LAST }
{
    let mut port = port;
    let mut first = session_on(shared, &mut port, plan.accounts);
    let second = session_on(shared, &mut port, plan.accounts);
    let opened = commit(rt, alloc, &mut first, region, plan.accounts, Work::Open, 1);
    let (first, second, gift, done) = give_beside(rt, alloc, region, plan, first, second);
    let Gift { members, half } = gift;
    let given = given_of(alloc, plan.handed, members.as_slice());
    let mover = Mover {
        alloc,
        region,
        plan,
        transfers: plan.first,
        session: first,
    };
    let ender = Ender {
        alloc,
        region,
        plan,
        session: second,
        half,
        shared,
        port,
        members: Some(members),
    };
    let (mut first, second, mut port, other, outcome) = end_beside(rt, mover, ender);
    let Outcome { halved, group } = outcome;
    let place = Place { alloc, region };
    let group = learn(rt, place, shared, &mut first, &plan, given, group);
    gather(rt, shared, &mut port, first, plan.accounts);
    gather(rt, shared, &mut port, second, plan.accounts);
    let report = Report {
        opened,
        first: other,
        second: done,
        halved,
        group,
    };
    (report, port)
}

/// Opens accounts on a device over a core, has two threads move amounts between them, and gives the core back. The thread that gives
/// transactions away learns how each of them has ended. If the disk tells its bytes, the stores are well formed, and the hash store has no
/// account or these with their sum, then the sum is the same after every commit once they are open, and every image that a crash might have
/// left since the core was handed in has that sum or no account. Without memory nothing is run.
///
/// # Errors
///
/// Want of memory for the device. The core is as it was.
pub fn run_accounts<D: Disk + Drop + Send, O: Origin + Send + Sync, R: Threads + Wait + Sync>(
    rt: &R,
    alloc: Global,
    core: Core<D>,
    plan: &Plan,
) -> Result<(Report, Core<D>), (Memory, Core<D>)>
    requires start { StartsOn D.state O.start O.disk core }
    requires few { length plan.now.handed.now ≤ MAX_GROUP }
    ensures run { IfOk result (λ r. SumStays D.state O.start O.disk (planned plan.now) r.1) }
    ensures unrun { IfErr result (λ e. e.1 ≡ core) }
{
    match Shared::<D, O>::new(alloc, core) {
        Err((memory, core)) => Err((memory, core)),
        Ok((shared, port)) => {
            let region = Region {
                start: 0,
                size: shared.geometry().hash,
            };
            let (report, port) = run_on(rt, alloc, &shared, port, region, *plan);
            let core = shared.close(port);
            Ok((report, core))
        }
    }
}
