// A call on a session's transaction over blocks, in one step.
ghost use Rattle.std.specs.Prelude.{◌≡◌, ◌≢◌, IfSome, IsTrue, None, Some};
ghost use Rattle.iso_model.specs.Geometry.{is_valid};
ghost use Rattle.handle_pass.specs.{Accesses.tx_on, Visits.base_in};
ghost use Rattle.device_calls.specs.Visits.{HasCalled};

use crate::blocks_call::BlocksCall;
use handle_pass::{Left, Session, Visit};
use iso_disk::Disk;
use iso_shared::Origin;
use std::marker::Brand;
use std::sync::Wait;

// The session that was lent is handed back.
fn visit<'s, 'a, D: Disk + Drop, O: Origin, R: Wait, V: Visit, C: BlocksCall>(
    rt: &'s R,
    session: &'s mut Session<'a, D, O>,
    call: C,
    answer: &mut Option<C::Answer>,
) -> &'s mut Session<'a, D, O>
    requires valid { IsTrue (is_valid O.start.world.geometry) }
    requires name { session.ghost_name ≡ V.name }
    requires before { V.before ≡ Some session.old }
    requires fits { C.fits call (tx_on O.start session.old (base_in O.start session.old)) }
    ensures name { result.ghost_name ≡ session.entry.ghost_name }
    ensures some { answer.new ≢ None }
    ensures did { IfSome answer.new (λ x. HasCalled O.start session.old result.now (λ t u before now. C.says call t u before now x)) }
{
    let mut blocks = session.blocks::<R, V>(rt);
    let called = call.make(&mut blocks);
    let Left {
        session,
        failures: _,
        is_down: _,
    } = blocks.leave();
    *answer = Some(called);
    session
}

/// Makes a call on the transaction of a session, as stores see it. Where there is no transaction, each access is refused as such.
pub fn on_blocks<'a, D: Disk + Drop, O: Origin, R: Wait, C: BlocksCall>(
    rt: &R,
    session: &mut Session<'a, D, O>,
    call: C,
) -> C::Answer
    requires valid { IsTrue (is_valid O.start.world.geometry) }
    requires fits { C.fits call (tx_on O.start session.old (base_in O.start session.old)) }
    ensures did { HasCalled O.start session.old session.new (λ t u before now. C.says call t u before now result) }
{
    let mut answer = None;
    let _session = visit::<D, O, R, Brand, C>(rt, session, call, &mut answer);
    match answer {
        Some(answer) => answer,
        None => unreachable!(),
    }
}
