// Sessions over a device in memory, in two threads and in one. The image has four blocks of 64 bytes and logs of 4,096 bytes.
ghost use Rattle.std.specs.Prelude.{◌≡◌, ◌+◌, ◌<◌, None, Some, IfSome, IsTrue};
ghost use denote.Param.Send.{IsSync};
ghost use Rattle.iso_memdisk.specs.MemDisk.{state_of};
ghost use Rattle.iso_model.specs.Geometry.{is_valid};
ghost use Rattle.iso_shared.specs.{Ports.{IsPort, first_geometry, port_view}, TestImage.{small, MayStart}};

use crate::same::same;
use crate::small_image::new_core;
use device_calls::end_now;
use handle_pass::{Handle, Left, PostTxError, Session, Visit};
use iso_core::{Core, Stat};
use iso_memdisk::MemDisk;
use iso_model::{EndReply, InTx, Label, NotInTx};
use iso_shared::{Origin, Port, Shared};
use std::alloc::Global;
use std::marker::Brand;
use std::sync::Wait;
use std::test::Fail;
use std::thread::{Threads, join_mut};
use test_cores::with_long_logs;
use tx_blocks::TxBlocks;

/// A transaction that has written a block.
fn written<O: Origin, R: Wait>(
    rt: &R,
    session: &mut Session<MemDisk, O>,
) -> Option<Handle<MemDisk, O>>
    requires units { 1 < session.old.units }
    requires image { O.start.world.geometry ≡ small }
    ensures device { session.new.device ≡ session.old.device }
    ensures handle { IfSome result (λ h. h.device ≡ session.old.device) }
{
    session.begin_tx(rt, None).ok()?;
    session.write_block(1, &[7; 64]).ok()?;
    session.release_tx().ok()
}

/// What the transaction of a handle shows of the block, and how it ends.
fn committed<O: Origin, R: Wait>(
    rt: &R,
    session: &mut Session<MemDisk, O>,
    handle: Handle<MemDisk, O>,
) -> Option<(u8, EndReply)>
    requires none { session.old.own ≡ None }
    requires handle { handle.device ≡ session.old.device }
    requires image { O.start.world.geometry ≡ small }
    ensures device { session.new.device ≡ session.old.device }
{
    if let Err(_) = session.takeover_tx(handle) {
        unreachable!()
    }
    let mut bytes = [0; 64];
    session.read_block(rt, 1, &mut bytes).ok()?;
    let reply = end_now(rt, session).ok()?;
    Some((bytes[0], reply))
}

/// `committed` with the handle that lies in this place, which is empty then.
fn committed_from<O: Origin, R: Wait>(
    rt: &R,
    session: &mut Session<MemDisk, O>,
    place: &mut Option<Handle<MemDisk, O>>,
) -> Option<(u8, EndReply)>
    requires none { session.old.own ≡ None }
    requires handle { IfSome place.old (λ h. h.device ≡ session.old.device) }
    requires image { O.start.world.geometry ≡ small }
    ensures device { session.new.device ≡ session.old.device }
    ensures place { place.new ≡ None }
{
    match place.take() {
        None => None,
        Some(handle) => committed(rt, session, handle),
    }
}

/// A transaction is begun and written in one thread; then another thread takes it over and commits it. Beside them the other
/// session reads the numbers of the image.
fn across<O: Origin + Send + Sync, R: Threads + Wait + Sync>(
    rt: &R,
    first: &mut Session<MemDisk, O>,
    second: &mut Session<MemDisk, O>,
) -> Option<(u8, EndReply)>
    requires first { 1 < first.old.units }
    requires second { second.old.own ≡ None }
    requires one { second.old.device ≡ first.old.device }
    requires image { O.start.world.geometry ≡ small }
    ensures first { first.new.device ≡ first.old.device }
    ensures second { second.new.device ≡ second.old.device }
{
    let (handle, _) = join_mut(
        rt,
        &mut || -> Option<Handle<MemDisk, O>>
            requires { IsSync R.row × (1 < first.now.units) × (O.start.world.geometry ≡ small) }
            ensures { (first.exit.now.device ≡ first.entry.now.device) × IfSome result (λ h. h.device ≡ first.entry.now.device) }
        { written(rt, first) },
        &mut || -> Stat
            requires { IsSync R.row }
            ensures { (second.exit.now.device ≡ second.entry.now.device) × (second.exit.now.own ≡ second.entry.now.own) }
        { second.stat(rt) },
    );
    let mut place = Some(handle?);
    let (_, seen) = join_mut(
        rt,
        &mut || -> Stat
            requires { IsSync R.row }
            ensures { first.exit.now.device ≡ first.entry.now.device }
        { first.stat(rt) },
        &mut || -> Option<(u8, EndReply)>
            requires { IsSync R.row × (second.now.own ≡ None) × IfSome place (λ h. h.device ≡ second.now.device) × (O.start.world.geometry ≡ small) }
            ensures { (second.exit.now.device ≡ second.entry.now.device) × (place.exit ≡ None) }
        { committed_from(rt, second, &mut place) },
    );
    if let Some(_) = place {
        unreachable!()
    }
    seen
}

/// `across` with two sessions of a device.
fn handed_over<O: Origin + Send + Sync, R: Threads + Wait + Sync>(
    rt: &R,
    shared: &Shared<MemDisk, O>,
    port: &mut Port<MemDisk, O>,
) -> Option<(u8, EndReply)>
    requires port { IsPort shared.now port.old × (128 < (port_view port.old).units) }
    requires image { (first_geometry shared.now ≡ O.start.world.geometry) × (O.start.world.geometry ≡ small) }
    ensures port { IsPort shared.now port.new × ((port_view port.new).units + 128 ≡ (port_view port.old).units) }
{
    let mut first = Session::new(shared, shared.port(port, 64));
    let mut second = Session::new(shared, shared.port(port, 64));
    let seen = across(rt, &mut first, &mut second);
    let _ = first.finish(rt);
    let _ = second.finish(rt);
    seen
}

/// A session in a transaction hands a handle back, which the session that released it then takes.
fn passed_back<O: Origin, R: Wait>(
    rt: &R,
    first: &mut Session<MemDisk, O>,
    second: &mut Session<MemDisk, O>,
) -> Option<bool>
    requires first { (first.old.own ≡ None) × (1 < first.old.units) }
    requires second { (second.old.own ≡ None) × (1 < second.old.units) }
    requires one { second.old.device ≡ first.old.device }
    ensures first { first.new.device ≡ first.old.device }
    ensures second { second.new.device ≡ second.old.device }
{
    second.begin_tx(rt, None).ok()?;
    first.begin_tx(rt, None).ok()?;
    let handle = first.release_tx().ok()?;
    match second.takeover_tx(handle) {
        Err((InTx, handle)) => match first.takeover_tx(handle) {
            Ok(_) => Some(true),
            Err(_) => unreachable!(),
        },
        Ok(_) => unreachable!(),
    }
}

/// A label that is held is taken; the transaction stays. Then the first session has none to release.
fn label_taken<O: Origin, R: Wait>(
    rt: &R,
    first: &mut Session<MemDisk, O>,
    second: &mut Session<MemDisk, O>,
) -> Option<(bool, bool, u64)>
    ensures first { first.new.device ≡ first.old.device }
    ensures second { second.new.device ≡ second.old.device }
{
    first.post_tx(rt, Label::new(b"moved")?).ok()?;
    let refused = matches!(
        second.post_tx(rt, Label::new(b"moved")?),
        Err(PostTxError::LabelTaken)
    );
    let none = match first.release_tx() {
        Err(NotInTx) => true,
        Ok(handle) => match first.takeover_tx(handle) {
            Ok(_) => false,
            Err(_) => unreachable!(),
        },
    };
    Some((refused, none, first.stat(rt).live.into()))
}

/// Both with two sessions of a device.
fn refused<O: Origin, R: Wait>(
    rt: &R,
    shared: &Shared<MemDisk, O>,
    port: &mut Port<MemDisk, O>,
) -> Option<(bool, bool, u64)>
    requires port { IsPort shared.now port.old × (128 < (port_view port.old).units) }
    requires image { first_geometry shared.now ≡ O.start.world.geometry }
    ensures port { IsPort shared.now port.new × ((port_view port.new).units + 128 ≡ (port_view port.old).units) }
{
    let mut first = Session::new(shared, shared.port(port, 64));
    let mut second = Session::new(shared, shared.port(port, 64));
    let said = match passed_back(rt, &mut first, &mut second) {
        Some(true) => label_taken(rt, &mut first, &mut second),
        _ => None,
    };
    let _ = first.finish(rt);
    let _ = second.finish(rt);
    said
}

/// Writes a block through the transaction as stores see it, and reads it and another one.
fn through<'s, 'a, O: Origin, R: Wait, V: Visit>(
    rt: &'s R,
    session: &'s mut Session<'a, MemDisk, O>,
    shown: &mut (u8, u8),
) -> &'s mut Session<'a, MemDisk, O>
    requires image { O.start.world.geometry ≡ small }
    requires valid { IsTrue (is_valid O.start.world.geometry) }
    requires name { session.ghost_name ≡ V.name }
    requires before { V.before ≡ Some session.old }
    ensures name { result.ghost_name ≡ session.entry.ghost_name }
    ensures device { result.now.device ≡ session.old.device }
{
    let mut blocks = session.blocks::<R, V>(rt);
    let mut own = [0; 64];
    let mut other = [1; 64];
    let _ = blocks.write_block(2, &[5; 64]);
    let _ = blocks.read_block(2, &mut own);
    let _ = blocks.read_block(3, &mut other);
    *shown = (own[0], other[0]);
    let Left {
        session,
        failures: _,
        is_down: _,
    } = blocks.leave();
    session
}

/// The same in a new transaction of a session, which then stands as before.
fn shown_through<'s, 'a, O: Origin, R: Wait>(
    rt: &'s R,
    session: &'s mut Session<'a, MemDisk, O>,
) -> Option<(u8, u8)>
    requires units { 1 < session.old.units }
    requires image { O.start.world.geometry ≡ small }
    requires valid { IsTrue (is_valid O.start.world.geometry) }
{
    session.begin_tx(rt, None).ok()?;
    let mut shown = (0, 0);
    let _session = through::<O, R, Brand>(rt, session, &mut shown);
    Some(shown)
}

/// The same with a session of a device.
fn shown<O: Origin, R: Wait>(
    rt: &R,
    shared: &Shared<MemDisk, O>,
    port: &mut Port<MemDisk, O>,
) -> Option<(u8, u8)>
    requires port { IsPort shared.now port.old × (64 < (port_view port.old).units) }
    requires image { (first_geometry shared.now ≡ O.start.world.geometry) × (O.start.world.geometry ≡ small) }
    requires valid { IsTrue (is_valid O.start.world.geometry) }
    ensures port { IsPort shared.now port.new × ((port_view port.new).units + 64 ≡ (port_view port.old).units) }
{
    let mut session = Session::new(shared, shared.port(port, 64));
    let shown = shown_through(rt, &mut session);
    let _ = session.finish(rt);
    shown
}

/// What sessions are shown and told: by a handle that goes to another thread, by a transaction as stores see it, and by what is refused.
type Told = (
    Option<(u8, EndReply)>,
    Option<(u8, u8)>,
    Option<(bool, bool, u64)>,
);

/// All of that on a device over a core.
fn run<O: Origin + Send + Sync, R: Threads + Wait + Sync>(
    rt: &R,
    alloc: Global,
    core: Core<MemDisk>,
) -> Option<Told>
    requires start { MayStart state_of O.start O.disk core }
    requires valid { IsTrue (is_valid O.start.world.geometry) }
{
    match Shared::<MemDisk, O>::new(alloc, core) {
        Err((_memory, _core)) => None,
        Ok((shared, mut port)) => {
            let handed = handed_over(rt, &shared, &mut port);
            let own = shown(rt, &shared, &mut port);
            Some((handed, own, refused(rt, &shared, &mut port)))
        }
    }
}

/// The same over a new core.
#[tactic(auto, unfolding(iso_model::specs::Geometry::is_valid))]
fn told<R: Threads + Wait + Sync>(rt: &R, alloc: Global) -> Option<Told> {
    let _ = with_long_logs();
    let core = new_core(alloc).ok()?;
    run::<Brand, R>(rt, alloc, core)
}

// A handle goes to another thread, stores see the transaction of a session, and a session in a transaction hands a handle back.
#[test]
fn sessions_are_shown_and_told_this(rt: HostRuntime) -> Result<(), Fail> {
    let wanted = (
        Some((7, EndReply::Committed(1))),
        Some((5, 0)),
        Some((true, true, 2)),
    );
    same(&rt, told(&rt, rt.alloc()), Some(wanted));
    Ok(())
}
