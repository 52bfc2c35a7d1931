// The lines that call a store.
ghost use Rattle.std.specs.Prelude.{◌≡◌, ◌<◌, IsTrue, Some, false, option_map};
ghost use Rattle.iso_model.specs.{declared.access.Mode.TheVariants.{Serial as IsSerial}, Geometry.is_valid};
ghost use Rattle.store_calls.specs.Calls.{is_empty_scan, placed, store_areas};
ghost use Rattle.par_lines.specs.{Answers.Answered, Stores.{IsOnStore, settled}};

use crate::image::ImageNumbers;
use handle_pass::{Left, Session, Visit};
use iso_disk::Disk;
use iso_model::Mode;
use iso_shared::Origin;
use script_model::{Op, Reply, Stop};
use std::alloc::Global;
use std::marker::Brand;
use std::sync::Wait;
use store_calls::{call, is_empty_scan, store_region};
use store_model::FsRegion;

/// What a line ends with whose call ended so.
fn settle(failures: u64, is_down: bool, answer: Result<Reply, Stop>) -> Result<Reply, Stop>
    ensures { result ≡ settled failures is_down answer }
{
    if failures > 0 {
        Err(Stop::Disk)
    } else if is_down {
        Err(Stop::Down)
    } else {
        answer
    }
}

/// A call of a store on a serial transaction of a session, which is handed back.
fn visit<'s, 'a, D: Disk + Drop, O: Origin, R: Wait, V: Visit>(
    rt: &'s R,
    alloc: Global,
    session: &'s mut Session<'a, D, O>,
    region: FsRegion,
    op: &Op,
    answer: &mut Result<Reply, Stop>,
) -> &'s mut Session<'a, D, O>
    requires valid { IsTrue (is_valid O.start.world.geometry) }
    requires name { session.ghost_name ≡ V.name }
    requires before { V.before ≡ Some session.old }
    requires mode { option_map (λ o. o.mode) session.old.own ≡ Some IsSerial }
    requires op { IsOnStore op.now }
    requires region { placed O.start.world.geometry.block region ≡ store_areas O.start.world.geometry op.now }
    requires there { 0 < region.files.size }
    requires some { is_empty_scan op.now ≡ false }
    ensures name { result.ghost_name ≡ session.entry.ghost_name }
    ensures did { Answered O.start session.old op.now answer.new result.now }
{
    let mut blocks = session.blocks::<R, V>(rt);
    let called = call(alloc, &mut blocks, region, op);
    let Left {
        session,
        failures,
        is_down,
    } = blocks.leave();
    *answer = settle(failures, is_down, called);
    session
}

/// An operation on a store.
pub(crate) fn store<'a, D: Disk + Drop, O: Origin, R: Wait>(
    rt: &R,
    alloc: Global,
    session: &mut Session<'a, D, O>,
    image: &ImageNumbers<O>,
    op: &Op,
) -> Result<Reply, Stop>
    requires op { IsOnStore op.now }
    ensures did { Answered O.start session.old op.now result session.new }
{
    let region = store_region(&image.geometry, op);
    match session.mode() {
        None => Ok(Reply::NotInTx),
        Some(mode) => {
            if region.files.size == 0 {
                return Ok(Reply::NoStore);
            }
            match mode {
                Mode::Snapshot => Ok(Reply::StoreMode),
                Mode::Serial => {
                    if is_empty_scan(op) {
                        return Ok(Reply::BadRange);
                    }
                    let mut answer = Err(Stop::Memory);
                    let _session = visit::<D, O, R, Brand>(
                        rt,
                        alloc,
                        session,
                        region,
                        op,
                        &mut answer,
                    );
                    answer
                }
            }
        }
    }
}
