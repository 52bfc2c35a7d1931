// A client: its session, and what it was told.
ghost use Rattle.std.specs.Prelude.{◌≡◌, ◌<◌, IsTrue};
ghost use Rattle.iso_model.specs.Geometry.{is_valid};
ghost use Rattle.handle_pass.specs.Sessions.{device_of};
ghost use Rattle.par_lines.specs.Answers.{Answered};

use crate::accesses::{fill, mark_range, put, write};
use crate::calls::end;
use crate::groups::group;
use crate::image::ImageNumbers;
use crate::labels::await_label;
use crate::reads::{ByteRange, get, read};
use crate::replies::{
    aborted, accessed, begun, compacted, looked, numbers, posted, trimmed, upgraded,
};
use crate::stores::store;
use handle_pass::Session;
use iso_disk::Disk;
use iso_model::{Geometry, Reserved};
use iso_shared::{Origin, Shared};
use par_runner::{Client, Flow};
use script_model::{Line, Op, Reply, Stop};
use std::alloc::Global;
use std::marker::{Brand, PhantomData};
use std::sync::Wait;
use std::sync::ledger::Blank;

/// What a session answers to an operation.
pub(crate) fn answer<'a, D: Disk + Drop, O: Origin, R: Wait>(
    rt: &R,
    alloc: Global,
    shared: &Shared<D, O>,
    session: &mut Session<'a, D, O>,
    geometry: &Geometry,
    buffer: &mut Vec<u8>,
    op: &Op,
) -> Result<Reply, Stop>
    requires device { session.old.device ≡ device_of shared.now }
    requires units { 33 < session.old.units }
    requires geometry { geometry.now ≡ O.start.world.geometry }
    requires valid { IsTrue (is_valid O.start.world.geometry) }
    ensures did { Answered O.start session.old op.now result session.new }
{
    let known: ImageNumbers<O> = ImageNumbers {
        geometry: *geometry,
        origin: PhantomData,
    };
    let image = &known;
    match op {
        Op::Begin { mode } => begun(session.begin_tx(rt, *mode)),
        Op::End => end::<Brand, D, O, R>(Blank::new(1), rt, session),
        Op::Abort => aborted(session.abort_tx(rt)),
        Op::Put { block, off, bytes } => put(session, image, *block, *off, bytes.as_slice()),
        Op::Read { block } => read(rt, alloc, session, image, *block),
        Op::Get { block, off, len } => {
            let range = ByteRange {
                block: *block,
                off: *off,
                len: *len,
            };
            get(rt, alloc, session, image, buffer, range)
        }
        Op::Write { block, bytes } => write(session, image, *block, bytes.as_slice()),
        Op::Fill { block, bytes } => fill(session, image, buffer, *block, bytes.as_slice()),
        Op::Mark { off, len } => accessed(mark_range(session, image, *off, *len)),
        Op::Release { label } => posted(session.post_tx(rt, label.copy())),
        Op::Takeover { label } => looked(session.look_tx(rt, label)),
        Op::Await { label } => await_label(rt, session, label),
        Op::Group { labels } => group(rt, alloc, shared, session, labels.as_slice()),
        Op::Trim => trimmed(session.trim(rt)),
        Op::Stat => Ok(numbers(session.stat(rt))),
        Op::Compact => compacted(session.compact(rt)),
        Op::Upgrade => upgraded(session.upgrade(rt)),
        Op::HashPut { .. }
        | Op::HashGet { .. }
        | Op::HashDelete { .. }
        | Op::TreePut { .. }
        | Op::TreeGet { .. }
        | Op::TreeDelete { .. }
        | Op::TreeScan { .. }
        | Op::FileNew { .. }
        | Op::FileWrite { .. }
        | Op::FileRead { .. }
        | Op::FileMove { .. }
        | Op::FileDelete { .. } => store(rt, alloc, session, image, op),
    }
}

/// A client, the replies that it was told with their numbers, and why it stopped, if it did.
pub(crate) struct ParClient<'a, D: Disk + Drop, O: Origin> {
    pub(crate) shared: &'a Shared<D, O>,
    pub(crate) session: Session<'a, D, O>,
    pub(crate) geometry: Geometry,
    pub(crate) alloc: Global,
    pub(crate) buffer: Vec<u8>,
    pub(crate) told: Reserved<(u64, Reply)>,
    pub(crate) stop: Option<Stop>,
}

impl<'a, D: Disk + Drop + Send, O: Origin + Send + Sync> Client for ParClient<'a, D, O> {
    ghost use Rattle.par_lines.specs.Clients.{IsClient, Stepped};

    ghost fits = { λ c. IsClient O.start c };

    ghost steps = { λ c number line flow d. Stepped O.start c number line flow d };

    fn step<R: Wait>(&mut self, rt: &R, number: u64, line: &Line) -> Flow {
        // Room for the reply: behind its turn a line takes no memory of the client.
        if let Err(_) = self.told.reserve(1) {
            self.stop = Some(Stop::Memory);
            return Flow::Halt;
        }
        match answer(
            rt,
            self.alloc,
            self.shared,
            &mut self.session,
            &self.geometry,
            &mut self.buffer,
            &line.op,
        ) {
            Ok(reply) => {
                self.told.push_within((number, reply));
                Flow::Go
            }
            Err(stop) => {
                self.stop = Some(stop);
                Flow::Halt
            }
        }
    }
}
