// The lines that read.
ghost use Rattle.std.specs.Prelude.{◌≡◌, length, vec_len};
ghost use Rattle.script_model.specs.declared.script.Op.TheVariants.{Get, Read};
ghost use Rattle.handle_pass.specs.Accesses.{access_answer, HasRead, IsReadCause};
ghost use Rattle.tx_blocks.specs.Tx.{IsRefused};
ghost use Rattle.par_lines.specs.Answers.{Answered};
ghost use Rattle.par_lines.specs.Replies as spec;

use crate::accesses::{mark_range, wrong_bytes};
use crate::image::ImageNumbers;
use crate::replies::accessed;
use handle_pass::Session;
use iso_disk::Disk;
use iso_model::Bytes;
use iso_shared::Origin;
use script_model::{Reply, Stop, copy_from, fit, is_outside, zeros};
use std::alloc::Global;
use std::sync::Wait;
use store_model::TxError;

/// Bytes of a block, by numbers that may be larger than a block.
#[derive(Drop)]
pub(crate) struct ByteRange {
    pub(crate) block: u32,
    pub(crate) off: u32,
    pub(crate) len: u32,
}

/// Reads a block into a vector that has as many bytes.
fn read_into<'a, D: Disk + Drop, O: Origin, R: Wait>(
    rt: &R,
    session: &mut Session<'a, D, O>,
    bytes: &mut Vec<u8>,
    block: u32,
) -> Result<(), TxError>
    requires size { length bytes.old.items ≡ O.start.world.geometry.block }
    ensures cause { IsRefused (access_answer O.start session.old block) IsReadCause result }
    ensures did { HasRead O.start session.old block result bytes.new.items session.new }
    ensures length { vec_len bytes.new ≡ O.start.world.geometry.block }
{
    session.read_block(rt, block, bytes.as_mut_slice())
}

/// What a line is answered that read these bytes, or could not.
fn shown(answer: Result<(), TxError>, bytes: Vec<u8>) -> Result<Reply, Stop>
    ensures { result ≡ spec.shown answer bytes.items }
{
    match answer {
        Ok(()) => Ok(Reply::Shown(Bytes::of(bytes))),
        Err(error) => accessed(Err(error)),
    }
}

/// Reads a whole block.
pub(crate) fn read<'a, D: Disk + Drop, O: Origin, R: Wait>(
    rt: &R,
    alloc: Global,
    session: &mut Session<'a, D, O>,
    image: &ImageNumbers<O>,
    block: u32,
) -> Result<Reply, Stop>
    ensures did { Answered O.start session.old (Read block) result session.new }
{
    match zeros(alloc, image.geometry.block) {
        Ok(mut bytes) => {
            let answer = read_into(rt, session, &mut bytes, block);
            shown(answer, bytes)
        }
        Err(_) => Err(Stop::Memory),
    }
}

/// Reads these bytes: the block is read whole into the buffer, and the access is marked with this range.
pub(crate) fn get<'a, D: Disk + Drop, O: Origin, R: Wait>(
    rt: &R,
    alloc: Global,
    session: &mut Session<'a, D, O>,
    image: &ImageNumbers<O>,
    buffer: &mut Vec<u8>,
    range: ByteRange,
) -> Result<Reply, Stop>
    ensures did { Answered O.start session.old (Get range.block range.off range.len) result session.new }
{
    let ByteRange { block, off, len } = range;
    let geometry = &image.geometry;
    if is_outside(geometry.block, off, len as usize) {
        return Ok(wrong_bytes(session, geometry, block));
    }
    let Ok(mut bytes) = zeros(alloc, len) else {
        return Err(Stop::Memory);
    };
    if let Err(_) = fit(buffer, geometry.block) {
        return Err(Stop::Memory);
    }
    match read_into(rt, session, buffer, block) {
        Ok(()) => {
            let answer = mark_range(session, image, off, len);
            copy_from(&mut bytes, buffer, off);
            shown(answer, bytes)
        }
        Err(error) => accessed(Err(error)),
    }
}
