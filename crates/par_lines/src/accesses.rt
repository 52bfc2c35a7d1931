// The lines that write and mark, which make no entry.
ghost use Rattle.std.specs.Prelude.{◌≡◌};
ghost use Rattle.script_model.specs.declared.script.Op.TheVariants.{Fill, Put, Write};
ghost use Rattle.handle_pass.specs.Accesses.{mark_answer, HasMarked};
ghost use Rattle.tx_blocks.specs.Tx.{IsRefused};
ghost use Rattle.par_lines.specs.Answers.{Answered};
ghost use Rattle.par_lines.specs.Replies as spec;

use crate::image::ImageNumbers;
use crate::replies::accessed;
use handle_pass::Session;
use iso_disk::Disk;
use iso_model::Geometry;
use iso_shared::Origin;
use script_model::{Reply, Stop, fill_up, is_outside};
use store_model::TxError;

/// What an access is answered whose bytes are wrong.
pub(crate) fn wrong_bytes<'a, D: Disk + Drop, O: Origin>(
    session: &Session<'a, D, O>,
    geometry: &Geometry,
    block: u32,
) -> Reply
    ensures { result ≡ spec.wrong_bytes geometry.now.blocks session.now.own block }
{
    if session.mode().is_none() {
        Reply::NotInTx
    } else if block >= geometry.blocks {
        Reply::BadBlock
    } else {
        Reply::BadRange
    }
}

/// Writes a whole block.
pub(crate) fn write<'a, D: Disk + Drop, O: Origin>(
    session: &mut Session<'a, D, O>,
    image: &ImageNumbers<O>,
    block: u32,
    bytes: &[u8],
) -> Result<Reply, Stop>
    ensures did { Answered O.start session.old (Write block bytes.now) result session.new }
{
    let geometry = &image.geometry;
    if bytes.len() != geometry.block as usize {
        return Ok(wrong_bytes(session, geometry, block));
    }
    accessed(session.write_block(block, bytes))
}

/// Writes a block full of one byte.
pub(crate) fn fill<'a, D: Disk + Drop, O: Origin>(
    session: &mut Session<'a, D, O>,
    image: &ImageNumbers<O>,
    buffer: &mut Vec<u8>,
    block: u32,
    bytes: &[u8],
) -> Result<Reply, Stop>
    ensures did { Answered O.start session.old (Fill block bytes.now) result session.new }
{
    let geometry = &image.geometry;
    if bytes.len() != 1 {
        return Ok(wrong_bytes(session, geometry, block));
    }
    match fill_up(buffer, geometry.block, bytes[0]) {
        Ok(()) => accessed(session.write_block(block, buffer.as_slice())),
        Err(_) => Err(Stop::Memory),
    }
}

/// How a mark is refused whose bytes are outside a block.
fn refused_mark<'a, D: Disk + Drop, O: Origin>(session: &Session<'a, D, O>) -> TxError
    ensures { result ≡ spec.refused_mark session.now.own }
{
    if session.mode().is_none() {
        TxError::NotInTx
    } else {
        TxError::BadRange
    }
}

/// Marks a range of the last access, by numbers that may be larger than a block.
pub(crate) fn mark_range<'a, D: Disk + Drop, O: Origin>(
    session: &mut Session<'a, D, O>,
    image: &ImageNumbers<O>,
    off: u32,
    len: u32,
) -> Result<(), TxError>
    ensures cause { IsRefused (mark_answer O.start session.old off len) (λ e. ⊥) result }
    ensures did { HasMarked session.old off len result session.new }
{
    if is_outside(image.geometry.block, off, len as usize) {
        return Err(refused_mark(session));
    }
    session.mark_accessed(off as u16, len as u16)
}

/// Writes these bytes at `off`, and claims no others.
pub(crate) fn put<'a, D: Disk + Drop, O: Origin>(
    session: &mut Session<'a, D, O>,
    image: &ImageNumbers<O>,
    block: u32,
    off: u32,
    bytes: &[u8],
) -> Result<Reply, Stop>
    ensures did { Answered O.start session.old (Put block off bytes.now) result session.new }
{
    let geometry = &image.geometry;
    if is_outside(geometry.block, off, bytes.len()) {
        return Ok(wrong_bytes(session, geometry, block));
    }
    accessed(session.put(block, off as u16, bytes))
}
