// Writes and marks of one transaction.
ghost use Rattle.std.specs.Prelude.{◌≡◌, None, ◌+◌, ◌≤◌, IfOk, OnErr, length, IfSome};
ghost use Rattle.iso_model.specs.{declared.access.Access.Access, Marks.{mark_fault, marked}, World.{World, Live}};
ghost use Rattle.script_model.specs.{declared.script.Reply.Reply, Step.{access_step, fill_step, mark_refused, mark_step, put_step, write_step}};
ghost use Rattle.iso_core.specs.Calls.{IsWorkOf};
ghost use Rattle.tx_table.specs.Work.{span_at};
ghost use Rattle.iso_machine.specs.Accessing.{Accesses, IsActive, IsAllowed, IsGiven, IsRefusal};

use iso_model::{MarkError, Memory};
use script_model::{Reply, fill_up, is_outside};
use tx_table::Work;

/// Why an access is refused, if it is: its block is outside, its bytes are wrong, or there are as many accesses as there may be.
pub(crate) fn refusal(work: &Work, block: u32, is_wrong: bool) -> Option<Reply>
    ensures allowed { result ≡ None → IsAllowed work.now block is_wrong }
    ensures plain { IfSome result IsRefusal }
    ensures refused { (W : World) (t : Live) → IsWorkOf W t work.now → IfSome result (λ r. (answer : Reply) (a : Access) → access_step W t block is_wrong answer a ≡ (r, W)) }
{
    if block >= work.blocks() {
        return Some(Reply::BadBlock);
    }
    if is_wrong {
        return Some(Reply::BadRange);
    }
    if work.room() == 0 {
        return Some(Reply::TooManyAccesses);
    }
    None
}

/// A write of these bytes at `off`, with one mark over them.
///
/// # Errors
///
/// Want of memory. There is no reply, and the accesses stay as they are.
#[inline(always)]
pub fn put(work: &mut Work, block: u32, off: u32, bytes: &[u8]) -> Result<Reply, Memory>
    ensures given { (W : World) (t : Live) → IsActive W t work.old → IfOk result (IsGiven W t (put_step W t block off bytes.now) work.new) }
    ensures kept { OnErr result (work.new ≡ record work.old { ready = work.new.ready }) }
{
    let size = work.block_size();
    if let Some(reply) = refusal(work, block, is_outside(size, off, bytes.len())) {
        return Ok(reply);
    }
    work.reserve(block)?;
    work.put(block, off as u16, bytes);
    Ok(Reply::Done)
}

/// A write of a whole block.
pub(crate) fn write(work: &mut Work, block: u32, bytes: &[u8]) -> Result<Reply, Memory>
    ensures { Accesses work.old work.new (λ W t. write_step W t block bytes.now) result }
{
    let size = work.block_size();
    if let Some(reply) = refusal(work, block, bytes.len() != size as usize) {
        return Ok(reply);
    }
    work.reserve(block)?;
    work.write(block, bytes);
    Ok(Reply::Done)
}

/// A write of a block full of one byte.
pub(crate) fn fill(
    work: &mut Work,
    buffer: &mut Vec<u8>,
    block: u32,
    bytes: &[u8],
) -> Result<Reply, Memory>
    ensures { Accesses work.old work.new (λ W t. fill_step W t block bytes.now) result }
{
    let size = work.block_size();
    if let Some(reply) = refusal(work, block, bytes.len() != 1) {
        return Ok(reply);
    }
    fill_up(buffer, size, bytes[0])?;
    work.reserve(block)?;
    work.write(block, buffer);
    Ok(Reply::Done)
}

/// What a mark that is refused is answered.
fn mark_reply(error: MarkError) -> Reply
    ensures { result ≡ mark_refused error }
{
    match error {
        MarkError::BadRange => Reply::BadRange,
        MarkError::NoAccess => Reply::NoAccess,
        MarkError::TooManyMarks => Reply::TooManyMarks,
    }
}

/// One more mark on the last access.
pub(crate) fn mark(work: &mut Work, off: u32, len: u32) -> Reply
    ensures { (W : World) (t : Live) → IsActive W t work.old → IsGiven W t (mark_step W t off len) work.new result }
{
    if is_outside(work.block_size(), off, len as usize) {
        return Reply::BadRange;
    }
    match work.mark(off as u16, len as u16) {
        Ok(()) => Reply::Done,
        Err(error) => mark_reply(error),
    }
}
