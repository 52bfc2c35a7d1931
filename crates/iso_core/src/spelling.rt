// The record of a transaction, spelled from its patches.
ghost use Rattle.std.specs.Prelude.{◌≡◌, ◌++◌, true, OnOk, map};
ghost use Rattle.iso_model.specs.{declared.access.Geometry.Geometry, Effect.{runs, runs_from}};
ghost use Rattle.version_read.specs.Parts.{part_of};

use iso_format::RecordBuffer;
use iso_model::Memory;
use merge_write::Patch;
use tx_table::Work;
use version_read::PartSpan;

/// Adds the runs of a block's patch to the record that is begun, and to the list of its parts.
fn push_patch(
    buffer: &mut RecordBuffer,
    parts: &mut Vec<PartSpan>,
    block: u32,
    patch: &Patch,
) -> Result<(), Memory>
    ensures records { buffer.new.records ≡ buffer.old.records }
    ensures runs { OnOk result (buffer.new.parts ≡ buffer.old.parts ++ runs_from block 0 patch.now) }
    ensures parts { OnOk result (parts.new.items ≡ parts.old.items ++ map part_of (runs_from block 0 patch.now)) }
{
    for (span, bytes) in patch.spans() {
        buffer.push_part(block, span.off, bytes)?;
        parts.push(PartSpan {
            block,
            off: span.off,
            len: span.len,
        })?;
    }
    Ok(())
}

/// Adds the runs of a transaction to the record that is begun, and to the list of its parts.
pub(crate) fn push_work(
    buffer: &mut RecordBuffer,
    parts: &mut Vec<PartSpan>,
    work: &Work,
) -> Result<(), Memory>
    requires settled { work.now.settled ≡ true }
    ensures records { buffer.new.records ≡ buffer.old.records }
    ensures runs { (g : Geometry) → g.block ≡ work.now.size → g.blocks ≡ work.now.blocks
        → OnOk result ((buffer.new.parts ≡ buffer.old.parts ++ runs g work.now.accesses) × (parts.new.items ≡ parts.old.items ++ map part_of (runs g work.now.accesses))) }
{
    for (block, patch) in work.patches() {
        push_patch(buffer, parts, block, patch)?;
    }
    Ok(())
}
