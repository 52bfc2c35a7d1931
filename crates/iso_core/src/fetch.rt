// Bytes of a block as a transaction is shown them.
ghost use Rattle.std.specs.{Prelude.{◌≡◌, ◌⊎◌, ◌+◌, ◌<◌, ◌≤◌, ℕ, OnOk, length}, List.AllByRecursion, Option.ForSome};
ghost use Rattle.counts.specs.Count.{HasCause};
ghost use Rattle.iso_disk.specs.Disk.{WritesNothing};
ghost use Rattle.mv_index.specs.{Shown.{AllLie, Lies, ShowTheSameIn}, Versions.{upto, versions_in}};
ghost use Rattle.version_read.specs.Blocks.{IsOverIn};

use counts::{Ledger, Steps};
use iso_disk::{Disk, DiskFault};
use mv_index::{MvIndex, Version};
use std::marker::Brand;
use std::sync::ledger::Blank;
use version_read::{read_block, read_pieces};

/// The versions of a block up to a number.
fn versions_upto<L: Ledger>(blank: Blank, index: &MvIndex, block: u32, at: u64) -> &[Version]
    requires name { blank.name ≡ L.name }
    requires parts { blank.parts ≡ L.parts }
    requires some { 0 < L.parts }
    requires block { block < length index.now }
    ensures { result.now ≡ upto at (versions_in index.now block) }
{
    let mut steps = Steps::<L>::start(blank);
    index.find(block, at, &mut steps)
}

/// The versions that the bytes of a block from one up to another are read by at a number: those that show there at the last
/// commit, or all up to an earlier one.
pub(crate) fn versions_at(
    index: &MvIndex,
    block: u32,
    at: u64,
    last: u64,
    from: usize,
    to: usize,
) -> &[Version]
    requires block { block < length index.now }
    requires rise { from ≤ to }
    requires within { to ≤ 4096 }
    ensures chosen { (result.now ≡ upto at (versions_in index.now block)) ⊎ ((at ≡ last) × ShowTheSameIn from to result.now (versions_in index.now block)) }
    ensures lie { (size area : ℕ) → AllByRecursion (Lies size area) (versions_in index.now block) → AllLie size area result.now }
{
    if at == last {
        index.showing_in(block, from as u16, to as u16)
    } else {
        versions_upto::<Brand>(Blank::new(1), index, block, at)
    }
}

/// Reads the bytes of a block from one up to another by these versions. Those that show at the last commit hide nothing of
/// each other; by others the whole block is read.
pub(crate) fn read_by<D: Disk>(
    disk: &mut D,
    base: u64,
    versions: &[Version],
    show_at_last: bool,
    from: usize,
    to: usize,
    into: &mut [u8],
) -> Result<(), DiskFault>
    requires rise { from ≤ to }
    requires range { to ≤ length into.old }
    requires size { length into.old ≤ 4096 }
    requires base { base + length into.old ≤ (D.state disk.old).size }
    requires versions { AllLie (length into.old) (D.state disk.old).size versions.now }
    ensures bytes { OnOk result (ForSome (D.state disk.old).contents (λ c. IsOverIn from to c base versions.now into.new)) }
    ensures unwritten { WritesNothing (D.state disk.old) (D.state disk.new) }
    ensures cause { HasCause (D.state disk.old).faults (D.state disk.new).faults result }
{
    if show_at_last {
        read_pieces(disk, base, versions, from, to, into)?;
    } else {
        read_block(disk, base, versions, into)?;
    }
    Ok(())
}
