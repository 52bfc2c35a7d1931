// What a commit wants before the first call of the disk.
ghost use Rattle.std.specs.Prelude.{IfOk, OnOk};
ghost use Rattle.iso_core.specs.{Ends.{HasRecord, IsNextSpelled, IsPrepared, IsSpelled}, Kept.{Reserves, SettlesOnly, SpellsOnly}};

use crate::kept::Kept;
use crate::spelling::push_work;
use byte_marks::Touched;
use iso_image::kind_of;
use iso_model::Memory;
use tx_table::Work;
use version_read::reserve_parts;

/// Spells the record of a transaction, as that of the next commit of a world, and lists its parts.
pub(crate) fn spell_as(kept: &mut Kept, work: &Work, number: u64) -> Result<(), Memory>
    requires { IsNextSpelled kept.old.geometry work.now number }
    ensures spelled { (n : IsNextSpelled kept.old.geometry work.now number) → OnOk result (IsSpelled n.world n.t kept.new) }
    ensures same { SpellsOnly kept.old kept.new }
{
    kept.buffer.clear();
    kept.parts.clear();
    let kind = kind_of(&kept.geometry, work.mode());
    push_work(&mut kept.buffer, &mut kept.parts, work)?;
    kept.buffer.finish(number, kind)?;
    Ok(())
}

/// Makes room for the versions of a record that fits the log and for its note, and takes over what the transaction wrote: with
/// the record all the memory that a commit takes.
pub(crate) fn prepare(kept: &mut Kept, tx: u64, work: &mut Work) -> Result<Touched, Memory>
    requires { HasRecord kept.old tx work.old }
    ensures prepared { (h : HasRecord kept.old tx work.old) → IfOk result (λ writes. IsPrepared h.world h.t kept.new writes) }
    ensures rest { Reserves kept.old kept.new }
    ensures work { SettlesOnly work.old work.new }
{
    let _ = tx;
    reserve_parts(&mut kept.index, kept.parts.as_slice())?;
    kept.notes.reserve()?;
    let spare = kept.notes.spare_set();
    Ok(work.take_writes(spare))
}
