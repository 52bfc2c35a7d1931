// Taking two sides that hold a mirror.
ghost use Rattle.std.specs.Prelude.{◌≡◌, ℕ, List, Err, Ok, Some, IfErr, IfOk};
ghost use Rattle.iso_disk.specs.Disk.{IsSettled};
ghost use Rattle.mirror_disk.specs.{Adopting.AreMarked, Adopts.{AdoptsSides, ReadsHeaders, SettlesOn}, Header.body, Pairs.chosen_told, declared.used.Used.TheVariants.Both};

use crate::error::MirrorError;
use crate::header::read_header;
use crate::marks::Marks;
use crate::mirror::Mirror;
use crate::past::Past;
use crate::sides::HEADER;
use crate::slot::Mark;
use crate::take::take_over;
use crate::used::Used;
use iso_disk::{Disk, DiskFault, Image};

impl<A: Image, B: Image> Mirror<A, B> {
    ghost use Rattle.mirror_disk.specs.State.{state_of};

    /// A mirror of two sides that are bound. It makes both stable and chooses the one with the larger epoch, the first
    /// where both have the same, also where that one is damaged: it writes to the other one what differs there, and
    /// raises the lower epoch. So it writes nothing to two sides that are alike. An other side that fails in this alone
    /// is left out.
    ///
    /// # Errors
    ///
    /// The sides are handed back.
    /// - `SizesDiffer` exactly where they differ in size.
    /// - `NotMirror`: that side has no header of a mirror; the second one is named only where the first one has a
    ///   header.
    /// - `Disk`: a side failed before the choice, the chosen one failed, or the other one did while there is no larger
    ///   epoch.
    pub fn adopt(first: A, second: B) -> Result<Mirror<A, B>, (MirrorError, A, B)>
        ensures adopted { IfOk result (λ m. AdoptsSides A.state B.state (first, second) (m.first, m.second) (Ok m.marks)) }
        ensures refused { IfErr result (λ e. AdoptsSides A.state B.state (first, second) (e.1, e.2) (Err e.0)) }
        ensures contents { IfOk result (λ m. (state_of m).contents ≡ chosen_told (A.state first).contents (B.state second).contents) }
        ensures settled { IfOk result (λ m. IsSettled (state_of m)) }
        ensures alike { IfOk result (λ m. m.marks.used ≡ Both → (x y : List ℕ) → (A.state m.first).contents ≡ Some x → (B.state m.second).contents ≡ Some y → body x ≡ body y) }
    {
        let mut first = first;
        let mut second = second;
        match adopt_sides(&mut first, &mut second) {
            Ok(marks) => Ok(Mirror {
                first,
                second,
                marks,
                past: Past::start(),
                faults: 0,
                binds: 0,
            }),
            Err(error) => Err((error, first, second)),
        }
    }
}

/// Makes both sides stable and alike, as the one with the larger epoch.
pub(crate) fn adopt_sides<A: Disk, B: Disk>(
    first: &mut A,
    second: &mut B,
) -> Result<Marks, MirrorError>
    ensures { AdoptsSides A.state B.state (first.old, second.old) (first.new, second.new) result }
{
    let size = first.size();
    let other = second.size();
    if size != other {
        return Err(MirrorError::SizesDiffer {
            first: size,
            second: other,
        });
    }
    let Ok((one, two)) = read_headers(first, second) else {
        return Err(MirrorError::Disk);
    };
    let Some(one) = one else {
        return Err(MirrorError::NotMirror { side: 0 });
    };
    let Some(two) = two else {
        return Err(MirrorError::NotMirror { side: 1 });
    };
    match settle_on(first, second, size - HEADER, one, two) {
        Ok(marks) => Ok(marks),
        Err(_) => Err(MirrorError::Disk),
    }
}

/// Makes both sides stable, and reads their headers.
fn read_headers<A: Disk, B: Disk>(
    first: &mut A,
    second: &mut B,
) -> Result<(Option<Mark>, Option<Mark>), DiskFault>
    ensures { ReadsHeaders A.state B.state (first.old, second.old) (first.new, second.new) result }
{
    first.sync()?;
    second.sync()?;
    let one = read_header(first)?;
    let two = read_header(second)?;
    Ok((one, two))
}

/// Makes the sides alike, as the one with the larger epoch, and the first one where both have the same.
fn settle_on<A: Disk, B: Disk>(
    first: &mut A,
    second: &mut B,
    count: u64,
    one: Mark,
    two: Mark,
) -> Result<Marks, DiskFault>
    requires { AreMarked (A.state first.old) (B.state second.old) count one two }
    ensures { SettlesOn (A.state first.old) (B.state second.old) (A.state first.new) (B.state second.new) one two result }
{
    if one.epoch < two.epoch {
        return match take_over(second, first, count, two, one)? {
            Some(slot) => Ok(Marks {
                used: Used::Both,
                epoch: two.epoch,
                first_slot: slot,
                second_slot: two.slot,
            }),
            None => Ok(Marks {
                used: Used::OnlySecond,
                epoch: two.epoch,
                first_slot: one.slot,
                second_slot: two.slot,
            }),
        };
    }
    match take_over(first, second, count, one, two)? {
        Some(slot) => Ok(Marks {
            used: Used::Both,
            epoch: one.epoch,
            first_slot: one.slot,
            second_slot: slot,
        }),
        None => Ok(Marks {
            used: Used::OnlyFirst,
            epoch: one.epoch,
            first_slot: one.slot,
            second_slot: two.slot,
        }),
    }
}
