// The mirror itself.
ghost use Rattle.std.specs.Prelude.{◌≡◌};
ghost use Rattle.mirror_disk.specs.Standing.{StandsBy};

use crate::marks::Marks;
use crate::past::Past;
use crate::used::Used;
use iso_disk::Image;

/// A disk that keeps its bytes on two sides, once it is bound to a name that ends in `+`. Under another name, and before it is
/// bound, it is its first side alone. Each side is 64 bytes longer, for a header with its epoch.
///
/// A side that fails in a write or a sync is left out: the epoch of the other one is raised before the call answers. A mirror
/// of which no side is left is broken, and asks none any more. No call takes memory.
#[derive(Drop)]
pub struct Mirror<A: Image, B: Image> {
    pub(crate) first: A,
    pub(crate) second: B,
    pub(crate) marks: Marks,
    pub(crate) past: Past<A, B>,
    pub(crate) faults: u64,
    pub(crate) binds: u64,
    ghost stands: { StandsBy (A.state first) (B.state second) marks past },
}

impl<A: Image, B: Image> Mirror<A, B> {
    ghost use Rattle.mirror_disk.specs.{declared.used.Used.TheVariants.{OnlyFirst, OnlySecond, Plain}, Standing.{ArePair, IsPair, Leads, sides_in}};

    /// A mirror that is not bound yet: until then it is its first side alone. It takes no memory.
    pub fn of(first: A, second: B) -> Mirror<A, B>
        ensures first { result.first ≡ first }
        ensures second { result.second ≡ second }
        ensures unbound { result.marks.used ≡ Plain }
        ensures counts { (result.faults ≡ 0) × (result.binds ≡ 0) }
    {
        Mirror {
            first,
            second,
            marks: Marks::plain(),
            past: Past::start(),
            faults: 0,
            binds: 0,
        }
    }

    /// Which of the sides are in use: one at least, but none of a mirror that is broken or whose bind failed.
    pub fn sides(&self) -> (bool, bool)
        ensures used { result ≡ sides_in self.now.marks.used }
        // A side that was left out has the lower epoch, so a later adopt takes the other one.
        ensures first_leads { self.now.marks.used ≡ OnlyFirst → Leads (A.state self.now.first) (B.state self.now.second) }
        ensures second_leads { self.now.marks.used ≡ OnlySecond → Leads (B.state self.now.second) (A.state self.now.first) }
        // Each image that a crash might have left of either side since the bind has a header, so an adopt takes the two.
        ensures pair { IsPair self.now.marks.used → ArePair (A.state self.now.first) (B.state self.now.second) self.now.past }
    {
        match self.marks.used {
            Used::Both => (true, true),
            Used::Plain | Used::OnlyFirst => (true, false),
            Used::OnlySecond => (false, true),
            Used::Broken | Used::Unbound => (false, false),
        }
    }

    /// The two sides, which are handed back.
    pub fn into_sides(self) -> (A, B)
        ensures first { result.0 ≡ self.first }
        ensures second { result.1 ≡ self.second }
    {
        (self.first, self.second)
    }
}
