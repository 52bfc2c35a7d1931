// Binding a mirror to a name.
ghost use Rattle.std.specs.Prelude.{◌≡◌, ◌+◌, ◌^◌, ◌<◌, ◌≤◌, Some, None, length};
ghost use Rattle.counts.specs.Count.{HasCause, faults_after, one_more};
ghost use Rattle.mirror_disk.specs.Binding.{BecomePair, BindsSides, BindsTo, MakesOnFreeNames, RefusesBound, RefusesName};

use crate::adopt::adopt_sides;
use crate::disk::count;
use crate::header::lay_header;
use crate::marks::Marks;
use crate::mirror::Mirror;
use crate::name::{LONGEST, bind_side, is_mirror, is_side_free};
use crate::past::Past;
use crate::sides::HEADER;
use crate::used::Used;
use counts::raise;
use iso_disk::{Disk, DiskFault, Image, Lookup};

/// The largest size of a mirror.
const LARGEST: u64 = u64::MAX - HEADER;

/// What the name of the first side ends with.
const FIRST: u8 = b'0';

/// What that of the second one ends with.
const SECOND: u8 = b'1';

impl<A: Lookup, B: Lookup> Image for Mirror<A, B> {
    ghost use Rattle.mirror_disk.specs.State.{state_of};

    /// Under a name that does not end in `+` the mirror is its first side alone, with nothing added. Under one that
    /// does, both sides are bound, to that name with `0` and with `1` added, each 64 bytes longer: with a size two
    /// headers are laid, with none the sides are adopted. With a size both names are looked up first: where one is not
    /// seen to be free, neither side is called. A device that comes under the second name behind that look is still a
    /// fault that leaves the first side made.
    ///
    /// # Errors
    ///
    /// Without the `+`: the bind of the first side failed. With it, the mirror is unbound then: it has no byte, and
    /// each call fails. It fails where
    /// - a side failed,
    /// - with a size, one of the two names was not seen to be free: then each side is as it was,
    /// - the name has more than 4,095 bytes, or the size leaves no room for a header in a `u64`,
    /// - the sides, bound without a size, differ in size, or one of them has no header of a mirror.
    fn bind(&mut self, name: &str, want: Option<u64>) -> Result<(), DiskFault>
        ensures binds { BindsTo (state_of self.old) (state_of self.new) name.now want result }
        ensures counted { (state_of self.new).binds ≡ one_more (state_of self.old).binds }
        ensures cause { HasCause (state_of self.old).faults (state_of self.new).faults result }
        ensures exact { (state_of self.new).faults ≡ faults_after (state_of self.old).faults result }
        ensures sides { BindsSides A.state B.state A.seen B.seen want (self.old.first, self.old.second) (self.new.first, self.new.second) name.now self.new.marks.used result }
    {
        raise(&mut self.binds);
        if !is_mirror(name.as_bytes()) {
            self.marks.used = Used::Plain;
            let done = self.first.bind(name, want).is_ok();
            return count(&mut self.faults, done);
        }
        match bind_sides(&mut self.first, &mut self.second, name, want) {
            Ok(made) => {
                self.past = Past::start();
                self.marks = made;
                Ok(())
            }
            Err(_) => {
                self.marks.used = Used::Unbound;
                count(&mut self.faults, false)
            }
        }
    }
}

/// Binds both sides to new names, and lays a header on each.
fn make_sides<A: Image, B: Image>(
    first: &mut A,
    second: &mut B,
    name: &str,
    size: u64,
) -> Result<Marks, DiskFault>
    requires short { length name.now ≤ 4095 }
    requires room { size + 64 < 2 ^ 64 }
    ensures { BecomePair A.state B.state (first.old, second.old) (first.new, second.new) name.now (Some size) ⊥ result }
{
    bind_side(first, name, FIRST, Some(size + HEADER))?;
    bind_side(second, name, SECOND, Some(size + HEADER))?;
    lay_header(first)?;
    lay_header(second)?;
    Ok(Marks::blank())
}

/// Binds both sides to the names that they have, and adopts them.
fn take_sides<A: Image, B: Image>(
    first: &mut A,
    second: &mut B,
    name: &str,
) -> Result<Marks, DiskFault>
    requires { length name.now ≤ 4095 }
    ensures { BecomePair A.state B.state (first.old, second.old) (first.new, second.new) name.now None (RefusesBound A.state B.state (first.old, second.old) name.now) result }
{
    bind_side(first, name, FIRST, None)?;
    bind_side(second, name, SECOND, None)?;
    match adopt_sides(first, second) {
        Ok(marks) => Ok(marks),
        Err(_) => Err(DiskFault),
    }
}

/// Binds both sides under a name of a mirror.
fn bind_sides<A: Lookup, B: Lookup>(
    first: &mut A,
    second: &mut B,
    name: &str,
    want: Option<u64>,
) -> Result<Marks, DiskFault>
    ensures pair { BecomePair A.state B.state (first.old, second.old) (first.new, second.new) name.now want (RefusesName A.state B.state A.seen B.seen want (first.old, second.old) name.now) result }
    ensures made_free { MakesOnFreeNames A.seen B.seen want first.old first.new second.old second.new name.now }
{
    if name.len() > LONGEST {
        return Err(DiskFault);
    }
    match want {
        Some(size) => {
            if size > LARGEST {
                return Err(DiskFault);
            }
            if !(is_side_free(first, name, FIRST) && is_side_free(second, name, SECOND)) {
                return Err(DiskFault);
            }
            make_sides(first, second, name, size)
        }
        None => take_sides(first, second, name),
    }
}
