// The names of a mirror and of its sides.
ghost use Rattle.std.specs.Prelude.{◌≡◌, [], ◌∷◌, ◌++◌};
ghost use Rattle.counts.specs.Count.{HasCause};
ghost use Rattle.mirror_disk.specs.{Binding.{BindsTo, HasRoomFor}, Pairs.names_mirror};

use iso_disk::{DiskFault, Image, Lookup};
use std::str;

/// The most bytes of a name of a mirror.
pub(crate) const LONGEST: usize = 4_095;

/// What the name of a mirror ends with.
const MARK: u8 = b'+';

/// Whether this names a mirror of two sides.
pub(crate) fn is_mirror(name: &[u8]) -> bool
    ensures { result ≡ names_mirror name.now }
{
    match name.last() {
        Some(last) => *last == MARK,
        None => false,
    }
}

/// Binds a side to a name with one byte more. The longer name is made in a buffer, so no memory is taken.
pub(crate) fn bind_side<I: Image>(
    side: &mut I,
    name: &str,
    digit: u8,
    want: Option<u64>,
) -> Result<(), DiskFault>
    requires { HasRoomFor name.now digit }
    ensures binds { BindsTo (I.state side.old) (I.state side.new) (name.now ++ digit ∷ []) want result }
    ensures cause { HasCause (I.state side.old).faults (I.state side.new).faults result }
{
    let mut buffer = [0; LONGEST + 1];
    side.bind(lay_name(&mut buffer, name, digit), want)
}

/// Whether a side sees that a name with one byte more is free.
pub(crate) fn is_side_free<I: Lookup>(side: &I, name: &str, digit: u8) -> bool
    requires { HasRoomFor name.now digit }
    ensures { I.seen side.now (name.now ++ digit ∷ []) result }
{
    let mut buffer = [0; LONGEST + 1];
    side.is_free(lay_name(&mut buffer, name, digit))
}

/// Lays a name and one byte more at the head of a buffer, and gives the text that stands there then.
fn lay_name<'a>(buffer: &'a mut [u8; 4096], name: &str, digit: u8) -> &'a str
    requires { HasRoomFor name.now digit }
    ensures { result.now ≡ name.now ++ digit ∷ [] }
{
    let len = name.len();
    buffer[..len].copy_from_slice(name.as_bytes());
    buffer[len] = digit;
    match str::from_utf8(&buffer[..len + 1]) {
        Ok(text) => text,
        Err(_) => unreachable!(),
    }
}
