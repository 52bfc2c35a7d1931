// Copying the mirrored bytes of one side to the other.
ghost use Rattle.std.specs.Prelude.{◌≡◌, ◌↔◌, ◌+◌, ◌≤◌, length, IsTrue};
ghost use Rattle.mirror_disk.specs.Adopting.{AreSized, Copies, HasPiece, IsCopied, IsCopiedIn};

use crate::sides::HEADER;
use iso_disk::{Disk, DiskFault};

/// How many bytes are copied at a time.
const PIECE: usize = 4_096;

/// Makes the mirrored bytes of the other side those of this one, and stable: it reads both and writes the pieces in which they
/// differ. An error is a fault of the side that they are taken from; where the other one fails it answers false.
pub(crate) fn copy_body<C: Disk, O: Disk>(
    from: &mut C,
    to: &mut O,
    count: u64,
) -> Result<bool, DiskFault>
    requires { AreSized (C.state from.old) (O.state to.old) count }
    ensures { Copies (C.state from.old) (O.state to.old) (C.state from.new) (O.state to.new) 64 count (IsCopied (C.state from.old)) result }
{
    let mut piece = [0; PIECE];
    let mut there = [0; PIECE];
    let mut done = 0;
    while done < count {
        let len = (count - done).min(PIECE as u64);
        if !copy_piece(
            from,
            to,
            done,
            &mut piece[..len as usize],
            &mut there[..len as usize],
        )? {
            return Ok(false);
        }
        done += len;
    }
    Ok(to.sync().is_ok())
}

/// Copies as many bytes as the piece has, from a place of the mirrored bytes on, if others are there. False where the other side
/// fails.
fn copy_piece<C: Disk, O: Disk>(
    from: &mut C,
    to: &mut O,
    at: u64,
    piece: &mut [u8],
    there: &mut [u8],
) -> Result<bool, DiskFault>
    requires from { 64 + at + length piece.old ≤ (C.state from.old).size }
    requires to { HasPiece (O.state to.old) at piece.old there.old }
    ensures { Copies (C.state from.old) (O.state to.old) (C.state from.new) (O.state to.new) (64 + at) (length piece.old) (IsCopiedIn (C.state from.old) (O.state to.old) at (length piece.old)) result }
{
    from.read(HEADER + at, piece)?;
    let Ok(()) = to.read(HEADER + at, there) else {
        return Ok(false);
    };
    if are_same(piece, there) {
        return Ok(true);
    }
    Ok(to.write(HEADER + at, piece).is_ok())
}

/// Whether two pieces have the same bytes.
fn are_same(one: &[u8], two: &[u8]) -> bool
    ensures { IsTrue result ↔ (one.now ≡ two.now) }
{
    one == two
}
