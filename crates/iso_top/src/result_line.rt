// The line of a result, made in a fixed buffer.
ghost use Rattle.std.specs.Prelude.{◌≡◌, ◌⊎◌, ◌+◌, ◌≤◌, [], ◌∷◌, ◌++◌, codes, decimal, length};
ghost use Rattle.arrayvec.specs.ArrayVec.{array_vec_len};
ghost use Rattle.script_model.specs.Text.{hex_text};
ghost use Rattle.iso_top.specs.{Prints.{WasCut, WroteWhole}, Texts.{bench_text_of, recover_text}};

use arrayvec::ArrayVec;
use iso_io::{Sink, put_all};
use itoa::Buffer;
use script_text::write_hex;

/// How many bytes the line of a result may have.
const ROOM: usize = 192;

/// Puts the line of a result. The status is 0, and where the sink fails, 7.
pub(crate) fn put_result<K: Sink>(output: &mut K, line: &[u8]) -> u8
    ensures { ((result ≡ 0) × WroteWhole (K.state output.old) (K.state output.new) line.now)
        ⊎ ((result ≡ 7) × WasCut (K.state output.old) (K.state output.new) line.now) }
{
    match put_all(output, line) {
        Ok(()) => 0,
        Err(_) => 7,
    }
}

/// Adds a text, for which there is room.
fn push_text(line: &mut ArrayVec<u8, ROOM>, text: &[u8])
    requires { array_vec_len line.old + length text.now ≤ ROOM }
    ensures { line.new.items ≡ line.old.items ++ text.now }
{
    line.try_extend_from_slice(text).unwrap();
}

/// Adds a text and a number, for which there is room.
fn push_number(line: &mut ArrayVec<u8, ROOM>, text: &[u8], number: u64)
    requires { array_vec_len line.old + length text.now + 20 ≤ ROOM }
    ensures text { line.new.items ≡ line.old.items ++ (text.now ++ decimal number) }
    ensures room { array_vec_len line.new ≤ array_vec_len line.old + length text.now + 20 }
{
    let mut digits = Buffer::new();
    push_text(line, text);
    push_text(line, digits.format(number).as_bytes());
}

/// Adds a digest and a line feed, for which there is room.
fn push_digest(line: &mut ArrayVec<u8, ROOM>, digest: &[u8; 32])
    requires { array_vec_len line.old + 73 ≤ ROOM }
    ensures { line.new.items ≡ line.old.items ++ (codes " sha256 " ++ (hex_text digest.now ++ 10 ∷ [])) }
{
    let mut digits = [0; 64];
    write_hex(digest, &mut digits);
    push_text(line, b" sha256 ");
    push_text(line, &digits);
    push_text(line, b"\n");
}

/// The line of `recover`.
pub(crate) fn recover_line(last: u64, base: u64, digest: &[u8; 32]) -> ArrayVec<u8, ROOM>
    ensures { result.items ≡ recover_text last base digest.now }
{
    let mut line = ArrayVec::new();
    push_number(&mut line, b"last ", last);
    push_number(&mut line, b" base ", base);
    push_digest(&mut line, digest);
    line
}

/// The line of `bench`.
pub(crate) fn bench_line(
    rounds: u32,
    commits: u64,
    conflicts: u64,
    digest: &[u8; 32],
) -> ArrayVec<u8, ROOM>
    ensures { result.items ≡ bench_text_of rounds commits conflicts digest.now }
{
    let mut line = ArrayVec::new();
    push_number(&mut line, b"rounds ", u64::from(rounds));
    push_number(&mut line, b" commits ", commits);
    push_number(&mut line, b" conflicts ", conflicts);
    push_digest(&mut line, digest);
    line
}
