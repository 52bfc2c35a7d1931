// Texts that grow at their end.
ghost use Rattle.std.specs.Prelude.{◌≡◌, ◌+◌, ◌*◌, ◌++◌, decimal, length, take};
ghost use Rattle.script_model.specs.Text.{dashed, hex_text};
ghost use Rattle.script_text.specs.Adding.{Adds, AddsAll};

use iso_model::Memory;
use itoa::Buffer;

/// Adds bytes.
pub(crate) fn push_bytes(out: &mut Vec<u8>, bytes: &[u8]) -> Result<(), Memory>
    ensures { AddsAll result out.old.items out.new.items bytes.now }
{
    Ok(out.extend_from_slice(bytes)?)
}

/// Adds a number in decimal.
pub(crate) fn push_number(out: &mut Vec<u8>, number: u64) -> Result<(), Memory>
    ensures { AddsAll result out.old.items out.new.items (decimal number) }
{
    let mut buffer = Buffer::new();
    push_bytes(out, buffer.format(number).as_bytes())
}

/// Adds bytes in hexadecimal.
pub(crate) fn push_hex(out: &mut Vec<u8>, bytes: &[u8]) -> Result<(), Memory>
    ensures { AddsAll result out.old.items out.new.items (hex_text bytes.now) }
{
    let start = out.len();
    let size = 2 * bytes.len();
    out.reserve(size)?;
    out.resize(start + size, 0)?;
    write_behind(bytes, out.as_mut_slice(), start);
    Ok(())
}

/// Writes bytes in hexadecimal after the first ones of a text, which ends where they do.
fn write_behind(bytes: &[u8], text: &mut [u8], start: usize)
    requires { length text.old ≡ start + 2 * length bytes.now }
    ensures { text.new ≡ take start text.old ++ hex_text bytes.now }
{
    let (_, room) = text.split_at_mut(start);
    write_hex(bytes, room);
}

/// Writes bytes in hexadecimal into their room.
pub fn write_hex(bytes: &[u8], room: &mut [u8])
    requires { length room.old ≡ 2 * length bytes.now }
    ensures { room.new ≡ hex_text bytes.now }
{
    // The room is that of the digits, so this does not fail.
    let _ = hex::encode_to_slice(bytes, room);
}

/// Adds a text and a key or a value of a store. Without memory a part of that may be added.
pub(crate) fn push_dashed(out: &mut Vec<u8>, text: &[u8], bytes: &[u8]) -> Result<(), Memory>
    ensures { Adds result out.old.items out.new.items (text.now ++ dashed bytes.now) }
{
    push_bytes(out, text)?;
    if bytes.is_empty() {
        return push_bytes(out, b"-");
    }
    push_hex(out, bytes)
}
