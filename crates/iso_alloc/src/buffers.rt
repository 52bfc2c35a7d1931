// Buffers of a call, and the tests of its arguments.
ghost use Rattle.std.specs.Prelude.{◌≡◌, ◌≤◌, IfOk, IfErr, length, take, true};
ghost use Rattle.store_model.specs.{Cells.{is_part, text_of}, HashCalls.{is_key, is_value}};

use crate::parts::text_of;
use std::alloc::Global;
use store_model::StoreError;

/// A buffer of `size` bytes.
///
/// # Errors
///
/// `Memory`: want of memory.
pub fn buffer(alloc: Global, size: usize) -> Result<Vec<u8>, StoreError>
    ensures size { IfOk result (λ v. length v.items ≡ size) }
    ensures memory { IfErr result (λ e. e ≡ StoreError.Memory) }
{
    match vec![in alloc; 0u8; size] {
        Ok(v) => Ok(v),
        Err(_) => Err(StoreError::Memory),
    }
}

// Puts the text at the start of the bytes.
fn lay_first(into: &mut [u8], text: &[u8])
    requires { length text.now ≤ length into.old }
    ensures { take (length text.now) into.new ≡ text.now }
{
    let n = text.len();
    into[..n].copy_from_slice(text);
}

/// The bytes that a part spells, in a buffer that has room for them.
pub fn spelled(part: &[u8], mut room: Vec<u8>) -> Vec<u8>
    requires part { is_part 32 part.now ≡ true }
    requires long { length part.now ≡ 33 }
    requires room { length room.items ≡ 32 }
    ensures { result.items ≡ text_of part.now }
{
    let text = text_of(part);
    lay_first(&mut room, text);
    room.truncate(text.len());
    room
}

/// Whether the key has 1 to 28 bytes.
pub fn is_key(key: &[u8]) -> bool
    ensures { result ≡ is_key key.now }
{
    1 <= key.len() && key.len() <= 28
}

/// Whether the value has at most 32 bytes.
pub fn is_value(value: &[u8]) -> bool
    ensures { result ≡ is_value value.now }
{
    value.len() <= 32
}
