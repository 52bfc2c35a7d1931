// Bytes of a block as an access of a line takes them: laid in a buffer, or cut out of one.
ghost use Rattle.std.specs.Prelude.{◌≡◌, ◌+◌, ◌≤◌, IfOk, OnOk, drop, length, replicate, take};
ghost use Rattle.iso_model.specs.Marks.{is_outside};

use iso_model::Memory;
use std::alloc::Global;

/// Whether the `len` bytes from `off` on are none or pass the end of a block.
#[inline]
pub fn is_outside(size: u32, off: u32, len: usize) -> bool
    ensures { result ≡ is_outside size off len }
{
    len == 0 || len > size as usize || off as usize + len > size as usize
}

/// `size` zeros.
///
/// # Errors
///
/// Want of memory.
#[inline]
pub fn zeros(alloc: Global, size: u32) -> Result<Vec<u8>, Memory>
    ensures { IfOk result (λ bytes. length bytes.items ≡ size) }
{
    let bytes = vec![in alloc; 0u8; size as usize]?;
    Ok(bytes)
}

/// Makes the buffer as long as a block.
///
/// # Errors
///
/// Want of memory.
#[inline]
pub fn fit(buffer: &mut Vec<u8>, size: u32) -> Result<(), Memory>
    ensures { OnOk result (length buffer.new.items ≡ size) }
{
    buffer.resize(size as usize, 0)?;
    Ok(())
}

/// Copies the bytes from `off` on, as many as there are places for.
#[inline]
pub fn copy_from(bytes: &mut Vec<u8>, block: &[u8], off: u32)
    requires { off + length bytes.old.items ≤ length block.now }
    ensures { bytes.new.items ≡ take (length bytes.old.items) (drop off block.now) }
{
    let len = bytes.len();
    bytes.copy_from_slice(&block[off as usize..off as usize + len]);
}

/// Makes the buffer a block full of one byte.
///
/// # Errors
///
/// Want of memory. The buffer may have any bytes.
#[inline]
pub fn fill_up(buffer: &mut Vec<u8>, size: u32, byte: u8) -> Result<(), Memory>
    ensures { OnOk result (buffer.new.items ≡ replicate size byte) }
{
    buffer.clear();
    buffer.resize(size as usize, byte)?;
    Ok(())
}
