// Bytes that are laid over a block.
ghost use Rattle.std.specs.{Prelude.{◌≡◌, ℕ, ◌+◌, ◌<◌, ◌≤◌, ◌&&◌, Some, None, IsTrue, IfOk, cond, length, map, nat_le, nat_lt, replicate, slice_index, slice_index_or}, List.All};
ghost use Rattle.iso_model.specs.{Effect.runs_from, Geometry.is_block_size};
ghost use Rattle.merge_write.specs.Patch.{written, laid, followed, piece};

use crate::PatchSpans;
use crate::copy::copy_range;
use crate::lanes::lay;
use crate::masks::{join_bits, set_bits};
use iso_model::{Memory, Span, SpanList};
use std::alloc::Global;
use std::marker::Model;

/// The bytes of a block, and a row of masks with one bit for each: the bytes whose bit is set count.
/// Contracts see, for each byte of the block, the value that it is set to, if it is set.
#[derive(Drop)]
pub struct Patch {
    bytes: Vec<u8>,
    masks: Vec<u64>,
}

impl Model for Patch {
    ghost use Rattle.std.specs.Prelude.{List, Option, ℕ};
    ghost use Rattle.merge_write.specs.Patch.{values_from, IsRow};

    ghost Value = { List (Option ℕ) };

    ghost view = { λ a. values_from a.masks.items 0 a.bytes.items };

    ghost invariant = { λ a. IsRow a.bytes.items a.masks.items };
}

impl Patch {
    /// A patch of a block size that sets no byte.
    ///
    /// # Errors
    ///
    /// Want of memory.
    pub fn blank(alloc: Global, block: u32) -> Result<Patch, Memory>
        requires { IsTrue (is_block_size block) }
        ensures { IfOk result (λ patch. patch ≡ replicate block None) }
    {
        let block = block as usize;
        Ok(Patch {
            bytes: vec![in alloc; 0; block]?,
            masks: vec![in alloc; 0; block / 64]?,
        })
    }

    /// Sets the bytes that the spans cover, and the whole block where there are none. There are as many bytes as the
    /// block has.
    pub fn set(&mut self, bytes: &[u8], spans: &SpanList)
        requires bytes { length bytes.now ≡ length self.old }
        requires spans { All (λ span. span.off + span.len ≤ length self.old) spans.now }
        ensures len { length self.new ≡ length self.old }
        ensures values { self.new ≡ written spans.now 0 self.old bytes.now }
    {
        self.set_spans(bytes, spans.as_slice());
    }

    /// Sets the bytes as `set`, with the spans of a slice.
    pub fn set_spans(&mut self, bytes: &[u8], spans: &[Span])
        requires bytes { length bytes.now ≡ length self.old }
        requires spans { All (λ span. span.off + span.len ≤ length self.old) spans.now }
        ensures len { length self.new ≡ length self.old }
        ensures values { self.new ≡ written spans.now 0 self.old bytes.now }
    {
        if spans.is_empty() {
            self.set_range(bytes, 0, bytes.len());
            return;
        }
        if let [only] = spans {
            let start = only.off as usize;
            self.set_range(bytes, start, start + only.len as usize);
            return;
        }
        for span in spans {
            let from = span.off as usize;
            self.set_range(bytes, from, from + span.len as usize);
        }
    }

    /// Sets no byte any more.
    pub fn clear(&mut self)
        ensures { self.new ≡ replicate (length self.old) None }
    {
        for at in 0..self.masks.len() {
            self.masks[at] = 0;
        }
    }

    fn set_range(&mut self, bytes: &[u8], from: usize, to: usize)
        requires bytes { length bytes.now ≡ length self.old }
        requires order { from ≤ to }
        requires range { to ≤ length self.old }
        ensures len { length self.new ≡ length self.old }
        ensures values { (k : ℕ) → k < length self.old
            → slice_index_or self.new k None ≡ cond (nat_le from k && nat_lt k to) (Some (slice_index bytes.now k)) (slice_index_or self.old k None) }
    {
        copy_range(bytes, from, to, &mut self.bytes);
        set_bits(&mut self.masks, from, to);
    }

    /// Replaces the bytes of a block that are set. The slice is as long as the block.
    pub fn over(&self, into: &mut [u8])
        requires { length into.old ≡ length self.now }
        ensures { into.new ≡ laid self.now into.old }
    {
        lay(&self.bytes, &self.masks, into);
    }

    /// Makes the patch itself followed by a later one.
    pub fn then(&mut self, later: &Patch)
        requires { length later.now ≡ length self.old }
        ensures len { length self.new ≡ length self.old }
        ensures values { self.new ≡ followed self.old later.now }
    {
        lay(&later.bytes, &later.masks, &mut self.bytes);
        join_bits(&mut self.masks, &later.masks);
    }

    /// The maximal runs of the bytes that are set, rising, each with its bytes.
    pub fn spans(&self) -> PatchSpans<'_>
        ensures { result ≡ map piece (runs_from 0 0 self.now) }
    {
        PatchSpans::of(&self.bytes, &self.masks)
    }
}
