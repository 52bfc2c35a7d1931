// A set of bytes of one block.
ghost use Rattle.std.specs.{Prelude.{◌≡◌, ℕ, ◌+◌, ◌<◌, ◌≤◌, ◌||◌, ◌&&◌, false, IsTrue, IfOk, OnOk, OnErr, IfSome, IfNone, length}, Bool.{OnTrue, OnFalse}, List.list_any};
ghost use Rattle.iso_model.specs.Array.{in_span};
ghost use Rattle.byte_marks.specs.Marks.{has, in_extent, run_count, AreApartFrom, AreRuns};

use crate::SpanIter;
use crate::extent::Extent;
use crate::meet::{has_all, least_common};
use crate::merge::{Extents, join_last, merged, next_free};
use iso_model::{Memory, Span};
use smallvec::SmallVec;
use std::alloc::Global;
use std::marker::Model;

/// A set of bytes of one block of at most 4,096, kept as its maximal runs. Up to eight of them are in the value itself.
#[derive(Drop)]
pub struct Marks {
    extents: Extents,
}

impl Model for Marks {
    ghost use Rattle.std.specs.Prelude.{List};
    ghost use Rattle.byte_marks.specs.{declared.extent.Extent.Extent, Marks.AreApartFrom};

    ghost Value = { List Extent };

    ghost view = { λ a. a.extents.items };

    ghost invariant = { λ a. AreApartFrom 0 a.extents.items };
}

impl Marks {
    /// No byte. It takes no memory.
    pub fn empty(alloc: Global) -> Marks
        ensures set { (p : ℕ) → has result p ≡ false }
        ensures none { run_count result ≡ 0 }
    {
        Marks {
            extents: SmallVec::new(alloc),
        }
    }

    /// The bytes of a span alone. It takes no memory.
    pub fn of(alloc: Global, span: Span) -> Marks
        requires some { 0 < span.len }
        requires inside { span.off + span.len ≤ 4096 }
        ensures set { (p : ℕ) → has result p ≡ in_span p span }
        ensures one { run_count result ≡ 1 }
    {
        let added = Extent {
            from: span.off,
            to: span.off + span.len,
        };
        Marks {
            extents: SmallVec::from_buf_and_len(alloc, [added; 8], 1),
        }
    }

    /// Whether no byte is in the set.
    pub fn is_empty(&self) -> bool
        ensures none { OnTrue result ((p : ℕ) → has self.now p ≡ false) }
        ensures some { OnFalse result ((p : ℕ) × IsTrue (has self.now p)) }
    {
        self.extents.is_empty()
    }

    /// Adds the bytes of a span. It takes no memory up to eight runs.
    ///
    /// # Errors
    ///
    /// Want of memory. The set stays as it is.
    pub fn add(&mut self, span: Span) -> Result<(), Memory>
        requires some { 0 < span.len }
        requires inside { span.off + span.len ≤ 4096 }
        ensures set { OnOk result ((p : ℕ) → has self.new p ≡ (has self.old p || in_span p span)) }
        ensures err { OnErr result (self.new ≡ self.old) }
        ensures count { run_count self.new ≤ run_count self.old + 1 }
        ensures full { OnErr result (8 ≤ run_count self.old) }
    {
        let added = Extent {
            from: span.off,
            to: span.off + span.len,
        };
        let places = self.extents.capacity();
        prove!(places >= 8);
        if next_free(self.extents.as_slice()) <= added.from {
            self.extents.push(added)?;
            return Ok(());
        }
        self.weave(added)
    }

    // Adds an extent that does not come after all others.
    #[inline(never)]
    fn weave(&mut self, added: Extent) -> Result<(), Memory>
        requires some { added.from < added.to }
        requires inside { added.to ≤ 4096 }
        ensures set { OnOk result ((p : ℕ) → has self.new p ≡ (has self.old p || in_extent p added)) }
        ensures err { OnErr result (self.new ≡ self.old) }
        ensures count { run_count self.new ≤ run_count self.old + 1 }
        ensures full { OnErr result (8 ≤ run_count self.old) }
    {
        if join_last(&mut self.extents, added) {
            return Ok(());
        }
        self.extents = merged(*self.extents.allocator(), self.extents.as_slice(), &[added])?;
        Ok(())
    }

    /// Adds the bytes of another set. It takes no memory where both together have at most eight runs.
    ///
    /// # Errors
    ///
    /// Want of memory. The set stays as it is.
    pub fn union(&mut self, other: &Marks) -> Result<(), Memory>
        ensures set { OnOk result ((p : ℕ) → has self.new p ≡ (has self.old p || has other.now p)) }
        ensures err { OnErr result (self.new ≡ self.old) }
        ensures count { run_count self.new ≤ run_count self.old + run_count other.now }
        ensures full { OnErr result (8 < run_count self.old + run_count other.now) }
    {
        self.extents = merged(
            *self.extents.allocator(),
            self.extents.as_slice(),
            other.extents.as_slice(),
        )?;
        Ok(())
    }

    /// Whether some byte is in both sets.
    pub fn meets(&self, other: &Marks) -> bool
        ensures met { OnTrue result ((p : ℕ) × IsTrue (has self.now p && has other.now p)) }
        ensures apart { OnFalse result ((p : ℕ) → (has self.now p && has other.now p) ≡ false) }
    {
        self.first_meet(other).is_some()
    }

    /// The least byte that is in both sets, and none exactly where there is none.
    pub fn first_meet(&self, other: &Marks) -> Option<u16>
        ensures found { IfSome result (λ q. IsTrue (has self.now q && has other.now q)) }
        ensures least { IfSome result (λ q. (p : ℕ) → p < q → (has self.now p && has other.now p) ≡ false) }
        ensures none { IfNone result ((p : ℕ) → (has self.now p && has other.now p) ≡ false) }
    {
        least_common(self.extents.as_slice(), other.extents.as_slice())
    }

    /// Whether all bytes of a span are in the set.
    pub fn covers(&self, span: Span) -> bool
        ensures all { OnTrue result ((p : ℕ) → IsTrue (in_span p span) → IsTrue (has self.now p)) }
        ensures missing { OnFalse result ((p : ℕ) × IsTrue (in_span p span) × (has self.now p ≡ false)) }
    {
        has_all(self.extents.as_slice(), span)
    }

    /// A copy of the set. It takes no memory up to eight runs.
    ///
    /// # Errors
    ///
    /// Want of memory.
    pub fn copy(&self) -> Result<Marks, Memory>
        ensures same { IfOk result (λ copy. copy ≡ self.now) }
        ensures full { OnErr result (8 < run_count self.now) }
    {
        let extents = SmallVec::from_slice(*self.extents.allocator(), self.extents.as_slice())?;
        Ok(Marks { extents })
    }

    /// The maximal runs of the set, rising.
    pub fn spans(&self) -> SpanIter<'_>
        ensures set { (p : ℕ) → list_any (in_span p) result ≡ has self.now p }
        ensures runs { AreRuns result }
        ensures count { length result ≡ run_count self.now }
    {
        SpanIter::of(self.extents.as_slice())
    }
}
