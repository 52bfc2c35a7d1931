// A set of bytes for each block.
ghost use Rattle.std.specs.{Prelude.{◌≡◌, ℕ, ◌<◌, ◌≤◌, ◌==◌, ◌||◌, ◌&&◌, false, IsTrue, IfOk, OnOk, OnErr, IfSome, IfNone, List, length, slice_index_or}, Bool.{OnTrue, OnFalse}};
ghost use Rattle.byte_marks.specs.{declared.extent.Extent.Extent, Marks.has, Touched.{touches, RisesFrom}};

use crate::Marks;
use iso_model::Memory;
use std::alloc::Global;
use std::marker::Model;

/// For each block, rising, the bytes that a transaction's reads or its writes touch.
#[derive(Drop)]
pub struct Touched {
    entries: Vec<(u32, Marks)>,
}

impl Model for Touched {
    ghost use Rattle.std.specs.Prelude.{List, ℕ};
    ghost use Rattle.byte_marks.specs.{declared.extent.Extent.Extent, Touched.RisesFrom};

    ghost Value = { List (ℕ × List Extent) };

    ghost view = { λ a. a.entries.items };

    ghost invariant = { λ a. RisesFrom 0 a.entries.items };
}

// Whether the block is after those of all entries.
fn is_behind(entries: &[(u32, Marks)], block: u32) -> bool
    requires { RisesFrom 0 entries.now }
    ensures { OnTrue result ((k : ℕ) → k < length entries.now → (d : ℕ × List Extent) → (slice_index_or entries.now k d).0 < block) }
{
    let Some((last, _)) = entries.split_last() else {
        return true;
    };
    if block <= last.0 {
        return false;
    }
    true
}

// The place of the first entry whose block is not below this one.
fn place_of(entries: &[(u32, Marks)], block: u32) -> usize
    requires { RisesFrom 0 entries.now }
    ensures within { result ≤ length entries.now }
    ensures before { (k : ℕ) → k < result → (d : ℕ × List Extent) → (slice_index_or entries.now k d).0 < block }
    ensures after { (k : ℕ) → result ≤ k → k < length entries.now → (d : ℕ × List Extent) → block ≤ (slice_index_or entries.now k d).0 }
{
    entries.partition_point(|entry| entry.0 < block)
}

// The least block, and the least byte of it, that both have.
fn least_common_byte(mut a: &[(u32, Marks)], mut b: &[(u32, Marks)]) -> Option<(u32, u16)>
    requires a { RisesFrom 0 a.now }
    requires b { RisesFrom 0 b.now }
    ensures found { IfSome result (λ q. IsTrue (touches a.entry.now q.0 q.1 && touches b.entry.now q.0 q.1)) }
    ensures least_block { IfSome result (λ q. (b' p : ℕ) → b' < q.0 → (touches a.entry.now b' p && touches b.entry.now b' p) ≡ false) }
    ensures least_byte { IfSome result (λ q. (p : ℕ) → p < q.1 → (touches a.entry.now q.0 p && touches b.entry.now q.0 p) ≡ false) }
    ensures none { IfNone result ((b' p : ℕ) → (touches a.entry.now b' p && touches b.entry.now b' p) ≡ false) }
{
    while let (Some((x, xs)), Some((y, ys))) = (a.split_first(), b.split_first()) {
        if x.0 < y.0 {
            a = xs;
        } else if y.0 < x.0 {
            b = ys;
        } else {
            if let Some(at) = x.1.first_meet(&y.1) {
                return Some((x.0, at));
            }
            a = xs;
            b = ys;
        }
    }
    None
}

// Whether no entry has a byte. A block may be there without one, so the list alone does not say it.
fn touch_none(mut rest: &[(u32, Marks)]) -> bool
    ensures none { OnTrue result ((b p : ℕ) → touches rest.entry.now b p ≡ false) }
    ensures some { OnFalse result ((b : ℕ) × (p : ℕ) × IsTrue (touches rest.entry.now b p)) }
{
    while let Some((first, others)) = rest.split_first() {
        if !first.1.is_empty() {
            return false;
        }
        rest = others;
    }
    true
}

impl Touched {
    /// No byte of any block. It takes no memory.
    pub fn empty(alloc: Global) -> Touched
        ensures { (b p : ℕ) → touches result b p ≡ false }
    {
        Touched {
            entries: Vec::new(alloc),
        }
    }

    /// Whether no byte of any block is touched.
    pub fn is_empty(&self) -> bool
        ensures none { OnTrue result ((b p : ℕ) → touches self.now b p ≡ false) }
        ensures some { OnFalse result ((b : ℕ) × (p : ℕ) × IsTrue (touches self.now b p)) }
    {
        touch_none(self.entries.as_slice())
    }

    /// Touches no byte any more. The memory stays for what comes.
    pub fn clear(&mut self)
        ensures { (b p : ℕ) → touches self.new b p ≡ false }
    {
        self.entries.clear();
    }

    /// Adds bytes of a block.
    ///
    /// # Errors
    ///
    /// Want of memory. All stays as it is.
    pub fn add(&mut self, block: u32, marks: &Marks) -> Result<(), Memory>
        ensures set { OnOk result ((b p : ℕ) → touches self.new b p ≡ (touches self.old b p || ((block == b) && has marks.now p))) }
        ensures err { OnErr result (self.new ≡ self.old) }
    {
        self.put(block, marks.copy()?)
    }

    /// Adds bytes of a block, which are handed over.
    ///
    /// # Errors
    ///
    /// Want of memory. All stays as it is.
    pub fn put(&mut self, block: u32, marks: Marks) -> Result<(), Memory>
        ensures set { OnOk result ((b p : ℕ) → touches self.new b p ≡ (touches self.old b p || ((block == b) && has marks p))) }
        ensures err { OnErr result (self.new ≡ self.old) }
    {
        if is_behind(self.entries.as_slice(), block) {
            self.entries.push((block, marks))?;
            return Ok(());
        }
        self.put_among(block, marks)
    }

    // Adds bytes of a block that does not come after all others.
    fn put_among(&mut self, block: u32, marks: Marks) -> Result<(), Memory>
        ensures set { OnOk result ((b p : ℕ) → touches self.new b p ≡ (touches self.old b p || ((block == b) && has marks p))) }
        ensures err { OnErr result (self.new ≡ self.old) }
    {
        let place = place_of(self.entries.as_slice(), block);
        if place < self.entries.len() && self.entries[place].0 == block {
            self.entries[place].1.union(&marks)?;
        } else {
            self.entries.insert(place, (block, marks))?;
        }
        Ok(())
    }

    /// The least block, and the least byte of it, that is in both, and none exactly where there is none.
    pub fn first_meet(&self, other: &Touched) -> Option<(u32, u16)>
        ensures found { IfSome result (λ q. IsTrue (touches self.now q.0 q.1 && touches other.now q.0 q.1)) }
        ensures least_block { IfSome result (λ q. (b p : ℕ) → b < q.0 → (touches self.now b p && touches other.now b p) ≡ false) }
        ensures least_byte { IfSome result (λ q. (p : ℕ) → p < q.1 → (touches self.now q.0 p && touches other.now q.0 p) ≡ false) }
        ensures none { IfNone result ((b p : ℕ) → (touches self.now b p && touches other.now b p) ≡ false) }
    {
        least_common_byte(self.entries.as_slice(), other.entries.as_slice())
    }

    /// A copy of the set.
    ///
    /// # Errors
    ///
    /// Want of memory.
    pub fn copy(&self) -> Result<Touched, Memory>
        ensures { IfOk result (λ copy. copy ≡ self.now) }
    {
        let mut entries = Vec::with_capacity(*self.entries.allocator(), self.entries.len())?;
        for entry in &self.entries {
            entries.push((entry.0, entry.1.copy()?))?;
        }
        Ok(Touched { entries })
    }
}
