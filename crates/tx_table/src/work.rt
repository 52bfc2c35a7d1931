// What a transaction does.
ghost use Rattle.std.specs.Prelude.{◌≡◌, ◌+◌, ◌-◌, ◌<◌, ◌≤◌, [], ◌∷◌, ◌++◌, true, false, Some, None, Ok, Err, IsTrue, IsOk, OnOk, OnErr, length, replicate, flat_map, vec_capacity};
ghost use Rattle.byte_marks.specs.Touched.{AreTouched};
ghost use Rattle.iso_model.specs.{declared.access.Geometry.Geometry, declared.access.Kind.TheVariants.{Read, Write}, Array.Array};
ghost use Rattle.iso_model.specs.Effect as model;
ghost use Rattle.iso_model.specs.{Effect.{own, runs, runs_from}, Geometry.is_block_size, Marks.{mark_fault, marked}, Premises.{AreBytes, block_at}, Step.{get_access, put_access, read_access, write_access}};
ghost use Rattle.tx_table.specs.{Patches.{has_patch, AreEffects, HavePatches, RisesFrom}, Work.{span_at, AreWithin, Doing}};

use crate::PatchIter;
use crate::fold::{fold, reopen_touched};
use crate::patches::Patches;
use crate::rows::{Row, apply, reopen_patches, take_rows};
use byte_marks::Touched;
use iso_model::{Geometry, Kind, MAX_ACCESSES, MAX_SPANS, MarkError, Memory, Mode, Span};
use std::alloc::Global;
use std::marker::Model;

/// A transaction's begin, mode and accesses, with a patch of each block that it wrote.
/// The first `applied` accesses are in the patches, and the first `folded` ones in what is touched.
#[derive(Drop)]
pub struct Work {
    alloc: Global,
    begin: u64,
    mode: Mode,
    size: u32,
    blocks: u32,
    rows: Vec<Row>,
    bytes: Vec<u8>,
    patches: Patches,
    ready: Option<u32>,
    reads: Touched,
    writes: Touched,
    applied: usize,
    folded: usize,
}

impl Model for Work {
    ghost use Rattle.std.specs.{Prelude.{true, [], ◌≡◌, ◌≤◌, ◌<◌, ◌+◌, ◌==◌, ◌&&◌, ◌⊎◌, IsTrue, IfSome, length, map, take, vec_capacity}, List.AllByRecursion};
    ghost use Rattle.byte_marks.specs.Touched.{AreTouched};
    ghost use Rattle.iso_model.specs.{declared.access.Kind.TheVariants.{Read, Write}, Geometry.is_block_size};
    ghost use Rattle.tx_table.specs.{Patches.{has_patch, AreEffects, HavePatches}, Work.{access_of, Doing, IsRow}};

    ghost Value = { Doing };

    ghost view = { λ a. record {
      begin = a.begin;
      mode = a.mode;
      size = a.size;
      blocks = a.blocks;
      accesses = map access_of a.rows.items;
      ready = a.ready;
      settled = (a.applied == length a.rows.items) && (a.folded == length a.rows.items);
    } };

    ghost invariant = { λ a.
        (IsTrue (is_block_size a.size)) × (a.patches.size ≡ a.size)
        × (AllByRecursion (λ row. IsRow a.size row × (row.block < a.blocks)) a.rows.items)
        × (a.applied ≤ length a.rows.items) × (a.folded ≤ length a.rows.items)
        × AreEffects a.size (take a.applied (map access_of a.rows.items)) a.patches.entries
        × HavePatches (map access_of a.rows.items) a.patches.entries
        × AreTouched a.size a.blocks Read (take a.folded (map access_of a.rows.items)) a.reads
        × AreTouched a.size a.blocks Write (take a.folded (map access_of a.rows.items)) a.writes
        × IfSome a.ready (λ block.
        (block < a.blocks) × (length a.rows.items < vec_capacity a.rows) × (a.size ≤ vec_capacity a.bytes)
        × ((has_patch block a.patches.entries ≡ true) ⊎ (a.patches.spare ≡ true)))
        × (length a.rows.items ≤ 4096) × (a.bytes.items ≡ []) };
}

// Makes a buffer that is empty, with room for it, a block of zeros with these bytes at `off`.
fn lay_zeros_round(kept: &mut Vec<u8>, size: u32, off: u16, bytes: &[u8])
    requires empty { kept.old.items ≡ [] }
    requires room { size ≤ vec_capacity kept.old }
    requires fits { off + length bytes.now ≤ size }
    ensures laid { kept.new.items ≡ replicate off 0 ++ bytes.now ++ replicate (size - (off + length bytes.now)) 0 }
    ensures values { AreBytes kept.new.items }
{
    let _ = kept.resize(off as usize, 0);
    let _ = kept.extend_from_slice(bytes);
    let _ = kept.resize(size as usize, 0);
}

impl Work {
    /// A transaction that has done nothing. It takes no memory. The mode is the geometry's.
    pub fn begin(alloc: Global, begin: u64, geometry: &Geometry) -> Work
        requires { IsTrue (is_block_size geometry.now.block) }
        ensures { result ≡ record { begin = begin; mode = geometry.now.mode; size = geometry.now.block; blocks = geometry.now.blocks; accesses = []; ready = None; settled = true } }
    {
        Work {
            alloc,
            begin,
            mode: geometry.mode,
            size: geometry.block,
            blocks: geometry.blocks,
            rows: Vec::new(alloc),
            bytes: Vec::new(alloc),
            patches: Patches::empty(alloc, geometry.block),
            ready: None,
            reads: Touched::empty(alloc),
            writes: Touched::empty(alloc),
            applied: 0,
            folded: 0,
        }
    }

    /// Begins anew: a transaction that has done nothing, in blocks of the same size. It takes no memory, and keeps what
    /// the one before took.
    pub fn restart(&mut self, begin: u64, geometry: &Geometry)
        requires { geometry.now.block ≡ self.old.size }
        ensures { self.new ≡ record { begin = begin; mode = geometry.now.mode; size = geometry.now.block; blocks = geometry.now.blocks; accesses = []; ready = None; settled = true } }
    {
        self.begin = begin;
        self.mode = geometry.mode;
        self.blocks = geometry.blocks;
        take_rows(&mut self.rows, &mut self.bytes);
        self.patches.forget();
        self.ready = None;
        self.reads.clear();
        self.writes.clear();
        self.applied = 0;
        self.folded = 0;
    }

    /// The number of the last commit when it began.
    pub fn begun_at(&self) -> u64
        ensures { result ≡ self.now.begin }
    {
        self.begin
    }

    /// Its isolation.
    pub fn mode(&self) -> Mode
        ensures { result ≡ self.now.mode }
    {
        self.mode
    }

    /// How many bytes a block has.
    pub fn block_size(&self) -> u32
        ensures size { result ≡ self.now.size }
        ensures valid { IsTrue (is_block_size result) }
    {
        self.size
    }

    /// How many blocks there are.
    pub fn blocks(&self) -> u32
        ensures { result ≡ self.now.blocks }
    {
        self.blocks
    }

    /// Makes room for one more access to a block, with its bytes and its marks, and for a patch of the block. Where the
    /// room is there already it takes no memory.
    ///
    /// # Errors
    ///
    /// Want of memory. The work is as before.
    pub fn reserve(&mut self, block: u32) -> Result<(), Memory>
        requires { block < self.old.blocks }
        ensures ok { OnOk result (self.new ≡ record self.old { ready = Some block }) }
        ensures err { OnErr result (self.new ≡ self.old) }
        ensures succeeds { self.old.ready ≡ Some block → IsOk result }
    {
        self.rows.reserve(1)?;
        self.bytes.reserve(self.size as usize)?;
        self.patches.reserve(block)?;
        self.ready = Some(block);
        Ok(())
    }

    /// A read of a block, the one for which room was made last; fewer than `MAX_ACCESSES` accesses were made. The slice
    /// is as long as a block and has the block's bytes at the begin: the own writes are laid over them. It takes no
    /// memory.
    pub fn read(&mut self, block: u32, into: &mut [u8])
        requires ready { self.old.ready ≡ Some block }
        requires room { length self.old.accesses < 4096 }
        requires bytes { length into.old ≡ self.old.size }
        ensures work { self.new ≡ record self.old { accesses = self.old.accesses ++ read_access block ∷ []; ready = None; settled = false } }
        ensures shown { (A : Array) → block_at A block ≡ into.old → into.new ≡ block_at (own A self.old.accesses) block }
    {
        apply(self.rows.as_slice(), self.applied, &mut self.patches);
        self.applied = self.rows.len();
        self.patches.lay(block, into);
        self.ready = None;
        let bytes = Vec::new(self.alloc);
        self.rows
            .push_reserved(Row::unmarked(Kind::Read, block, bytes));
    }

    /// A write of a block, the one for which room was made last, with as many bytes as a block has; fewer than
    /// `MAX_ACCESSES` accesses were made. It takes no memory.
    pub fn write(&mut self, block: u32, bytes: &[u8])
        requires ready { self.old.ready ≡ Some block }
        requires room { length self.old.accesses < 4096 }
        requires bytes { length bytes.now ≡ self.old.size }
        ensures { self.new ≡ record self.old { accesses = self.old.accesses ++ write_access block bytes.now ∷ []; ready = None; settled = false } }
    {
        apply(self.rows.as_slice(), self.applied, &mut self.patches);
        self.applied = self.rows.len();
        self.patches.hold(block);
        self.ready = None;
        let mut kept = std::mem::replace(&mut self.bytes, Vec::new(self.alloc));
        let _ = kept.extend_from_slice(bytes);
        self.rows
            .push_reserved(Row::unmarked(Kind::Write, block, kept));
    }

    /// A read of `len` bytes from `off` on, with one mark over them, of a block for which room was made last; fewer than
    /// `MAX_ACCESSES` accesses were made. The slice is as `read` takes it. It takes no memory.
    pub fn get(&mut self, block: u32, off: u16, len: u16, into: &mut [u8])
        requires ready { self.old.ready ≡ Some block }
        requires room { length self.old.accesses < 4096 }
        requires some { 0 < len }
        requires fits { off + len ≤ self.old.size }
        requires bytes { length into.old ≡ self.old.size }
        ensures work { self.new ≡ record self.old { accesses = self.old.accesses ++ get_access block off len ∷ []; ready = None; settled = false } }
        ensures shown { (A : Array) → block_at A block ≡ into.old → into.new ≡ block_at (own A self.old.accesses) block }
    {
        apply(self.rows.as_slice(), self.applied, &mut self.patches);
        self.applied = self.rows.len();
        let own = &self.patches;
        own.lay(block, into);
        self.ready = None;
        let bytes = Vec::new(self.alloc);
        let span = Span { off, len };
        self.rows
            .push_reserved(Row::marked(Kind::Read, block, span, bytes));
    }

    /// A write of these bytes from `off` on in a block of zeros, with one mark over them, of a block for which room was made
    /// last; fewer than `MAX_ACCESSES` accesses were made. It takes no memory.
    pub fn put(&mut self, block: u32, off: u16, bytes: &[u8])
        requires ready { self.old.ready ≡ Some block }
        requires room { length self.old.accesses < 4096 }
        requires some { 0 < length bytes.now }
        requires fits { off + length bytes.now ≤ self.old.size }
        ensures { self.new ≡ record self.old { accesses = self.old.accesses ++ put_access self.old.size block off bytes.now ∷ []; ready = None; settled = false } }
    {
        apply(self.rows.as_slice(), self.applied, &mut self.patches);
        self.applied = self.rows.len();
        self.patches.hold(block);
        self.ready = None;
        let mut kept = std::mem::replace(&mut self.bytes, Vec::new(self.alloc));
        lay_zeros_round(&mut kept, self.size, off, bytes);
        let len = bytes.len() as u16;
        let span = Span { off, len };
        self.rows
            .push_reserved(Row::marked(Kind::Write, block, span, kept));
    }

    /// Marks a range of the last access: the first mark takes the place of the whole block, and further ones add to it.
    ///
    /// # Errors
    ///
    /// The first of these, and the work is as before:
    /// - `BadRange`: the range is empty or passes the end of the block.
    /// - `NoAccess`: there is no access.
    /// - `TooManyMarks`: the last access has `MAX_SPANS` marks.
    pub fn mark(&mut self, off: u16, len: u16) -> Result<(), MarkError>
        ensures ok { OnOk result ((mark_fault self.old.size off len self.old.accesses ≡ None)
            × (self.new ≡ record self.old { accesses = marked (span_at off len) self.old.accesses; settled = false })) }
        ensures err { (fault : MarkError) → result ≡ Err fault → (mark_fault self.old.size off len self.old.accesses ≡ Some fault) × (self.new ≡ self.old) }
    {
        if len == 0 || u32::from(off) + u32::from(len) > self.size {
            return Err(MarkError::BadRange);
        }
        let end = self.rows.len();
        if end == 0 {
            return Err(MarkError::NoAccess);
        }
        let last = end - 1;
        if self.rows[last].count >= MAX_SPANS {
            return Err(MarkError::TooManyMarks);
        }
        self.applied = reopen_patches(self.applied, last, &mut self.patches);
        self.folded = reopen_touched(self.folded, last, &mut self.reads, &mut self.writes);
        self.rows[last].add(Span { off, len });
        Ok(())
    }

    /// How many more accesses there may be.
    pub fn room(&self) -> u32
        ensures { result + length self.now.accesses ≡ 4096 }
    {
        (MAX_ACCESSES - self.rows.len()) as u32
    }

    /// How many accesses there are. Each is one to a block of the image.
    pub fn count(&self) -> usize
        ensures count { result ≡ length self.now.accesses }
        ensures within { AreWithin self.now.size self.now.blocks self.now.accesses }
    {
        self.rows.len()
    }

    /// Whether there is a write.
    pub fn has_write(&self) -> bool
        ensures { result ≡ model.has_write self.now.accesses }
    {
        for row in &self.rows {
            match row.kind {
                Kind::Write => return true,
                Kind::Read => {}
            }
        }
        false
    }

    /// Brings what is touched and what is written up to date with the last accesses and marks. Where it was, it takes
    /// no memory.
    ///
    /// # Errors
    ///
    /// Want of memory. The accesses stay, and it may be called again.
    pub fn settle(&mut self) -> Result<(), Memory>
        ensures ok { OnOk result (self.new ≡ record self.old { settled = true }) }
        ensures err { OnErr result (self.new ≡ record self.old { settled = self.new.settled }) }
        ensures succeeds { self.old.settled ≡ true → IsOk result }
        ensures within { AreWithin self.new.size self.new.blocks self.new.accesses }
    {
        apply(self.rows.as_slice(), self.applied, &mut self.patches);
        self.applied = self.rows.len();
        self.folded = fold(
            self.alloc,
            self.rows.as_slice(),
            self.folded,
            self.size,
            self.blocks,
            &mut self.reads,
            &mut self.writes,
        );
        if self.folded < self.rows.len() {
            return Err(Memory);
        }
        Ok(())
    }

    /// The bytes that the reads cover. The work has to be settled.
    pub fn reads(&self) -> &Touched
        requires { self.now.settled ≡ true }
        ensures { AreTouched self.now.size self.now.blocks Read self.now.accesses result.now }
    {
        &self.reads
    }

    /// The bytes that the writes cover. The work has to be settled.
    pub fn writes(&self) -> &Touched
        requires { self.now.settled ≡ true }
        ensures { AreTouched self.now.size self.now.blocks Write self.now.accesses result.now }
    {
        &self.writes
    }

    /// Hands over what the writes cover, for a set whose memory the work may use. The work has to be settled, and is no
    /// more: what is touched is made anew where it is asked for. It takes no memory.
    pub fn take_writes(&mut self, spare: Touched) -> Touched
        requires { self.old.settled ≡ true }
        ensures touched { AreTouched self.old.size self.old.blocks Write self.old.accesses result }
        ensures work { self.new ≡ record self.old { settled = self.new.settled } }
    {
        let writes = std::mem::replace(&mut self.writes, spare);
        self.writes.clear();
        self.reads.clear();
        self.folded = 0;
        writes
    }

    /// The written blocks, rising, each with its patch: together they are what the accesses write. The work has to be
    /// settled.
    pub fn patches(&self) -> PatchIter<'_>
        requires { self.now.settled ≡ true }
        ensures rising { RisesFrom 0 result }
        ensures effects { AreEffects self.now.size self.now.accesses result }
        ensures all { HavePatches self.now.accesses result }
        ensures runs { (g : Geometry) → g.block ≡ self.now.size → g.blocks ≡ self.now.blocks → flat_map (λ e. runs_from e.0 0 e.1) result ≡ runs g self.now.accesses }
    {
        self.patches.entries()
    }
}
