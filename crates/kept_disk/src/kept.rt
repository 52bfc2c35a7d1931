// The disk whose pages are kept.
ghost use Rattle.std.specs.{Prelude.{◌≡◌, ◌+◌, ◌<◌, ◌≤◌, ℕ, List, Some, None, length, replicate, OnOk, OnErr, IfNone, IfSome, IsSome, IsOk}, List.slice_range, Option.ForSome};
ghost use Rattle.iso_disk.specs.Disk.{TornFrom, Splices, TellsTorn, IsSettled, Elapses};
ghost use Rattle.counts.specs.Count.{one_more, HasCause};
ghost use Rattle.kept_disk.specs.{Holding.{IsOver, WritesThrough}, Pages.{HoldsNone, HoldsRange, Stand}};

use crate::pages::Pages;
use crate::parts::{lay_parts, read_parts};
use iso_disk::{Disk, DiskFault, Image};
use std::alloc::Global;

/// Longer reads go past the pages: they are of an opening or a compaction, and would turn out what is read again.
const LONGEST: usize = 65_536;

/// A disk over another one, of which it keeps the pages that were read, or written as wholes, last: 2,053 of 4 KiB, from byte
/// 96 on, where the blocks of an image begin. It is at each moment what the other is, and each page that it holds has the bytes
/// that the other has there.
///
/// The memory for the pages is taken at the first bind; where there is none, each call goes past them.
#[derive(Drop)]
pub struct Kept<D: Disk> {
    alloc: Global,
    disk: D,
    pages: Pages,
    ghost stand: { ForSome (D.state disk).contents (Stand pages.numbers.items pages.ends.items pages.bytes.items) },
}

impl<D: Disk> Kept<D> {
    /// Over this disk, with no page held. It takes no memory.
    pub fn new(alloc: Global, disk: D) -> Self
        ensures disk { result.disk ≡ disk }
        ensures none { HoldsNone result.pages.numbers.items }
    {
        Kept {
            alloc,
            disk,
            pages: Pages::none(alloc),
        }
    }

    /// The disk below.
    pub fn disk(&self) -> &D
        ensures { result.now ≡ self.now.disk }
    {
        &self.disk
    }

    /// The disk below, without its pages.
    pub fn into_disk(self) -> D
        ensures { result ≡ self.disk }
    {
        self.disk
    }
}

impl<D: Disk> Disk for Kept<D> {
    ghost state = { λ k. D.state k.disk };

    ghost size_fits = { λ k. D.size_fits k.disk };

    ghost lawful = { λ k. D.lawful k.disk };

    fn size(&self) -> u64 {
        self.disk.size()
    }

    /// Where pages hold the whole range, of at most 64 KiB, it makes no call of the disk below. Else it reads the pages
    /// that are not held as wholes, which are then held; a longer range is read past the pages.
    ///
    /// # Errors
    ///
    /// A read of the disk below failed, so never where pages hold the whole range. The page of that read is not held.
    fn read(&mut self, at: u64, into: &mut [u8]) -> Result<(), DiskFault>
        requires { at + length into.old ≤ (D.state self.old.disk).size }
        ensures bytes { OnOk result (ForSome (D.state self.old.disk).contents (λ c. into.new ≡ slice_range c at (at + length into.old))) }
        ensures contents { (D.state self.new.disk).contents ≡ (D.state self.old.disk).contents }
        ensures crash { Elapses (D.state self.old.disk) (D.state self.new.disk) (D.state self.old.disk).now }
        ensures cause { HasCause (D.state self.old.disk).faults (D.state self.new.disk).faults result }
        ensures held { length into.old ≤ 65536 → HoldsRange self.old.pages.numbers.items at (length into.old) → (IsOk result) × (self.new.disk ≡ self.old.disk) }
        ensures holds { OnOk result (2053 ≤ length self.old.pages.numbers.items → length into.old ≤ 65536 → HoldsRange self.new.pages.numbers.items at (length into.old)) }
    {
        if into.len() > LONGEST {
            return self.disk.read(at, into);
        }
        read_parts(&mut self.disk, &mut self.pages, at, into)
    }

    /// Writes to the disk below, and then into the pages that are held; those that it writes as wholes are held then.
    ///
    /// # Errors
    ///
    /// The write of the disk below failed. No page is held then.
    fn write(&mut self, at: u64, bytes: &[u8]) -> Result<(), DiskFault>
        requires { at + length bytes.now ≤ (D.state self.old.disk).size }
        ensures written { OnOk result (Splices at bytes.now (D.state self.old.disk) (D.state self.new.disk)) }
        ensures failed { OnErr result (TellsTorn at (length bytes.now) (D.state self.old.disk) (D.state self.new.disk)) }
        ensures crash { Elapses (D.state self.old.disk) (D.state self.new.disk) (TornFrom at (length bytes.now) (D.state self.old.disk).now) }
        ensures cause { HasCause (D.state self.old.disk).faults (D.state self.new.disk).faults result }
        ensures forgotten { OnErr result (HoldsNone self.new.pages.numbers.items) }
    {
        write_through(&mut self.disk, &mut self.pages, at, bytes)
    }

    fn sync(&mut self) -> Result<(), DiskFault> {
        self.disk.sync()
    }
}

impl<D: Image> Image for Kept<D> {
    /// Binds the disk below. Whatever comes of it, no page is held. A bind after the first one that found memory takes none.
    ///
    /// # Errors
    ///
    /// The bind of the disk below failed.
    fn bind(&mut self, name: &str, want: Option<u64>) -> Result<(), DiskFault>
        ensures size { OnOk result (IfSome want (λ w. (D.state self.new.disk).size ≡ w)) }
        ensures blank { OnOk result (IfSome want (λ w. ForSome (D.state self.new.disk).contents (λ c. c ≡ replicate w 0))) }
        ensures blank_after_crash { OnOk result (IfSome want (λ w. (c : List ℕ) → (D.state self.new.disk).now c → c ≡ replicate w 0)) }
        ensures existing { OnOk result (IfNone want (ForSome ((D.state self.old.disk).named name.now) (λ c. (D.state self.new.disk).contents ≡ Some c))) }
        ensures settled { OnOk result (IfNone want (IsSettled (D.state self.new.disk))) }
        ensures told { OnOk result (IsSome ((D.state self.old.disk).named name.now) → IsSome (D.state self.new.disk).contents) }
        ensures bound { OnOk result ((D.state self.new.disk).bound ≡ Some ((D.state self.new.disk).clock, name.now)) }
        ensures unbound { OnErr result ((D.state self.new.disk).bound ≡ None) }
        ensures counted { (D.state self.new.disk).binds ≡ one_more (D.state self.old.disk).binds }
        ensures cause { HasCause (D.state self.old.disk).faults (D.state self.new.disk).faults result }
        ensures forgotten { HoldsNone self.new.pages.numbers.items }
        ensures again { 0 < length self.old.pages.numbers.items → (self.new.pages.bytes ≡ self.old.pages.bytes) × (length self.new.pages.numbers.items ≡ length self.old.pages.numbers.items) }
    {
        self.pages.start(self.alloc);
        self.disk.bind(name, want)
    }
}

// Writes to the disk, and then into the pages; where it fails, no page is held.
fn write_through<D: Disk>(
    disk: &mut D,
    pages: &mut Pages,
    at: u64,
    bytes: &[u8],
) -> Result<(), DiskFault>
    requires { IsOver (D.state disk.old) pages.old at (length bytes.now) }
    ensures { WritesThrough (D.state disk.old) (D.state disk.new) pages.new at bytes.now result }
{
    if let Err(fault) = disk.write(at, bytes) {
        pages.forget_all();
        return Err(fault);
    }
    lay_parts(pages, at, bytes);
    Ok(())
}
