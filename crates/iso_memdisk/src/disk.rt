// The disk itself.
ghost use Rattle.std.specs.{Prelude.{◌≡◌, ◌+◌, ◌^◌, ◌<◌, ◌≤◌, ◌↔◌, ℕ, List, Some, None, length, replicate, slice_index, OnOk, OnErr, IfOk, IfNone, IfSome, IsErr}, List.slice_range, Option.ForSome};
ghost use Rattle.iso_disk.specs.Disk.{TornFrom, Splices, TellsTorn, IsSettled, Elapses};
ghost use Rattle.counts.specs.Count.{one_more, HasCause};
ghost use Rattle.iso_memdisk.specs.{Record.{written, AllFit}, Held.held};

use crate::failures::{CallKind, Failures};
use crate::record::{Call, crash, lay};
use iso_disk::{Disk, DiskFault, Image};
use iso_model::Memory;
use std::alloc::{AllocError, Global};

/// A disk in memory. It keeps the bytes that it had when it was made or bound, all of them stable, and a record of
/// the writes and syncs since, and the name; so it takes memory for its size, and for what is written.
#[derive(Drop)]
pub struct MemDisk {
    alloc: Global,
    first: Vec<u8>,
    history: Vec<Call>,
    copy: Option<Vec<u8>>,
    name: Option<Vec<u8>>,
    failures: Failures,
    ghost size_fits: { length first.items < 2 ^ 64 },
    ghost writes_fit: { AllFit (length first.items) history.items },
    ghost holds: { held copy first.items ≡ written history.items first.items },
    ghost told_bytes: { (i : ℕ) → slice_index (held copy first.items) i < 256 },
}

impl MemDisk {
    ghost use Rattle.std.specs.{Prelude.{Vec, IsSome}, declared.alloc.Global.Global};
    ghost use Rattle.iso_memdisk.specs.{declared.record.Call.TheVariants.{Write, Sync}, Failures.{no_failures, set_failing}, MemDisk.{bytes_of, bound_of, failures_of, now_of, size_of, synced_of, IsUntouched, Appends, Starts}};

    /// A disk of these bytes. It takes no memory.
    pub fn new(alloc: Global, bytes: Vec<u8>) -> MemDisk
        ensures stable { Starts result bytes.items }
        ensures plan { failures_of result ≡ no_failures }
        ensures unbound { bound_of result ≡ None }
    {
        MemDisk {
            alloc,
            first: bytes,
            history: Vec::new(alloc),
            copy: None,
            name: None,
            failures: Failures::none(),
        }
    }

    /// The next `calls` calls pass, and all later ones fail.
    pub fn fuse(&mut self, calls: u64)
        ensures untouched { IsUntouched self.old self.new }
        ensures plan { failures_of self.new ≡ record (failures_of self.old) { passing = Some calls } }
        ensures bound { bound_of self.new ≡ bound_of self.old }
    {
        self.failures.passing = Some(calls);
    }

    /// Of the calls from now on, the one with this number fails alone, counted from 1.
    pub fn fail(&mut self, number: u64)
        ensures untouched { IsUntouched self.old self.new }
        ensures plan { failures_of self.new ≡ record (failures_of self.old) { failing = number } }
        ensures bound { bound_of self.new ≡ bound_of self.old }
    {
        self.failures.failing = number;
    }

    /// Of the calls of this kind from now on, the one with this number fails alone, counted from 1.
    pub fn fail_kind(&mut self, kind: CallKind, number: u64)
        ensures untouched { IsUntouched self.old self.new }
        ensures plan { failures_of self.new ≡ record (failures_of self.old) { kinds = set_failing kind number (failures_of self.old).kinds } }
        ensures bound { bound_of self.new ≡ bound_of self.old }
    {
        self.failures.kinds.set(kind, number);
    }

    /// How many calls of the disk were made, those that failed and `bind` among them.
    pub fn calls(&self) -> u64
        ensures { result ≡ (failures_of self.now).calls }
    {
        self.failures.calls
    }

    /// How many calls failed for want of memory.
    pub fn starved(&self) -> u64
        ensures { result ≡ (failures_of self.now).starved }
    {
        self.failures.starved
    }

    // What a read gives.
    fn held(&self) -> &[u8]
        ensures bytes { result.now ≡ bytes_of self.now }
        ensures length { length result.now ≡ size_of self.now }
    {
        match &self.copy {
            Some(copy) => copy,
            None => &self.first,
        }
    }

    // Makes the copy that writes change, where there is none yet.
    fn make_copy(&mut self) -> Result<(), AllocError>
        ensures made { OnOk result (IsSome self.new.copy) }
        ensures untouched { IsUntouched self.old self.new }
        ensures name { self.new.name ≡ self.old.name }
        ensures failures { self.new.failures ≡ self.old.failures }
    {
        if self.copy.is_none() {
            self.copy = Some(self.first.to_vec(self.alloc)?);
        }
        Ok(())
    }

    fn try_write(&mut self, at: usize, bytes: &[u8]) -> Result<(), AllocError>
        requires { at + length bytes.now ≤ size_of self.old }
        ensures ok { OnOk result ((put : Vec ℕ Global) × (put.items ≡ bytes.now) × Appends self.old self.new (Write at put)) }
        ensures err { OnErr result (IsUntouched self.old self.new) }
        ensures name { self.new.name ≡ self.old.name }
        ensures failures { self.new.failures ≡ self.old.failures }
    {
        self.make_copy()?;
        let put = bytes.to_vec(self.alloc)?;
        self.history.push(Call::Write { at, bytes: put })?;
        if let Some(copy) = &mut self.copy {
            lay(copy, at, bytes);
        }
        Ok(())
    }

    fn try_sync(&mut self) -> Result<(), AllocError>
        ensures ok { OnOk result (Appends self.old self.new Sync) }
        ensures err { OnErr result (IsUntouched self.old self.new) }
        ensures name { self.new.name ≡ self.old.name }
        ensures failures { self.new.failures ≡ self.old.failures }
    {
        self.history.push(Call::Sync)?;
        Ok(())
    }

    // Makes it a disk of zeros, all of them stable.
    fn make_blank(&mut self, size: u64) -> Result<(), AllocError>
        ensures ok { OnOk result (Starts self.new (replicate size 0)) }
        ensures err { OnErr result (IsUntouched self.old self.new) }
        ensures name { self.new.name ≡ self.old.name }
        ensures failures { self.new.failures ≡ self.old.failures }
    {
        self.first = vec![in self.alloc; 0; size as usize]?;
        self.history.clear();
        self.copy = None;
        Ok(())
    }

    // Makes what it holds stable, and forgets what was before.
    fn settle(&mut self)
        ensures settled { Starts self.new (bytes_of self.old) }
        ensures name { self.new.name ≡ self.old.name }
        ensures failures { self.new.failures ≡ self.old.failures }
    {
        if let Some(copy) = self.copy.take() {
            self.first = copy;
        }
        self.history.clear();
    }

    /// An image that a crash now may leave. Pick 0 gives the bytes as the last sync left them, and pick 1 those that a
    /// read gives. A pick from 2 on lays a byte of its own draws in the place of each byte of each write since the last
    /// sync: in the order of the writes, one draw a byte, whatever was written or was there, and a later write lies
    /// over an earlier one. The seed of the draws is the pick. The clauses promise of such an image only that a crash
    /// may leave it; which bytes are drawn, and that they are drawn anew, tests alone promise.
    ///
    /// # Errors
    ///
    /// Want of memory.
    pub fn crash(&self, alloc: Global, pick: u64) -> Result<Vec<u8>, Memory>
        ensures image { IfOk result (λ image. now_of self.now image.items) }
        ensures synced { pick ≡ 0 → IfOk result (λ image. image.items ≡ synced_of self.now) }
        ensures written { pick ≡ 1 → IfOk result (λ image. image.items ≡ bytes_of self.now) }
    {
        let mut image = self.first.to_vec(alloc)?;
        crash(&mut image, &self.history, pick);
        Ok(image)
    }
}

impl Disk for MemDisk {
    ghost use Rattle.iso_memdisk.specs.{Failures.IsNamed, MemDisk.{state_of, failures_of, IsUntouched, FollowsPlan}, Laws.lawful};

    ghost state = { state_of };

    ghost size_fits = { λ d. d.size_fits };

    ghost lawful = { lawful };

    fn size(&self) -> u64 {
        self.first.len() as u64
    }

    fn read(&mut self, at: u64, into: &mut [u8]) -> Result<(), DiskFault>
        requires { at + length into.old ≤ (state_of self.old).size }
        ensures bytes { OnOk result (ForSome (state_of self.old).contents (λ c. into.new ≡ slice_range c at (at + length into.old))) }
        ensures contents { (state_of self.new).contents ≡ (state_of self.old).contents }
        ensures crash { Elapses (state_of self.old) (state_of self.new) (state_of self.old).now }
        ensures cause { HasCause (state_of self.old).faults (state_of self.new).faults result }
        ensures named { IsErr result ↔ IsNamed CallKind.Read (failures_of self.old) }
        ensures untouched { IsUntouched self.old self.new }
        ensures plan { FollowsPlan CallKind.Read self.old self.new result }
    {
        self.failures.count_call(CallKind::Read)?;
        let from = at as usize;
        into.copy_from_slice(&self.held()[from..from + into.len()]);
        Ok(())
    }

    fn write(&mut self, at: u64, bytes: &[u8]) -> Result<(), DiskFault>
        requires { at + length bytes.now ≤ (state_of self.old).size }
        ensures written { OnOk result (Splices at bytes.now (state_of self.old) (state_of self.new)) }
        ensures failed { OnErr result (TellsTorn at (length bytes.now) (state_of self.old) (state_of self.new)) }
        ensures crash { Elapses (state_of self.old) (state_of self.new) (TornFrom at (length bytes.now) (state_of self.old).now) }
        ensures cause { HasCause (state_of self.old).faults (state_of self.new).faults result }
        ensures plan { FollowsPlan CallKind.Write self.old self.new result }

        // Any bytes in the range may be left, not only the written ones.
        ensures any_bytes { OnOk result ((c : List ℕ) → TornFrom at (length bytes.now) (state_of self.old).now c → (state_of self.new).now c) }
    {
        self.failures.count_call(CallKind::Write)?;
        match self.try_write(at as usize, bytes) {
            Ok(()) => Ok(()),
            Err(_) => Err(self.failures.starve()),
        }
    }

    fn sync(&mut self) -> Result<(), DiskFault>
        ensures settled { OnOk result (IsSettled (state_of self.new)) }
        ensures contents { (state_of self.new).contents ≡ (state_of self.old).contents }
        ensures crash { Elapses (state_of self.old) (state_of self.new) (state_of self.old).now }
        ensures cause { HasCause (state_of self.old).faults (state_of self.new).faults result }
        ensures plan { FollowsPlan CallKind.Sync self.old self.new result }
    {
        self.failures.count_call(CallKind::Sync)?;
        match self.try_sync() {
            Ok(()) => Ok(()),
            Err(_) => Err(self.failures.starve()),
        }
    }
}

impl Image for MemDisk {
    ghost use Rattle.iso_memdisk.specs.MemDisk.{state_of, FollowsPlan};

    fn bind(&mut self, name: &str, want: Option<u64>) -> Result<(), DiskFault>
        ensures size { OnOk result (IfSome want (λ w. (state_of self.new).size ≡ w)) }
        ensures blank { OnOk result (IfSome want (λ w. ForSome (state_of self.new).contents (λ c. c ≡ replicate w 0))) }
        ensures blank_after_crash { OnOk result (IfSome want (λ w. (c : List ℕ) → (state_of self.new).now c → c ≡ replicate w 0)) }
        ensures existing { OnOk result (IfNone want (ForSome ((state_of self.old).named name.now) (λ c. (state_of self.new).contents ≡ Some c))) }
        ensures settled { OnOk result (IfNone want (IsSettled (state_of self.new))) }
        ensures cause { HasCause (state_of self.old).faults (state_of self.new).faults result }
        ensures bound { OnOk result ((state_of self.new).bound ≡ Some ((state_of self.new).clock, name.now)) }
        ensures unbound { OnErr result ((state_of self.new).bound ≡ None) }
        ensures counted { (state_of self.new).binds ≡ one_more (state_of self.old).binds }
        ensures plan { FollowsPlan CallKind.Bind self.old self.new result }
    {
        self.name = None;
        self.failures.count_call(CallKind::Bind)?;
        let put = match name.as_bytes().to_vec(self.alloc) {
            Ok(put) => put,
            Err(_) => return Err(self.failures.starve()),
        };
        match want {
            Some(size) => match self.make_blank(size) {
                Ok(()) => {
                    self.name = Some(put);
                    Ok(())
                }
                Err(_) => Err(self.failures.starve()),
            },
            None => {
                self.settle();
                self.name = Some(put);
                Ok(())
            }
        }
    }
}
