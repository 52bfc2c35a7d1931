// The disk over a real file. It is opaque, so its clauses are on sizes, counts, causes and what is bound: what
// the file holds is trusted.
ghost use Rattle.std.specs.{Prelude.{◌≡◌, ◌^◌, ◌<◌, ◌≤◌, ◌↔◌, None, IsOk, IsTrue}, Option.option_map};
ghost use Rattle.counts.specs.Count.{HasCause, Rose, faults_after, one_more};
ghost use Rattle.iso_disk.specs.Untold.{untold, untold_is_lawful};

use crate::files::{new_file, open_file, read_all, write_all};
use counts::raise;
use iso_disk::{Disk, DiskFault, Image};
use std::alloc::Global;
use std::fs::File;
use std::rt::Files;

/// A file of a fixed size, read and written in place, whose lock is held for as long as it is bound.
///
/// Each call that fails is one fault more. `read` and `write` fail where the system does not take or give all the
/// bytes; a `write` that failed may have written some of them. `sync` fails where the system cannot say that all is
/// stable. Each fails on a disk that is not bound, and none makes a system call anew that has failed.
#[derive(Drop)]
pub struct FileDisk<R: Files<File = File> + Drop> {
    pub(crate) rt: R,
    alloc: Global,
    file: Option<File>,
    name: Option<Vec<u8>>,
    size: u64,
    faults: u64,
    binds: u64,
    ghost fits: { size < 2 ^ 64 },
}

impl<R: Files<File = File> + Drop> FileDisk<R> {
    /// A disk that is not bound yet: of no bytes, and with no fault.
    pub fn new(rt: R, alloc: Global) -> Self
        ensures size { result.size ≡ 0 }
        ensures unbound { result.name ≡ None }
        ensures faults { result.faults ≡ 0 }
        ensures binds { result.binds ≡ 0 }
    {
        FileDisk {
            rt,
            alloc,
            file: None,
            name: None,
            size: 0,
            faults: 0,
            binds: 0,
        }
    }

    /// How often it has failed.
    pub fn faults(&self) -> u64
        ensures { result ≡ self.now.faults }
    {
        self.faults
    }

    /// Counts a fault.
    fn fail(&mut self) -> DiskFault
        ensures counted { self.new.faults ≡ one_more self.old.faults }
        ensures later { self.old.faults ≤ self.new.faults }
        ensures rose { Rose self.old.faults self.new.faults }
        ensures size { self.new.size ≡ self.old.size }
        ensures name { self.new.name ≡ self.old.name }
        ensures binds { self.new.binds ≡ self.old.binds }
    {
        raise(&mut self.faults);
        DiskFault
    }

    /// Counts one fault where the call was not done.
    fn answer(&mut self, done: bool) -> Result<(), DiskFault>
        ensures cause { HasCause self.old.faults self.new.faults result }
        ensures counted { self.new.faults ≡ faults_after self.old.faults result }
        ensures done { IsTrue done ↔ IsOk result }
        ensures size { self.new.size ≡ self.old.size }
        ensures name { self.new.name ≡ self.old.name }
        ensures binds { self.new.binds ≡ self.old.binds }
    {
        if done { Ok(()) } else { Err(self.fail()) }
    }
}

impl<R: Files<File = File> + Drop> Disk for FileDisk<R> {
    ghost state = { λ d. untold d.size d.faults d.binds (option_map (λ name. name.items) d.name) };

    ghost size_fits = { λ d. d.fits };

    ghost lawful = { λ d. untold_is_lawful d.size d.faults d.binds (option_map (λ name. name.items) d.name) };

    fn size(&self) -> u64 {
        self.size
    }

    fn read(&mut self, at: u64, into: &mut [u8]) -> Result<(), DiskFault> {
        let done = match &self.file {
            Some(file) => read_all(file, into, at).is_ok(),
            None => false,
        };
        self.answer(done)
    }

    fn write(&mut self, at: u64, bytes: &[u8]) -> Result<(), DiskFault> {
        let done = match &self.file {
            Some(file) => write_all(file, bytes, at).is_ok(),
            None => false,
        };
        self.answer(done)
    }

    fn sync(&mut self) -> Result<(), DiskFault> {
        let done = match &self.file {
            Some(file) => file.sync_data().is_ok(),
            None => false,
        };
        self.answer(done)
    }
}

impl<R: Files<File = File> + Drop> Image for FileDisk<R> {
    /// Lets the last file go, and with it its lock. With a size, makes a new file of zeros. With none, opens the file
    /// that is there.
    ///
    /// # Errors
    ///
    /// The disk is not bound then, and has the size that it had.
    /// - With a size: the name exists. After any other error the file that was made is removed again.
    /// - With none: there is no file of that name, or it may not be read and written.
    /// - Another program has the file open as an image. Nothing of it is read or written then.
    /// - Want of memory for the name, or a call of the system failed.
    fn bind(&mut self, name: &str, want: Option<u64>) -> Result<(), DiskFault> {
        raise(&mut self.binds);
        self.name = None;
        self.file = None;
        let Ok(text) = name.as_bytes().to_vec(self.alloc) else {
            return Err(self.fail());
        };
        let opened = match want {
            Some(size) => new_file(&self.rt, name, size).map(|file| (file, size)),
            None => open_file(&self.rt, name),
        };
        let Ok((file, size)) = opened else {
            return Err(self.fail());
        };
        self.file = Some(file);
        self.name = Some(text);
        self.size = size;
        Ok(())
    }
}
