// A disk that waits in each sync.
ghost use Rattle.std.specs.Prelude.{◌≡◌};

use iso_disk::{Disk, DiskFault, Image};
use std::thread;
use std::time::{Clock, Duration};

/// A disk over another one. It is at each moment what that one is; in each sync it waits for so many microseconds, as a medium does,
/// and it counts the syncs.
#[derive(Drop)]
pub(crate) struct SlowDisk<D: Disk, C: Clock> {
    disk: D,
    clock: C,
    pause: u64,
    syncs: u64,
}

impl<D: Disk, C: Clock> SlowDisk<D, C> {
    /// Over this disk, with a wait of so many microseconds.
    pub(crate) fn new(disk: D, clock: C, pause: u64) -> Self
        ensures { result.disk ≡ disk }
    {
        SlowDisk {
            disk,
            clock,
            pause,
            syncs: 0,
        }
    }

    /// How many syncs were asked for.
    pub(crate) fn syncs(&self) -> u64
        ensures { result ≡ self.now.syncs }
    {
        self.syncs
    }
}

impl<D: Disk, C: Clock> Disk for SlowDisk<D, C> {
    ghost state = { λ s. D.state s.disk };

    ghost size_fits = { λ s. D.size_fits s.disk };

    ghost lawful = { λ s. D.lawful s.disk };

    fn size(&self) -> u64 {
        self.disk.size()
    }

    fn read(&mut self, at: u64, into: &mut [u8]) -> Result<(), DiskFault> {
        self.disk.read(at, into)
    }

    fn write(&mut self, at: u64, bytes: &[u8]) -> Result<(), DiskFault> {
        self.disk.write(at, bytes)
    }

    fn sync(&mut self) -> Result<(), DiskFault> {
        self.syncs = self.syncs.saturating_add(1);
        if self.pause != 0 {
            thread::sleep(&self.clock, Duration::from_micros(self.pause));
        }
        self.disk.sync()
    }
}

impl<D: Image, C: Clock> Image for SlowDisk<D, C> {
    fn bind(&mut self, name: &str, want: Option<u64>) -> Result<(), DiskFault> {
        self.disk.bind(name, want)
    }
}
