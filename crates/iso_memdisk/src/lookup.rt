// Whether a disk in memory has bytes.

use crate::disk::MemDisk;
use iso_disk::{Disk, Lookup};

/// A disk in memory has a device under each name, once it has bytes.
impl Lookup for MemDisk {
    ghost use Rattle.std.specs.Prelude.{◌≡◌, ◌↔◌, IsTrue};
    ghost use Rattle.iso_memdisk.specs.MemDisk.{size_of};

    ghost seen = { λ disk name free. IsTrue free ↔ (size_of disk ≡ 0) };

    fn is_free(&self, _name: &str) -> bool {
        self.size() == 0
    }
}
