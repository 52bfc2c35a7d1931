// Calls on files.
ghost use Rattle.std.specs.Prelude.{◌≡◌, false};
ghost use Rattle.iso_model.specs.World.{World};
ghost use Rattle.script_model.specs.declared.script.Op.TheVariants.{FileDelete, FileMove, FileNew, FileRead, FileWrite};
ghost use Rattle.device_desk.specs.Device.{Answered, IsRefusedDown, StandsAt};

use crate::desk::Desk;
use iso_disk::Disk;
use script_model::{Op, Reply, Stop};

impl<D: Disk> Desk<D> {
    /// Makes an empty file of this name.
    ///
    /// # Errors
    ///
    /// What the store or the transaction refuses is a reply. The accesses that were made stay.
    /// - `Memory`: want of memory.
    /// - `Disk`: the disk failed in this call.
    /// - `Down`: the desk is down.
    pub fn file_new(&mut self, number: u64, name: &[u8]) -> Result<Reply, Stop>
        ensures did { (W : World) → StandsAt D.state self.old W → Answered D.state self.old self.new W number (FileNew name.now) result }
        ensures down { self.old.up ≡ false → IsRefusedDown self.old self.new result }
    {
        let Ok(name) = self.copied(name) else {
            return self.unmade();
        };
        self.perform(number, Op::FileNew { name })
    }

    /// Writes these bytes at `off` of a file, which grows where they pass its end.
    ///
    /// # Errors
    ///
    /// What the store or the transaction refuses is a reply. The accesses that were made stay.
    /// - `Memory`: want of memory.
    /// - `Disk`: the disk failed in this call.
    /// - `Down`: the desk is down.
    pub fn file_write(
        &mut self,
        number: u64,
        name: &[u8],
        off: u32,
        bytes: &[u8],
    ) -> Result<Reply, Stop>
        ensures did { (W : World) → StandsAt D.state self.old W → Answered D.state self.old self.new W number (FileWrite name.now off bytes.now) result }
        ensures down { self.old.up ≡ false → IsRefusedDown self.old self.new result }
    {
        let Ok(name) = self.copied(name) else {
            return self.unmade();
        };
        let Ok(bytes) = self.copied(bytes) else {
            return self.unmade();
        };
        self.perform(number, Op::FileWrite { name, off, bytes })
    }

    /// The bytes of a file from `off` on, at most `len`.
    ///
    /// # Errors
    ///
    /// What the store or the transaction refuses is a reply. The accesses that were made stay.
    /// - `Memory`: want of memory.
    /// - `Disk`: the disk failed in this call.
    /// - `Down`: the desk is down.
    pub fn file_read(&mut self, number: u64, name: &[u8], off: u32, len: u32) -> Result<Reply, Stop>
        ensures did { (W : World) → StandsAt D.state self.old W → Answered D.state self.old self.new W number (FileRead name.now off len) result }
        ensures down { self.old.up ≡ false → IsRefusedDown self.old self.new result }
    {
        let Ok(name) = self.copied(name) else {
            return self.unmade();
        };
        self.perform(number, Op::FileRead { name, off, len })
    }

    /// Gives the file of one name another.
    ///
    /// # Errors
    ///
    /// What the store or the transaction refuses is a reply. The accesses that were made stay.
    /// - `Memory`: want of memory.
    /// - `Disk`: the disk failed in this call.
    /// - `Down`: the desk is down.
    pub fn file_move(&mut self, number: u64, from: &[u8], to: &[u8]) -> Result<Reply, Stop>
        ensures did { (W : World) → StandsAt D.state self.old W → Answered D.state self.old self.new W number (FileMove from.now to.now) result }
        ensures down { self.old.up ≡ false → IsRefusedDown self.old self.new result }
    {
        let Ok(from) = self.copied(from) else {
            return self.unmade();
        };
        let Ok(to) = self.copied(to) else {
            return self.unmade();
        };
        self.perform(number, Op::FileMove { from, to })
    }

    /// Removes a file.
    ///
    /// # Errors
    ///
    /// What the store or the transaction refuses is a reply. The accesses that were made stay.
    /// - `Memory`: want of memory.
    /// - `Disk`: the disk failed in this call.
    /// - `Down`: the desk is down.
    pub fn file_delete(&mut self, number: u64, name: &[u8]) -> Result<Reply, Stop>
        ensures did { (W : World) → StandsAt D.state self.old W → Answered D.state self.old self.new W number (FileDelete name.now) result }
        ensures down { self.old.up ≡ false → IsRefusedDown self.old self.new result }
    {
        let Ok(name) = self.copied(name) else {
            return self.unmade();
        };
        self.perform(number, Op::FileDelete { name })
    }
}
