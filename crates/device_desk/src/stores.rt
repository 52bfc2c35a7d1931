// Calls of the hash store and of the tree store.
ghost use Rattle.std.specs.Prelude.{◌≡◌, false};
ghost use Rattle.iso_model.specs.World.{World};
ghost use Rattle.script_model.specs.declared.script.Op.TheVariants.{HashDelete, HashGet, HashPut, TreeDelete, TreeGet, TreePut, TreeScan};
ghost use Rattle.device_desk.specs.Device.{Answered, IsRefusedDown, StandsAt};

use crate::desk::Desk;
use iso_disk::Disk;
use script_model::{Op, Reply, Stop};

impl<D: Disk> Desk<D> {
    /// Puts a value at a key of the hash store.
    ///
    /// # Errors
    ///
    /// What the store or the transaction refuses is a reply. The accesses that were made stay.
    /// - `Memory`: want of memory.
    /// - `Disk`: the disk failed in this call.
    /// - `Down`: the desk is down.
    pub fn hash_put(&mut self, number: u64, key: &[u8], value: &[u8]) -> Result<Reply, Stop>
        ensures did { (W : World) → StandsAt D.state self.old W → Answered D.state self.old self.new W number (HashPut key.now value.now) result }
        ensures down { self.old.up ≡ false → IsRefusedDown self.old self.new result }
    {
        let Ok(key) = self.copied(key) else {
            return self.unmade();
        };
        let Ok(value) = self.copied(value) else {
            return self.unmade();
        };
        self.perform(number, Op::HashPut { key, value })
    }

    /// The value of a key of the hash store.
    ///
    /// # Errors
    ///
    /// What the store or the transaction refuses is a reply. The accesses that were made stay.
    /// - `Memory`: want of memory.
    /// - `Disk`: the disk failed in this call.
    /// - `Down`: the desk is down.
    pub fn hash_get(&mut self, number: u64, key: &[u8]) -> Result<Reply, Stop>
        ensures did { (W : World) → StandsAt D.state self.old W → Answered D.state self.old self.new W number (HashGet key.now) result }
        ensures down { self.old.up ≡ false → IsRefusedDown self.old self.new result }
    {
        let Ok(key) = self.copied(key) else {
            return self.unmade();
        };
        self.perform(number, Op::HashGet { key })
    }

    /// Removes a key of the hash store.
    ///
    /// # Errors
    ///
    /// What the store or the transaction refuses is a reply. The accesses that were made stay.
    /// - `Memory`: want of memory.
    /// - `Disk`: the disk failed in this call.
    /// - `Down`: the desk is down.
    pub fn hash_delete(&mut self, number: u64, key: &[u8]) -> Result<Reply, Stop>
        ensures did { (W : World) → StandsAt D.state self.old W → Answered D.state self.old self.new W number (HashDelete key.now) result }
        ensures down { self.old.up ≡ false → IsRefusedDown self.old self.new result }
    {
        let Ok(key) = self.copied(key) else {
            return self.unmade();
        };
        self.perform(number, Op::HashDelete { key })
    }

    /// Puts a value at a key of the tree store.
    ///
    /// # Errors
    ///
    /// What the store or the transaction refuses is a reply. The accesses that were made stay.
    /// - `Memory`: want of memory.
    /// - `Disk`: the disk failed in this call.
    /// - `Down`: the desk is down.
    pub fn tree_put(&mut self, number: u64, key: &[u8], value: &[u8]) -> Result<Reply, Stop>
        ensures did { (W : World) → StandsAt D.state self.old W → Answered D.state self.old self.new W number (TreePut key.now value.now) result }
        ensures down { self.old.up ≡ false → IsRefusedDown self.old self.new result }
    {
        let Ok(key) = self.copied(key) else {
            return self.unmade();
        };
        let Ok(value) = self.copied(value) else {
            return self.unmade();
        };
        self.perform(number, Op::TreePut { key, value })
    }

    /// The value of a key of the tree store.
    ///
    /// # Errors
    ///
    /// What the store or the transaction refuses is a reply. The accesses that were made stay.
    /// - `Memory`: want of memory.
    /// - `Disk`: the disk failed in this call.
    /// - `Down`: the desk is down.
    pub fn tree_get(&mut self, number: u64, key: &[u8]) -> Result<Reply, Stop>
        ensures did { (W : World) → StandsAt D.state self.old W → Answered D.state self.old self.new W number (TreeGet key.now) result }
        ensures down { self.old.up ≡ false → IsRefusedDown self.old self.new result }
    {
        let Ok(key) = self.copied(key) else {
            return self.unmade();
        };
        self.perform(number, Op::TreeGet { key })
    }

    /// Removes a key of the tree store.
    ///
    /// # Errors
    ///
    /// What the store or the transaction refuses is a reply. The accesses that were made stay.
    /// - `Memory`: want of memory.
    /// - `Disk`: the disk failed in this call.
    /// - `Down`: the desk is down.
    pub fn tree_delete(&mut self, number: u64, key: &[u8]) -> Result<Reply, Stop>
        ensures did { (W : World) → StandsAt D.state self.old W → Answered D.state self.old self.new W number (TreeDelete key.now) result }
        ensures down { self.old.up ≡ false → IsRefusedDown self.old self.new result }
    {
        let Ok(key) = self.copied(key) else {
            return self.unmade();
        };
        self.perform(number, Op::TreeDelete { key })
    }

    /// The first pairs of the tree store from one key on and before another, at most so many.
    ///
    /// # Errors
    ///
    /// What the store or the transaction refuses is a reply. The accesses that were made stay.
    /// - `Memory`: want of memory.
    /// - `Disk`: the disk failed in this call.
    /// - `Down`: the desk is down.
    pub fn tree_scan(
        &mut self,
        number: u64,
        from: &[u8],
        to: &[u8],
        most: u32,
    ) -> Result<Reply, Stop>
        ensures did { (W : World) → StandsAt D.state self.old W → Answered D.state self.old self.new W number (TreeScan from.now to.now most) result }
        ensures down { self.old.up ≡ false → IsRefusedDown self.old self.new result }
    {
        let Ok(from) = self.copied(from) else {
            return self.unmade();
        };
        let Ok(to) = self.copied(to) else {
            return self.unmade();
        };
        self.perform(number, Op::TreeScan { from, to, most })
    }
}
