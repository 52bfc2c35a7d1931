// Accesses, ends and upkeep. An access is answered as that of the model's client with the transaction's number.
ghost use Rattle.std.specs.Prelude.{◌≡◌, false, length};
ghost use Rattle.iso_machine.specs.Accessing.{IsFilled, with_bytes};
ghost use Rattle.iso_model.specs.World.{World};
ghost use Rattle.script_model.specs.declared.script.Op.TheVariants.{Abort, Compact, End, Fill, Get, Mark, Put, Read, Stat, Trim, Upgrade, Write};
ghost use Rattle.device_desk.specs.Device.{Answered, IsRefusedDown, StandsAt};

use crate::desk::Desk;
use iso_disk::Disk;
use script_model::{Op, Reply, Stop};

impl<D: Disk> Desk<D> {
    /// Reads a whole block, as the transaction is shown it.
    ///
    /// # Errors
    ///
    /// A refusal of the transaction is a reply.
    /// - `Memory`: want of memory. The transaction is as it was.
    /// - `Disk`: the disk failed in this call.
    /// - `Down`: the desk is down.
    pub fn read(&mut self, number: u64, block: u32) -> Result<Reply, Stop>
        ensures did { (W : World) → StandsAt D.state self.old W → Answered D.state self.old self.new W number (Read block) result }
        ensures down { self.old.up ≡ false → IsRefusedDown self.old self.new result }
    {
        self.perform(number, Op::Read { block })
    }

    /// Reads `len` bytes of a block from `off` on, with one mark over them.
    ///
    /// # Errors
    ///
    /// A refusal of the transaction is a reply.
    /// - `Memory`: want of memory. The transaction is as it was.
    /// - `Disk`: the disk failed in this call.
    /// - `Down`: the desk is down.
    pub fn get(&mut self, number: u64, block: u32, off: u32, len: u32) -> Result<Reply, Stop>
        ensures did { (W : World) → StandsAt D.state self.old W → Answered D.state self.old self.new W number (Get block off len) result }
        ensures down { self.old.up ≡ false → IsRefusedDown self.old self.new result }
    {
        self.perform(number, Op::Get { block, off, len })
    }

    /// Reads as many bytes of a block as the slice has, from `off` on, with one mark over them. The reply is `Done` where the slice
    /// has them; it stays as it was else.
    ///
    /// # Errors
    ///
    /// As those of `get`.
    pub fn get_into(
        &mut self,
        number: u64,
        block: u32,
        off: u32,
        into: &mut [u8],
    ) -> Result<Reply, Stop>
        ensures did { (W : World) → StandsAt D.state self.old W → Answered D.state self.old self.new W number (Get block off (length into.old)) (with_bytes result into.new) }
        ensures down { self.old.up ≡ false → IsRefusedDown self.old self.new (with_bytes result into.new) }
        ensures filled { IsFilled result into.old into.new }
    {
        if !self.up {
            return Err(Stop::Down);
        }
        self.table.get_into(number, block, off, into)
    }

    /// Writes a whole block.
    ///
    /// # Errors
    ///
    /// A refusal of the transaction is a reply.
    /// - `Memory`: want of memory. The transaction is as it was.
    /// - `Down`: the desk is down.
    pub fn write(&mut self, number: u64, block: u32, bytes: &[u8]) -> Result<Reply, Stop>
        ensures did { (W : World) → StandsAt D.state self.old W → Answered D.state self.old self.new W number (Write block bytes.now) result }
        ensures down { self.old.up ≡ false → IsRefusedDown self.old self.new result }
    {
        let Ok(bytes) = self.copied(bytes) else {
            return self.unmade();
        };
        self.perform(number, Op::Write { block, bytes })
    }

    /// Writes these bytes at `off` of a block, with one mark over them.
    ///
    /// # Errors
    ///
    /// A refusal of the transaction is a reply.
    /// - `Memory`: want of memory. The transaction is as it was.
    /// - `Down`: the desk is down.
    pub fn put(&mut self, number: u64, block: u32, off: u32, bytes: &[u8]) -> Result<Reply, Stop>
        ensures did { (W : World) → StandsAt D.state self.old W → Answered D.state self.old self.new W number (Put block off bytes.now) result }
        ensures down { self.old.up ≡ false → IsRefusedDown self.old self.new result }
    {
        if !self.up {
            return Err(Stop::Down);
        }
        self.table.put(number, block, off, bytes)
    }

    /// Writes a block full of one byte.
    ///
    /// # Errors
    ///
    /// A refusal of the transaction is a reply.
    /// - `Memory`: want of memory. The transaction is as it was.
    /// - `Down`: the desk is down.
    pub fn fill(&mut self, number: u64, block: u32, byte: &[u8]) -> Result<Reply, Stop>
        ensures did { (W : World) → StandsAt D.state self.old W → Answered D.state self.old self.new W number (Fill block byte.now) result }
        ensures down { self.old.up ≡ false → IsRefusedDown self.old self.new result }
    {
        let Ok(bytes) = self.copied(byte) else {
            return self.unmade();
        };
        self.perform(number, Op::Fill { block, bytes })
    }

    /// Adds a mark to the last access: the first mark stands for the whole block, and further ones add to it.
    ///
    /// # Errors
    ///
    /// A refusal of the transaction is a reply. `Down`: the desk is down.
    pub fn mark(&mut self, number: u64, off: u32, len: u32) -> Result<Reply, Stop>
        ensures did { (W : World) → StandsAt D.state self.old W → Answered D.state self.old self.new W number (Mark off len) result }
        ensures down { self.old.up ≡ false → IsRefusedDown self.old self.new result }
    {
        self.perform(number, Op::Mark { off, len })
    }

    /// Ends a transaction: it commits where it has a write and no commit after its begin conflicts with it. Where the commit has
    /// no room or no number it stays, and so it does where memory is wanting.
    ///
    /// # Errors
    ///
    /// A log that is full or worn is a reply.
    /// - `Memory`: want of memory. The transaction is live as it was.
    /// - `Disk`: the disk failed. The desk is down, and the commit is made or not.
    /// - `Down`: the desk is down.
    pub fn end(&mut self, number: u64) -> Result<Reply, Stop>
        ensures did { (W : World) → StandsAt D.state self.old W → Answered D.state self.old self.new W number End result }
        ensures down { self.old.up ≡ false → IsRefusedDown self.old self.new result }
    {
        self.perform(number, Op::End)
    }

    /// Takes a transaction out, with all that it did.
    ///
    /// # Errors
    ///
    /// `Down`: the desk is down.
    pub fn abort(&mut self, number: u64) -> Result<Reply, Stop>
        ensures did { (W : World) → StandsAt D.state self.old W → Answered D.state self.old self.new W number Abort result }
        ensures down { self.old.up ≡ false → IsRefusedDown self.old self.new result }
    {
        self.perform(number, Op::Abort)
    }

    /// Moves the base to the floor, in the other half of the image, which makes room in the log.
    ///
    /// # Errors
    ///
    /// A worn image is a reply.
    /// - `Memory`: want of memory. The image has the same commits.
    /// - `Disk`: the disk failed. The desk is down, and the image has the same commits.
    /// - `Down`: the desk is down.
    pub fn compact(&mut self) -> Result<Reply, Stop>
        ensures did { (W : World) → StandsAt D.state self.old W → Answered D.state self.old self.new W 0 Compact result }
        ensures down { self.old.up ≡ false → IsRefusedDown self.old self.new result }
    {
        self.perform(0, Op::Compact)
    }

    /// Does so, and the image gets form 2, in which transactions of either mode may begin.
    ///
    /// # Errors
    ///
    /// As those of `compact`.
    pub fn upgrade(&mut self) -> Result<Reply, Stop>
        ensures did { (W : World) → StandsAt D.state self.old W → Answered D.state self.old self.new W 0 Upgrade result }
        ensures down { self.old.up ≡ false → IsRefusedDown self.old self.new result }
    {
        self.perform(0, Op::Upgrade)
    }

    /// Lets the versions go that no transaction can be shown any more.
    ///
    /// # Errors
    ///
    /// `Down`: the desk is down.
    pub fn trim(&mut self) -> Result<Reply, Stop>
        ensures did { (W : World) → StandsAt D.state self.old W → Answered D.state self.old self.new W 0 Trim result }
        ensures down { self.old.up ≡ false → IsRefusedDown self.old self.new result }
    {
        self.perform(0, Op::Trim)
    }

    /// The numbers of the image.
    ///
    /// # Errors
    ///
    /// `Down`: the desk is down.
    pub fn stat(&mut self) -> Result<Reply, Stop>
        ensures did { (W : World) → StandsAt D.state self.old W → Answered D.state self.old self.new W 0 Stat result }
        ensures down { self.old.up ≡ false → IsRefusedDown self.old self.new result }
    {
        self.perform(0, Op::Stat)
    }
}
