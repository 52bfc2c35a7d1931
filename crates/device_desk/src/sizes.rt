// The size of a file: the tree store is asked for the number of its first block, and then that block for the size.
ghost use Rattle.std.specs.{Prelude.{◌≡◌, ◌≢◌, ◌⊎◌, ◌+◌, ◌<◌, ◌≤◌, ◌^◌, ℕ, List, IfNone, IfSome, IsTrue, None, Some, false, length, true}, FinMap.get, Int.{from_be_bytes, w32}};
ghost use Rattle.iso_model.specs.{declared.access.Mode.TheVariants.Serial, Geometry.is_valid, World.{Live, World, attached}, Worlds.IsWorld};
ghost use Rattle.script_model.specs.{FilesArea.{file_blocks, files_area}, Step.array_of};
ghost use Rattle.store_calls.specs.Calls.{placed};
ghost use Rattle.store_model.specs.{FileNodes.{is_number, number_of}, FileRegion.{AreFileRegions, files}, HashCalls.is_key};
ghost use Rattle.device_desk.specs.{Device.{IsRefusedDown, StandsAt}, Sizes.{Sized, is_head, looked, looked_step, size_in, size_step, value_step}};

use crate::desk::Desk;
use crate::table::Table;
use iso_alloc::word_at;
use iso_disk::Disk;
use iso_model::{Bytes, Geometry};
use script_model::{Op, Reply, Stop, copy_from, zeros};
use std::alloc::Global;
use store_calls::store_region;
use store_model::FsRegion;

/// How many bytes of a file's first block say what it is and how many bytes the file has.
const HEAD: u32 = 8;

/// Where the files of an image are.
fn files_in(alloc: Global, geometry: &Geometry) -> FsRegion
    requires { IsTrue (is_valid geometry.now) }
    ensures { placed geometry.now.block result ≡ files_area geometry.now }
{
    let name = Bytes::empty(alloc);
    store_region(geometry, &Op::FileDelete { name })
}

/// The block whose number a value of the tree store spells, where it is one of the files'.
fn block_of(at: FsRegion, value: &[u8]) -> Option<u32>
    requires { at.files.start + at.files.size < 2 ^ 32 }
    ensures some { (size : ℕ) → IfSome result (λ block. (is_number (placed size at).files value.now ≡ true) × (block ≡ at.files.start + number_of value.now)) }
    ensures none { (size : ℕ) → IfNone result (is_number (placed size at).files value.now ≡ false) }
{
    if value.len() != 4 {
        return None;
    }
    let number = word_at(value, 0);
    if number < 1 || number >= at.files.size {
        return None;
    }
    Some(at.files.start + number)
}

/// Whether these are the first bytes of a file's first block, in blocks of this size.
fn is_head(size: u32, head: &[u8]) -> bool
    requires least { 64 ≤ size }
    requires most { size ≤ 4096 }
    ensures { result ≡ is_head size head.now }
{
    if head.len() != 8 {
        return false;
    }
    if head[0] != 3 {
        return false;
    }
    word_at(head, 4) <= (size - 64) / 4 * size
}

/// The size that these bytes of a block spell, in the room of four bytes.
fn size_of_head(size: u32, block: u32, head: &[u8], mut room: Vec<u8>) -> Reply
    requires least { 64 ≤ size }
    requires most { size ≤ 4096 }
    requires room { length room.items ≡ 4 }
    ensures { result ≡ size_in size block (Reply.Shown head.now) }
{
    if !is_head(size, head) {
        return Reply::Broken { block };
    }
    copy_from(&mut room, head, 4);
    Reply::Found(Bytes::of(room))
}

/// The size that a look into a file's first block has shown, or else what that was answered.
fn size_in(size: u32, block: u32, reply: Reply, room: Vec<u8>) -> Reply
    requires least { 64 ≤ size }
    requires most { size ≤ 4096 }
    requires room { length room.items ≡ 4 }
    ensures { result ≡ size_in size block reply }
{
    match reply {
        Reply::Shown(head) => size_of_head(size, block, head.as_slice(), room),
        other => other,
    }
}

/// The value that a look-up of a name has found, or else what the size is answered.
fn looked(reply: Reply) -> Result<Bytes, Reply>
    ensures { result ≡ looked reply }
{
    match reply {
        Reply::Found(value) => Ok(value),
        Reply::BadKey => Err(Reply::BadName),
        other => Err(other),
    }
}

impl<D: Disk> Table<D> {
    ghost use Rattle.iso_core.specs.Core.{disk_of};
    ghost use Rattle.iso_machine.specs.Answering.{Always, AnswersTold};
    ghost use Rattle.device_desk.specs.Seats.{IsTableOf};

    /// The size that a file's first block spells, to which a value of the tree store leads.
    fn size_at(&mut self, number: u64, value: &[u8]) -> Result<Reply, Stop>
        requires { (W : World) × IsTableOf D.state self.old W }
        ensures { (W : World) → IsTableOf D.state self.old W
            → AnswersTold Always (IsTableOf D.state self.new) (D.state (disk_of self.old.core)) (D.state (disk_of self.new.core)) W (value_step W number value.now) ⊥ result }
    {
        let geometry = self.core.geometry();
        let at = files_in(self.alloc, &geometry);
        let Some(block) = block_of(at, value) else {
            return Ok(Reply::Broken {
                block: at.tree.start,
            });
        };
        let Ok(room) = zeros(self.alloc, 4) else {
            return Err(Stop::Memory);
        };
        let look = Op::Get {
            block,
            off: 0,
            len: HEAD,
        };
        match self.access(number, &look) {
            Ok(reply) => Ok(size_in(geometry.block, block, reply, room)),
            Err(why) => Err(why),
        }
    }

    /// So after a look-up of the file's name.
    fn size_behind(&mut self, number: u64, found: Result<Bytes, Reply>) -> Result<Reply, Stop>
        requires { (W : World) × IsTableOf D.state self.old W }
        ensures { (W : World) → IsTableOf D.state self.old W
            → AnswersTold Always (IsTableOf D.state self.new) (D.state (disk_of self.old.core)) (D.state (disk_of self.new.core)) W (looked_step number found W) ⊥ result }
    {
        match found {
            Ok(value) => self.size_at(number, value.as_slice()),
            Err(reply) => Ok(reply),
        }
    }

    /// The size of the file of this name, for the transaction of this number.
    fn file_size(&mut self, number: u64, key: Bytes) -> Result<Reply, Stop>
        requires { (W : World) × IsTableOf D.state self.old W }
        ensures { (W : World) → IsTableOf D.state self.old W
            → AnswersTold Always (IsTableOf D.state self.new) (D.state (disk_of self.old.core)) (D.state (disk_of self.new.core)) W (size_step W number key) ⊥ result }
    {
        let Some(_) = self.room(number) else {
            return Ok(Reply::NotInTx);
        };
        let geometry = self.core.geometry();
        let at = files_in(self.alloc, &geometry);
        if at.files.size == 0 {
            return Ok(Reply::NoStore);
        }
        let look = Op::TreeGet { key };
        let reply = match self.stored(number, &look) {
            Ok(reply) => reply,
            Err(why) => return Err(why),
        };
        self.size_behind(number, looked(reply))
    }
}

impl<D: Disk> Desk<D> {
    /// How many bytes a file has: four bytes are found, the first the highest. It makes the accesses of a look-up of the name in the
    /// tree store, and reads the first eight bytes of the file's first block.
    ///
    /// # Errors
    ///
    /// What the store or the transaction refuses is a reply. The accesses that were made stay.
    /// - `Memory`: want of memory.
    /// - `Disk`: the disk failed in this call.
    /// - `Down`: the desk is down.
    pub fn file_size(&mut self, number: u64, name: &[u8]) -> Result<Reply, Stop>
        ensures did { (W : World) → StandsAt D.state self.old W → Sized D.state self.old self.new W number name.now result }
        ensures down { self.old.up ≡ false → IsRefusedDown self.old self.new result }
    {
        if !self.up {
            return Err(Stop::Down);
        }
        let Ok(key) = self.copied(name) else {
            return Err(Stop::Memory);
        };
        self.table.file_size(number, key)
    }
}

/// What a size is answered: where a serial transaction is shown files that are well formed, four bytes that spell how many the file
/// has, and `Missing` where the name has none; unless it may make no more accesses.
pub fn sizes_are_of_files()
    ensures found { (W : World) (number : ℕ) (t : Live) (name file : List ℕ) → IsWorld W → attached W number ≡ Some t → t.mode ≡ Serial → file_blocks W.geometry ≢ 0
        → AreFileRegions (files_area W.geometry) (array_of W t) → is_key name ≡ true → get (files (files_area W.geometry) (array_of W t)) name ≡ Some file
        → ((bytes : List ℕ) × ((size_step W number name).0 ≡ Reply.Found bytes) × (length bytes ≡ 4) × (from_be_bytes w32 bytes ≡ length file)) ⊎ ((size_step W number name).0 ≡ Reply.TooManyAccesses) }
    ensures missing { (W : World) (number : ℕ) (t : Live) (name : List ℕ) → IsWorld W → attached W number ≡ Some t → t.mode ≡ Serial → file_blocks W.geometry ≢ 0
        → AreFileRegions (files_area W.geometry) (array_of W t) → is_key name ≡ true → get (files (files_area W.geometry) (array_of W t)) name ≡ None
        → ((size_step W number name).0 ≡ Reply.Missing) ⊎ ((size_step W number name).0 ≡ Reply.TooManyAccesses) }
{}
