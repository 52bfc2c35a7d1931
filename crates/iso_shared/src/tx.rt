// A transaction's pass, with what it does.
ghost use Rattle.std.specs.{Prelude.{◌≡◌, ℕ, ◌+◌, ◌<◌, ◌≤◌, [], ◌∷◌, ◌++◌, Some, None, Ok, Err, OnErr, OnOk, false, length}, Bool.OnTrue};
ghost use Rattle.iso_model.specs.{Array.Array, Effect.own, Marks.{mark_fault, marked}, Premises.block_at, Step.{put_access, read_access, write_access}};
ghost use Rattle.tx_table.specs.Work.{span_at};

use crate::ahead::{clashes_never, meeting};
use crate::guarded::{Guarded, Origin};
use conflict_rule::Checked;
use iso_core::Recent;
use iso_disk::Disk;
use iso_model::{MarkError, Memory, Mode};
use turn_lock::Pass;
use tx_table::Work;

/// A transaction's pass, with what the transaction does. It has one holder, and must be spent.
pub struct Tx<D: Disk + Drop, O: Origin> {
    pub(crate) pass: Pass<Guarded<D, O>>,
    pub(crate) number: u64,
    pub(crate) work: Work,
    pub(crate) checked: Checked,
}

impl<D: Disk + Drop, O: Origin> Tx<D, O> {
    ghost use Rattle.iso_shared.specs.Ports.{CannotClash, IsRecent, IsTxOf, check_of, doing, doing_of, number_of, pass_of, state_of};

    /// Its begin.
    pub fn at(&self) -> u64
        ensures { result ≡ (doing_of self.now).begin }
    {
        self.work.begun_at()
    }

    /// Its mode.
    pub fn mode(&self) -> Mode
        ensures { result ≡ (doing_of self.now).mode }
    {
        self.work.mode()
    }

    /// How many more accesses there may be.
    pub fn room(&self) -> u32
        ensures { result + length (doing_of self.now).accesses ≡ 4096 }
    {
        self.work.room()
    }

    /// Up to which commit it was checked ahead.
    pub fn checked(&self) -> u64
        ensures { result ≡ (check_of self.now).upto }
    {
        self.checked.upto
    }

    // Nothing is checked ahead any more.
    fn uncheck(&mut self)
        ensures same { self.new ≡ record self.old { checked = record { upto = (doing_of self.old).begin; clash = None } } }
    {
        self.checked = Checked {
            upto: self.work.begun_at(),
            clash: None,
        };
    }

    /// Makes room for one more access to a block. Where the room is there already it takes no memory.
    ///
    /// # Errors
    ///
    /// Want of memory. The transaction is as before.
    pub fn reserve(&mut self, block: u32) -> Result<(), Memory>
        requires block { block < (doing_of self.old).blocks }
        requires tx { IsTxOf O.start self.old }
        ensures tx { IsTxOf O.start self.new }
        ensures same { (pass_of self.new ≡ pass_of self.old) × (number_of self.new ≡ number_of self.old) × (check_of self.new ≡ check_of self.old) }
        ensures ok { OnOk result (self.new ≡ doing self.old (record (doing_of self.old) { ready = Some block })) }
        ensures err { OnErr result (self.new ≡ self.old) }
    {
        self.work.reserve(block)
    }

    /// A read of a block, the one for which room was made last; fewer than `MAX_ACCESSES` accesses were made. The slice
    /// is as long as a block and has the block's bytes at the begin: the own writes are laid over them. It takes no
    /// memory.
    pub fn read(&mut self, block: u32, into: &mut [u8])
        requires ready { (doing_of self.old).ready ≡ Some block }
        requires room { length (doing_of self.old).accesses < 4096 }
        requires bytes { length into.old ≡ (doing_of self.old).size }
        requires tx { IsTxOf O.start self.old }
        ensures tx { IsTxOf O.start self.new }
        ensures same { (pass_of self.new ≡ pass_of self.old) × (number_of self.new ≡ number_of self.old) × ((check_of self.new).upto ≡ (doing_of self.new).begin) }
        ensures work { doing_of self.new ≡ record (doing_of self.old) { accesses = (doing_of self.old).accesses ++ read_access block ∷ []; ready = None; settled = false } }
        ensures shown { (A : Array) → block_at A block ≡ into.old → into.new ≡ block_at (own A (doing_of self.old).accesses) block }
    {
        self.work.read(block, into);
        self.uncheck();
    }

    /// A write of a block, the one for which room was made last, with as many bytes as a block has; fewer than
    /// `MAX_ACCESSES` accesses were made. It takes no memory.
    pub fn write(&mut self, block: u32, bytes: &[u8])
        requires ready { (doing_of self.old).ready ≡ Some block }
        requires room { length (doing_of self.old).accesses < 4096 }
        requires bytes { length bytes.now ≡ (doing_of self.old).size }
        requires tx { IsTxOf O.start self.old }
        ensures tx { IsTxOf O.start self.new }
        ensures same { (pass_of self.new ≡ pass_of self.old) × (number_of self.new ≡ number_of self.old) × ((check_of self.new).upto ≡ (doing_of self.new).begin) }
        ensures work { doing_of self.new ≡ record (doing_of self.old) { accesses = (doing_of self.old).accesses ++ write_access block bytes.now ∷ []; ready = None; settled = false } }
    {
        self.work.write(block, bytes);
        self.uncheck();
    }

    /// A write of these bytes from `off` on in a block of zeros, with one mark over them, of the block for which room was made
    /// last; fewer than `MAX_ACCESSES` accesses were made. It takes no memory.
    pub fn put(&mut self, block: u32, off: u16, bytes: &[u8])
        requires ready { (doing_of self.old).ready ≡ Some block }
        requires room { length (doing_of self.old).accesses < 4096 }
        requires some { 0 < length bytes.now }
        requires fits { off + length bytes.now ≤ (doing_of self.old).size }
        requires tx { IsTxOf O.start self.old }
        ensures tx { IsTxOf O.start self.new }
        ensures same { (pass_of self.new ≡ pass_of self.old) × (number_of self.new ≡ number_of self.old) × ((check_of self.new).upto ≡ (doing_of self.new).begin) }
        ensures work { doing_of self.new ≡ record (doing_of self.old) { accesses = (doing_of self.old).accesses ++ put_access (doing_of self.old).size block off bytes.now ∷ []; ready = None; settled = false } }
    {
        self.work.put(block, off, bytes);
        self.uncheck();
    }

    /// Marks a range of the last access: the first mark takes the place of the whole block, and further ones add to it.
    ///
    /// # Errors
    ///
    /// The first of these, and the transaction is as before:
    /// - `BadRange`: the range is empty or passes the end of the block.
    /// - `NoAccess`: there is no access.
    /// - `TooManyMarks`: the last access has `MAX_SPANS` marks.
    pub fn mark(&mut self, off: u16, len: u16) -> Result<(), MarkError>
        requires tx { IsTxOf O.start self.old }
        ensures tx { IsTxOf O.start self.new }
        ensures same { (pass_of self.new ≡ pass_of self.old) × (number_of self.new ≡ number_of self.old) }
        ensures ok { OnOk result ((mark_fault (doing_of self.old).size off len (doing_of self.old).accesses ≡ None) × ((check_of self.new).upto ≡ (doing_of self.new).begin)
            × (doing_of self.new ≡ record (doing_of self.old) { accesses = marked (span_at off len) (doing_of self.old).accesses; settled = false })) }
        ensures err { (fault : MarkError) → result ≡ Err fault → (mark_fault (doing_of self.old).size off len (doing_of self.old).accesses ≡ Some fault) × (self.new ≡ self.old) }
    {
        match self.work.mark(off, len) {
            Ok(()) => {
                self.uncheck();
                Ok(())
            }
            Err(fault) => Err(fault),
        }
    }

    /// Compares what it did with later commits, ahead of the turn of its end, and answers up to which one it is then
    /// checked.
    ///
    /// # Errors
    ///
    /// Want of memory. It is checked as far as before.
    pub fn check(&mut self, recent: Recent) -> Result<u64, Memory>
        requires tx { IsTxOf O.start self.old }
        requires recent { IsRecent (state_of O.start self.old) (check_of self.old) recent }
        ensures tx { IsTxOf O.start self.new }
        ensures same { (pass_of self.new ≡ pass_of self.old) × (number_of self.new ≡ number_of self.old) × (doing_of self.new ≡ record (doing_of self.old) { settled = (doing_of self.new).settled }) }
        ensures ok { (upto : ℕ) → result ≡ Ok upto → (upto ≡ recent.upto) × ((check_of self.new).upto ≡ recent.upto) }
        ensures err { OnErr result (check_of self.new ≡ check_of self.old) }
    {
        self.work.settle()?;
        let _ = self.work.block_size();
        let clash = meeting(&self.work, &self.checked, &recent.notes);
        self.checked = Checked {
            upto: recent.upto,
            clash,
        };
        Ok(recent.upto)
    }

    /// Whether no commit can clash with it, whatever was committed since its begin: it wrote nothing, or in serial mode it
    /// read nothing. Its end then needs no check ahead. `false` also where memory is wanting to see it.
    pub fn cannot_clash(&mut self) -> bool
        requires tx { IsTxOf O.start self.old }
        ensures tx { IsTxOf O.start self.new }
        ensures same { (pass_of self.new ≡ pass_of self.old) × (number_of self.new ≡ number_of self.old) × (check_of self.new ≡ check_of self.old) × (doing_of self.new ≡ record (doing_of self.old) { settled = (doing_of self.new).settled }) }
        ensures free { OnTrue result (CannotClash (doing_of self.new)) }
    {
        if let Err(_) = self.work.settle() {
            return false;
        }
        clashes_never(&self.work)
    }
}
