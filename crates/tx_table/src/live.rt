// The transactions that are live.
ghost use Rattle.std.specs.{Prelude.{◌≡◌, ℕ, ◌+◌, ◌<◌, ◌≤◌, [], ◌∷◌, ◌++◌, Err, IsSome, OnOk, OnErr, drop, length, nat_eq, map, option_map}, Bool.OnTrue, Map.{lookup, remove_entry}};
ghost use Rattle.iso_model.specs.{declared.limits.TheConstants.MAX_LIVE, World.floor_of};
ghost use Rattle.tx_table.specs.{Live.{AreBefore, AreInOrder, at_work, begin_of, mode_of}};

use indexmap::IndexMap;
use iso_model::{MAX_LIVE, Mode};
use std::alloc::Global;
use std::marker::Model;

/// Why a transaction is not entered.
#[derive(Clone, Copy, Debug, PartialEq, Eq)]
pub enum EnterError {
    /// `MAX_LIVE` transactions are live.
    TooManyTx,
    /// Want of memory.
    Memory,
}

/// What a transaction began with: the last commit's number then, and its mode.
#[derive(Clone, Copy, Debug)]
pub struct Begun {
    pub at: u64,
    pub mode: Mode,
}

/// The live transactions in the order of their begins, which is that of their numbers. Contracts see the list of their
/// numbers, each with what it began with.
#[derive(Drop)]
pub struct Live {
    begins: IndexMap<u64, Begun>,

    // How many of the first ones have left. They are taken out together, since all that comes after has to move then.
    past: usize,
}

// As long as fewer have left, none of them is taken out.
const MANY_PAST: usize = 64;

impl Model for Live {
    ghost use Rattle.std.specs.Prelude.{List, ℕ, ◌≤◌, drop, length};
    ghost use Rattle.iso_model.specs.declared.limits.TheConstants.{MAX_LIVE};
    ghost use Rattle.tx_table.specs.{declared.live.Begun.Begun, Live.AreInOrder};

    ghost Value = { List (ℕ × Begun) };

    ghost view = { λ a. drop a.past a.begins.entries };

    ghost invariant = { λ a. (length (drop a.past a.begins.entries) ≤ MAX_LIVE) × AreInOrder a.past a.begins.entries };
}

impl Live {
    /// No transaction. It takes no memory.
    pub fn empty(alloc: Global) -> Live
        ensures { result ≡ [] }
    {
        Live {
            begins: IndexMap::new(alloc),
            past: 0,
        }
    }

    /// Whether a transaction of this number that begins there comes after all others.
    pub fn is_next(&self, tx: u64, at: u64) -> bool
        ensures { OnTrue result (AreBefore tx at self.now) }
    {
        let Some((last, begun)) = self.begins.last() else {
            return true;
        };
        if tx <= *last || at < begun.at {
            return false;
        }
        true
    }

    /// Enters a transaction, last of all.
    ///
    /// # Errors
    ///
    /// The list is as before.
    /// - `TooManyTx` exactly where `MAX_LIVE` transactions are live.
    /// - `Memory`: want of memory.
    pub fn enter(&mut self, tx: u64, at: u64, mode: Mode) -> Result<(), EnterError>
        requires { AreBefore tx at self.old }
        ensures ok { OnOk result (self.new ≡ self.old ++ (tx, record { at = at; mode = mode }) ∷ []) }
        ensures err { OnErr result (self.new ≡ self.old) }
        ensures full { length self.old ≡ MAX_LIVE → result ≡ Err EnterError.TooManyTx }
        ensures too_many { result ≡ Err EnterError.TooManyTx → length self.old ≡ MAX_LIVE }
    {
        if self.begins.len() - self.past >= MAX_LIVE {
            return Err(EnterError::TooManyTx);
        }
        let Ok(_) = self.begins.insert(tx, Begun { at, mode }) else {
            return Err(EnterError::Memory);
        };
        Ok(())
    }

    /// Takes a live transaction out.
    pub fn leave(&mut self, tx: u64)
        requires { IsSome (begin_of tx self.old) }
        ensures { self.new ≡ remove_entry (nat_eq tx) self.old }
    {
        let more = self.begins.len() - self.past > 1;
        let Some((first, _)) = self.begins.get_index(self.past) else {
            return;
        };
        if more && *first == tx {
            return pass_first(&mut self.begins, &mut self.past);
        }
        take_later(&mut self.begins, &mut self.past, tx);
    }

    /// Takes all out. The memory stays for those that come.
    pub fn clear(&mut self)
        ensures { self.new ≡ [] }
    {
        self.begins.clear();
        self.past = 0;
    }

    /// The begin of a transaction, and none exactly where it is not live. It takes no memory.
    pub fn at(&self, tx: u64) -> Option<u64>
        ensures { result ≡ begin_of tx self.now }
    {
        let begun = self.begun(tx)?;
        Some(begun.at)
    }

    /// The mode of a transaction, and none exactly where it is not live.
    pub fn mode(&self, tx: u64) -> Option<Mode>
        ensures { result ≡ mode_of tx self.now }
    {
        let begun = self.begun(tx)?;
        Some(begun.mode)
    }

    // What a transaction began with, and none where it is not live. Those that have left have numbers below all others.
    fn begun(&self, tx: u64) -> Option<&Begun>
        ensures { option_map (λ begun. begun.now) result ≡ lookup (nat_eq tx) self.now }
    {
        let (first, _) = self.begins.get_index(self.past)?;
        if tx < *first {
            return None;
        }
        // Numbers follow each other as far as none between has left.
        let near = (tx as usize)
            .wrapping_sub(*first as usize)
            .wrapping_add(self.past);
        if let Some((number, begun)) = self.begins.get_index(near) {
            if *number == tx {
                return Some(begun);
            }
        }
        self.begins.get(&tx)
    }

    /// The least begin, or `last` where no transaction is live.
    pub fn floor(&self, last: u64) -> u64
        ensures { result ≡ floor_of last (map at_work self.now) }
    {
        // No later one began before the first.
        let Some((_, begun)) = self.begins.get_index(self.past) else {
            return last;
        };
        begun.at
    }

    /// How many are live.
    pub fn len(&self) -> u32
        ensures { result ≡ length self.now }
    {
        (self.begins.len() - self.past) as u32
    }
}

// Takes the first ones out.
fn take_front(begins: &mut IndexMap<u64, Begun>, many: usize)
    requires { many ≤ length begins.old.entries }
    ensures { begins.new.entries ≡ drop many begins.old.entries }
{
    drop(begins.drain(..many));
}

// The first live one leaves, and others stay.
fn pass_first(begins: &mut IndexMap<u64, Begun>, past: &mut usize)
    requires order { AreInOrder past.old begins.old.entries }
    requires more { past.old + 1 < length begins.old.entries }
    ensures live { drop past.new begins.new.entries ≡ drop (past.old + 1) begins.old.entries }
    ensures order { AreInOrder past.new begins.new.entries }
{
    let all = begins.len();
    let gone = *past + 1;
    if gone < MANY_PAST || gone < all - gone {
        *past = gone;
        return;
    }
    take_front(begins, gone);
    *past = 0;
}

// The only live one leaves, or one after the first.
fn take_later(begins: &mut IndexMap<u64, Begun>, past: &mut usize, tx: u64)
    requires order { AreInOrder past.old begins.old.entries }
    requires live { IsSome (begin_of tx (drop past.old begins.old.entries)) }
    ensures live { drop past.new begins.new.entries ≡ remove_entry (nat_eq tx) (drop past.old begins.old.entries) }
    ensures order { AreInOrder past.new begins.new.entries }
{
    if *past > 0 && begins.len() - *past <= 1 {
        begins.clear();
        *past = 0;
        return;
    }
    let _ = begins.shift_remove(&tx);
}
