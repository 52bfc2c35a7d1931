//! The lock and its passes.
ghost use Rattle.std.specs.Prelude.{◌≡◌, ℕ, ◌+◌, ◌%◌, ◌^◌, ◌<◌, ◌≤◌, [], ◌∷◌, ◌++◌, length, IfOk, IfErr, IsSome, option_to_list};
ghost use mathlib.Core.List.{IsPrefix};
ghost use Rattle.turn_lock.specs.{Lists.{times, AreDistinct, places}, Numbers.{IsOut, AreOut, AreFree, AreHeld, held_after}, Views.{fresh, waits, kept_part, given_part, both}, Steps.IsPlaced};

use crate::plays::{Advance, AtGate, Cut, Draw, Glue, Look, Portion, Settle};
use crate::turn::Turn;
use crate::view::{LAST, Names, Stands, View};
use atomic_table::{Refused, Seat, Table, TableRule};
use iso_model::Memory;
use std::alloc::Global;
use std::marker::Brand;
use std::snapshot::Snapshot;
use std::sync::Wait;

// The words of the table, and its slot. After the first two come the gate before the tickets, how many wait at it, how many turns in a
// row went past them, how many of them are awake or to be woken, whether one of these looks, and how many are to be woken.
const TICKETS: usize = 0;

const SERVED: usize = 1;

const GATE: usize = 2;

const WAITING: usize = 3;

const PAST: usize = 4;

const AWAKE: usize = 5;

const LOOKING: usize = 6;

const WAKES: usize = 7;

// Far behind these, on a line of memory that nobody writes.
const STILL: usize = 23;

const VALUE: usize = 0;

// The gate is open, or shut, or kept for one of those who wait where its last two bits are these: the ticket that is served then is
// before them, so that no keeping is taken for another one.
const OPEN: u64 = 0;

const SHUT: u64 = 1;

const KEPT: u64 = 3;

// So often one looks at the gate before it waits, and who was woken before it sleeps again. Between two looks are so many loads of
// another word, two microseconds: a look takes the line of these words from who has the turn.
const FIRST_LOOKS: u64 = 16;

const LOOKS: u64 = 256;

const PAUSES: u64 = 4096;

// So often in a row one finds the gate open before it passes: who had the turn does not come back for the next one.
const STAYS_OPEN: u64 = 8;

// After so many turns in a row past those who wait, the gate is kept for one that looks: another thread finds nothing of the value
// near its processor, which costs as much as ten short turns. With one's own these are 96: whole transactions of three, four, six or eight.
const SOME_PAST: u64 = 95;

// How many turns in a row may go past those who wait. The gate is then kept for one of them. Where the count is larger, it is kept for as
// many more, one after the other: for all who waited at a turn that took long.
const MOST_PAST: u64 = 119;

/// The rule of the table.
pub struct Ticketed;

impl<V: Stands> TableRule<Option<Box<V>>, View<V::Entry>, ()> for Ticketed {
    ghost use Rattle.turn_lock.specs.Ticket.{Fair, boxed};

    ghost holds = { λ _. Fair (boxed V.stands) V.hands V.takes };

    ghost first = { λ _. fresh };
}

/// A caller's place at a lock: what it has seen of the list, and what it alone may do. It has no bytes.
pub type Pass<V> = Seat<Option<Box<V>>, View<<V as Stands>::Entry>>;

/// A lock that serves its callers in the order of their tickets. Before these is a gate, at which who runs comes before those who
/// sleep, but for a few turns in a row. The value stays at one place in memory: a turn moves a pointer, however large the value is.
#[derive(Drop)]
pub struct TurnLock<V: Stands + Drop> {
    table: Table<Option<Box<V>>, View<V::Entry>, (), Ticketed, Global>,
    ghost sized: { (table.shared.table_id.words ≡ 24) × (table.shared.table_id.slots ≡ 1) },
}

impl<V: Stands + Drop> TurnLock<V> {
    ghost use Rattle.turn_lock.specs.{Lock.{lock_id, turn_value, turn_number}, Pass.{view, IsSamePass, HasNoTurn, HasTurn, KeepsTurn, IsAlike}};

    /// A lock round a value that represents the empty list, and the first pass, which has all units.
    ///
    /// # Errors
    ///
    /// Want of memory. The value is handed back.
    pub fn new(alloc: Global, value: V) -> Result<(TurnLock<V>, Pass<V>), (Memory, V)>
        requires { V.stands value [] }
        ensures ok { IfOk result (λ r. (r.1.table_id ≡ lock_id r.0) × HasNoTurn r.1 × (view r.1 ≡ fresh)) }
        ensures err { IfErr result (λ e. e.1 ≡ value) }
    {
        let boxed = match Box::new(alloc, value) {
            Ok(boxed) => boxed,
            Err(failed) => return Err((Memory, failed.value)),
        };
        let mut slots = Vec::new(alloc);
        if let Err(failed) = slots.push(Some(boxed)) {
            slots.destroy_empty();
            return Err((Memory, Box::into_inner(failed.value.unwrap())));
        }
        match Table::new(alloc, &[0; 24], slots, &()) {
            Ok((table, pass)) => Ok((TurnLock { table }, pass)),
            Err(Refused { mut slots }) => {
                let value = slots.pop().unwrap();
                slots.destroy_empty();
                Err((Memory, Box::into_inner(value.unwrap())))
            }
        }
    }

    /// Waits until it is this pass's turn. The pass has a unit, and no turn yet.
    pub fn take<R: Wait>(&self, rt: &R, pass: &mut Pass<V>) -> Turn<V>
        requires lock { pass.old.table_id ≡ lock_id self.now }
        requires free { HasNoTurn pass.old × (0 < (view pass.old).units) }
        ensures lock { IsSamePass pass.old pass.new }
        ensures turn { HasTurn pass.new result }
        ensures same { IsAlike (view pass.old) (view pass.new) }

        // The value represents a list that begins with what the pass had seen. It has as many entries as tickets were served.
        ensures value { V.stands (turn_value result) (view pass.new).seen }
        ensures seen { IsPrefix (view pass.old).seen (view pass.new).seen }
        ensures served { turn_number result ≡ length (view pass.new).seen }

        // Each number that the pass holds is out. With all units its places are every place.
        ensures out { (n : ℕ) → 0 < times n (view pass.new).holds → IsOut V.hands V.takes n (view pass.new).seen }
        ensures all { (view pass.new).units ≡ LAST → (view pass.new).mine ≡ places (length (view pass.new).seen) }
    {
        self.enter(rt, pass);
        let number = self.draw(rt, pass);
        for _ in rt.forever() {
            let served = self.table.shared.load::<Look>(pass, SERVED);
            if served == number {
                let value = self.table.shared.exchange(pass, VALUE, None).unwrap();
                let pass = Snapshot::of(&*pass);
                return Turn {
                    value,
                    number,
                    pass,
                };
            }
            self.table.shared.park(rt, SERVED, low_half(served));
        }
        unreachable!()
    }

    // Passes the gate. Who runs comes before those who sleep, in at most `MOST_PAST` turns in a row.
    fn enter<R: Wait>(&self, rt: &R, pass: &mut Pass<V>)
        requires { pass.old.table_id ≡ lock_id self.now }
        ensures lock { IsSamePass pass.old pass.new }
        ensures same { pass.new.me ≡ pass.old.me }
    {
        let Some(found) = self.slip_in(pass) else {
            if self.table.shared.peek(WAITING) > 0 {
                let past = self.table.shared.peek(PAST);
                self.table
                    .shared
                    .store::<AtGate>(pass, PAST, past.saturating_add(1));
            }
            return;
        };
        self.table.shared.fetch_add::<AtGate>(pass, WAITING, 1);
        self.wait(rt, pass, found);
        self.table.shared.fetch_sub::<AtGate>(pass, WAITING, 1);
        let past = self.table.shared.peek(PAST);
        let left = if past > MOST_PAST { past - 1 } else { 0 };
        self.table.shared.store::<AtGate>(pass, PAST, left);
    }

    // Passes the gate if it is open, or stays open while one looks, and answers else how it was found last. It waits for nobody.
    fn slip_in(&self, pass: &mut Pass<V>) -> Option<u64>
        requires { pass.old.table_id ≡ lock_id self.now }
        ensures lock { IsSamePass pass.old pass.new }
        ensures same { pass.new.me ≡ pass.old.me }
    {
        if self.changes_gate(pass, OPEN, SHUT) {
            return None;
        }
        let mut open: u64 = 0;
        for _ in 0..FIRST_LOOKS {
            let found = self.table.shared.peek(GATE);
            if is_kept(found) {
                return Some(found);
            }
            open = if found == OPEN {
                open.saturating_add(1)
            } else {
                0
            };
            if open >= STAYS_OPEN && self.changes_gate(pass, OPEN, SHUT) {
                return None;
            }
            self.pause();
        }
        Some(SHUT)
    }

    // Sleeps until the gate is open or kept, but not kept since before this one waits, and passes it.
    fn wait<R: Wait>(&self, rt: &R, pass: &mut Pass<V>, before: u64)
        requires { pass.old.table_id ≡ lock_id self.now }
        ensures lock { IsSamePass pass.old pass.new }
        ensures same { pass.new.me ≡ pass.old.me }
    {
        let mut skipped = before;
        for _ in rt.forever() {
            let found = self.table.shared.peek(GATE);
            if found == OPEN || is_kept(found) && found != skipped {
                if self.changes_gate(pass, found, SHUT) {
                    return;
                }
            } else {
                self.sleep(rt, pass);
                if self.looks(pass) {
                    return;
                }
                skipped = SHUT;
            }
        }
        unreachable!()
    }

    // Sleeps until one is to be woken.
    fn sleep<R: Wait>(&self, rt: &R, pass: &mut Pass<V>)
        requires { pass.old.table_id ≡ lock_id self.now }
        ensures lock { IsSamePass pass.old pass.new }
        ensures same { pass.new.me ≡ pass.old.me }
    {
        for _ in rt.forever() {
            let wakes = self.table.shared.peek(WAKES);
            if wakes == 0 {
                self.table.shared.park(rt, WAKES, 0);
            } else {
                let found = self
                    .table
                    .shared
                    .compare_exchange::<AtGate>(pass, WAKES, wakes, wakes - 1);
                if found == wakes {
                    return;
                }
            }
        }
        unreachable!()
    }

    // Who was woken looks, and answers whether it passed the gate. If it did not, it is no longer awake before it looks once more.
    fn looks(&self, pass: &mut Pass<V>) -> bool
        requires { pass.old.table_id ≡ lock_id self.now }
        ensures lock { IsSamePass pass.old pass.new }
        ensures same { pass.new.me ≡ pass.old.me }
    {
        self.table.shared.store::<AtGate>(pass, LOOKING, 1);
        let has_passed = self.passes(pass);
        self.table.shared.store::<AtGate>(pass, LOOKING, 0);
        self.table.shared.fetch_sub::<AtGate>(pass, AWAKE, 1);
        has_passed
    }

    // Passes the gate if it is kept, or stays open, while one looks. Otherwise turns take long, and it is to be kept for each of those who
    // wait, one after the other.
    fn passes(&self, pass: &mut Pass<V>) -> bool
        requires { pass.old.table_id ≡ lock_id self.now }
        ensures lock { IsSamePass pass.old pass.new }
        ensures same { pass.new.me ≡ pass.old.me }
    {
        let mut open: u64 = 0;
        for _ in 0..LOOKS {
            let found = self.table.shared.peek(GATE);
            open = if found == OPEN {
                open.saturating_add(1)
            } else {
                0
            };
            if (open >= STAYS_OPEN || is_kept(found)) && self.changes_gate(pass, found, SHUT) {
                return true;
            }
            self.pause();
        }
        let waiting = self.table.shared.peek(WAITING);
        self.table
            .shared
            .store::<AtGate>(pass, PAST, MOST_PAST.saturating_add(waiting));
        false
    }

    // Between two looks at the gate.
    fn pause(&self) {
        for _ in 0..PAUSES {
            self.table.shared.peek(STILL);
        }
    }

    // Whether the gate was so, and was changed.
    fn changes_gate(&self, pass: &mut Pass<V>, from: u64, to: u64) -> bool
        requires { pass.old.table_id ≡ lock_id self.now }
        ensures lock { IsSamePass pass.old pass.new }
        ensures same { pass.new.me ≡ pass.old.me }
    {
        self.table
            .shared
            .compare_exchange::<AtGate>(pass, GATE, from, to)
            == from
    }

    // Where all tickets are drawn, it waits for ever.
    fn draw<R: Wait>(&self, rt: &R, pass: &mut Pass<V>) -> u64
        requires lock { pass.old.table_id ≡ lock_id self.now }
        requires free { HasNoTurn pass.old × (0 < (view pass.old).units) }
        ensures lock { IsSamePass pass.old pass.new }
        ensures ticket { pass.new.me ≡ (waits result (view pass.old), []) }
    {
        let mut next = self.table.shared.peek(TICKETS);
        for _ in rt.forever() {
            if next < LAST {
                let found = self
                    .table
                    .shared
                    .compare_exchange::<Draw>(pass, TICKETS, next, next + 1);
                if found == next {
                    return next;
                }
                next = found;
            } else {
                self.table.shared.park(rt, TICKETS, low_half(next));
                next = self.table.shared.peek(TICKETS);
            }
        }
        unreachable!()
    }

    /// Gives the turn back, with the entry that `N` names at the end of the list. It waits for nobody.
    pub fn give<N: Names<V::Entry>>(&self, pass: &mut Pass<V>, turn: Turn<V>)
        requires lock { pass.old.table_id ≡ lock_id self.now }
        requires turn { HasTurn pass.old turn }
        requires value { V.stands (turn_value turn) ((view pass.old).seen ++ N.entry ∷ []) }
        requires hands { AreFree V.hands V.takes (option_to_list (V.hands N.entry)) (view pass.old).seen }
        requires needs { AreHeld (V.needs N.entry) (view pass.old).holds }
        requires takes { AreHeld (V.takes N.entry) (view pass.old).holds × AreDistinct (V.takes N.entry) }
        ensures lock { IsSamePass pass.old pass.new }
        ensures free { HasNoTurn pass.new }
        ensures seen { (view pass.new).seen ≡ (view pass.old).seen ++ N.entry ∷ [] }
        ensures mine { (view pass.new).mine ≡ (view pass.old).mine ++ length (view pass.old).seen ∷ [] }
        ensures holds { (view pass.new).holds ≡ held_after V.hands V.takes N.entry (view pass.old).holds }
        ensures units { (view pass.new).units ≡ (view pass.old).units }

        // The number that it hands out is out with this pass, and none that it takes back is out any more.
        ensures handed { AreOut V.hands V.takes (option_to_list (V.hands N.entry)) (view pass.new).seen }
        ensures held { AreHeld (option_to_list (V.hands N.entry)) (view pass.new).holds }
        ensures taken { AreFree V.hands V.takes (V.takes N.entry) (view pass.new).seen }
    {
        let Turn {
            value,
            number,
            pass: _,
        } = turn;
        let _ = self.table.shared.exchange(pass, VALUE, Some(value));
        let served = number.wrapping_add(1);
        self.table.shared.store::<Advance<N>>(pass, SERVED, served);
        self.leave(pass, served);
    }

    // Wakes who has a later ticket, and then opens the gate. It is kept for one of those who wait where too many turns went past them.
    fn leave(&self, pass: &mut Pass<V>, served: u64)
        requires { pass.old.table_id ≡ lock_id self.now }
        ensures lock { IsSamePass pass.old pass.new }
        ensures same { pass.new.me ≡ pass.old.me }
    {
        let later = self.table.shared.peek(TICKETS).saturating_sub(served);
        for _ in 0..later {
            self.table.shared.wake_one(SERVED);
        }
        let gate = if self.is_enough() {
            served.wrapping_mul(4).wrapping_add(KEPT)
        } else {
            OPEN
        };
        self.table.shared.store::<AtGate>(pass, GATE, gate);
        if self.table.shared.peek(WAITING) > 0 && self.is_to_wake(gate) {
            self.wake(pass);
        }
    }

    // Wakes one of those who wait.
    fn wake(&self, pass: &mut Pass<V>)
        requires { pass.old.table_id ≡ lock_id self.now }
        ensures lock { IsSamePass pass.old pass.new }
        ensures same { pass.new.me ≡ pass.old.me }
    {
        self.table.shared.fetch_add::<AtGate>(pass, AWAKE, 1);
        self.table.shared.fetch_add::<AtGate>(pass, WAKES, 1);
        self.table.shared.wake_one(WAKES);
    }

    // Whether one of those who wait is to be woken. Who was woken may still want a processor, while the gate is kept.
    fn is_to_wake(&self, gate: u64) -> bool {
        self.table.shared.peek(AWAKE) == 0 || is_kept(gate) && self.table.shared.peek(LOOKING) == 0
    }

    // Whether too many turns went past those who wait.
    fn is_enough(&self) -> bool {
        let past = self.table.shared.peek(PAST);
        if past < SOME_PAST || self.table.shared.peek(WAITING) == 0 {
            return false;
        }
        past >= MOST_PAST || self.table.shared.peek(LOOKING) == 1
    }

    /// A new pass, which has seen the same and gets the number and the units. It waits for nobody.
    pub fn split(&self, pass: &mut Pass<V>, number: Option<u64>, units: u64) -> Pass<V>
        requires lock { pass.old.table_id ≡ lock_id self.now }
        requires units { units < (view pass.old).units }
        requires number { AreHeld (option_to_list number) (view pass.old).holds × (IsSome number → 0 < units) }
        ensures lock { IsSamePass pass.old pass.new }
        ensures stays { KeepsTurn pass.old pass.new }
        ensures kept { view pass.new ≡ kept_part number units (view pass.old) }
        ensures new { (result.table_id ≡ lock_id self.now) × HasNoTurn result }
        ensures given { view result ≡ given_part number units (view pass.old) }
    {
        self.cut::<Brand>(pass, number, units)
    }

    fn cut<M: Portion>(&self, pass: &mut Pass<V>, number: Option<u64>, units: u64) -> Pass<V>
        requires portion { (M.number ≡ number) × (M.units ≡ units) }
        requires lock { pass.old.table_id ≡ lock_id self.now }
        requires units { units < (view pass.old).units }
        requires number { AreHeld (option_to_list number) (view pass.old).holds × (IsSome number → 0 < units) }
        ensures lock { IsSamePass pass.old pass.new }
        ensures stays { KeepsTurn pass.old pass.new }
        ensures kept { view pass.new ≡ kept_part number units (view pass.old) }
        ensures new { (result.table_id ≡ lock_id self.now) × HasNoTurn result }
        ensures given { view result ≡ given_part number units (view pass.old) }
    {
        // Contracts alone read the portion.
        let _ = (number, units);
        self.table.shared.split_seat::<Cut<M>>(pass)
    }

    /// Takes another pass, which has no turn, into this one, with its units and its numbers. It waits for nobody.
    pub fn join(&self, pass: &mut Pass<V>, other: Pass<V>)
        requires lock { (pass.old.table_id ≡ lock_id self.now) × (other.table_id ≡ lock_id self.now) }
        requires units { 0 < (view pass.old).units }
        requires free { HasNoTurn other }
        ensures lock { IsSamePass pass.old pass.new }
        ensures stays { KeepsTurn pass.old pass.new }
        ensures both { view pass.new ≡ both (view pass.old) (view other) }

        // Each of the two had seen a beginning of what is now seen.
        ensures seen { IsPrefix (view pass.old).seen (view pass.new).seen × IsPrefix (view other).seen (view pass.new).seen }
        ensures placed { IsPlaced (view pass.new) }
        ensures places { (p : ℕ) → times p (view pass.new).mine ≡ times p (view pass.old).mine + times p (view other).mine }

        // No number was held by both, and all passes together have no more than all units.
        ensures alone { (n : ℕ) → times n (view pass.new).holds ≤ 1 }
        ensures units { (view pass.new).units ≤ LAST }
    {
        self.table.shared.join_seat::<Glue>(pass, other);
        self.table.shared.load::<Settle>(pass, SERVED);
    }

    /// Ends the lock, and gives its value back. The pass has all units, and no turn. It waits for nobody.
    pub fn close(self, pass: Pass<V>) -> V
        requires lock { pass.table_id ≡ lock_id self }
        requires free { HasNoTurn pass }
        requires all { (view pass).units ≡ LAST }
        ensures value { V.stands result (view pass).seen }
        ensures all { (view pass).mine ≡ places (length (view pass).seen) }
    {
        let TurnLock { table } = self;
        let mut closed = table.close_with(pass);
        let value = closed.take(VALUE);
        closed.free();
        Box::into_inner(value.unwrap())
    }
}

// Whether the gate is kept for one of those who waited before.
fn is_kept(gate: u64) -> bool {
    gate % 4 == KEPT
}

// A thread parks on the low half of a word.
fn low_half(word: u64) -> u32
    ensures { result ≡ word % 2 ^ 32 }
{
    (word % (1 << 32)) as u32
}
