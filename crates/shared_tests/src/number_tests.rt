//! Small runs of the lock over a desk that hands out numbers.
ghost use Rattle.std.specs.{Prelude.{◌≡◌, ℕ, false, ◌+◌, ◌<◌, ◌≤◌, ◌∷◌, [], Some, None}, List.AllByRecursion};
ghost use Rattle.turn_lock.specs.{Lists.{times, AreDistinct}, Numbers.{is_out, AreFree, AreHeld}, Lock.{lock_id, turn_value}, Pass.{view, IsSamePass, HasNoTurn, HasTurn}};

use crate::turn_tests::same;
use std::collections::LinkedList;
use std::marker::Brand;
use std::process::Abort;
use std::sync::Wait;
use std::test::Fail;
use turn_lock::{LAST, Names, Pass, Stands, Turn, TurnLock};

/// What a desk's turn adds: the number that it hands out, and those that it takes back.
struct Slip {
    out: Option<u64>,
    back: LinkedList<u64>,
}

/// A desk that hands out numbers, each one once.
#[derive(Drop)]
struct Desk {
    next: u64,
}

impl Stands for Desk {
    type Entry = Slip;

    // The numbers that come next are not out.
    ghost stands = { λ desk list. (n : ℕ) → desk.next ≤ n → is_out (λ e. e.out) (λ e. e.back) n list ≡ false };

    ghost hands = { λ e. e.out };

    ghost needs = { λ e. e.back };

    ghost takes = { λ e. e.back };
}

impl Names<Slip> for Brand {
    ghost entry = { record { out = None; back = [] } };
}

// Gives the turn back with a number handed out.
fn hand_out<N: Names<Slip>>(
    lock: &TurnLock<Desk>,
    pass: &mut Pass<Desk>,
    turn: Turn<Desk>,
    number: u64,
)
    requires named { N.entry ≡ record { out = Some number; back = [] } }
    requires lock { (pass.old.table_id ≡ lock_id lock.now) × HasTurn pass.old turn }
    requires next { (turn_value turn).next ≡ number + 1 }
    requires value { (n : ℕ) → number ≤ n → is_out (λ e. e.out) (λ e. e.back) n (view pass.old).seen ≡ false }
    ensures rests { IsSamePass pass.old pass.new × HasNoTurn pass.new × ((view pass.new).units ≡ (view pass.old).units) }
    ensures holds { (view pass.new).holds ≡ number ∷ (view pass.old).holds }
{
    let _ = number;
    lock.give::<N>(pass, turn);
}

// Gives the turn back with these numbers taken back.
fn take_back<N: Names<Slip>>(
    lock: &TurnLock<Desk>,
    pass: &mut Pass<Desk>,
    turn: Turn<Desk>,
    numbers: &[u64],
)
    requires named { N.entry ≡ record { out = None; back = numbers.now } }
    requires lock { (pass.old.table_id ≡ lock_id lock.now) × HasTurn pass.old turn }
    requires value { (n : ℕ) → (turn_value turn).next ≤ n → is_out (λ e. e.out) (λ e. e.back) n (view pass.old).seen ≡ false }
    requires held { AreHeld numbers.now (view pass.old).holds × AreDistinct numbers.now }
    ensures rests { IsSamePass pass.old pass.new × HasNoTurn pass.new × ((view pass.new).units ≡ (view pass.old).units) }
    ensures back { AreFree (λ e. e.out) (λ e. e.back) numbers.now (view pass.new).seen }
    ensures holds { AllByRecursion (λ n. times n (view pass.new).holds ≡ 0) numbers.now }
{
    let _ = numbers;
    lock.give::<N>(pass, turn);
}

// One turn, in which the next number is handed out.
fn next_number<R: Wait + Abort>(rt: &R, lock: &TurnLock<Desk>, pass: &mut Pass<Desk>) -> u64
    requires { (pass.old.table_id ≡ lock_id lock.now) × HasNoTurn pass.old × (0 < (view pass.old).units) }
    ensures rests { IsSamePass pass.old pass.new × HasNoTurn pass.new × ((view pass.new).units ≡ (view pass.old).units) }
    ensures holds { (view pass.new).holds ≡ result ∷ (view pass.old).holds }
{
    let mut turn = lock.take(rt, pass);
    let desk = turn.value();
    let number = desk.next;
    assert!(rt; number < LAST);
    desk.next = number + 1;
    hand_out::<Brand>(lock, pass, turn, number);
    number
}

// Hands two numbers out, moves them to a pass of their own, and takes both back there with one entry.
fn served_numbers<R: Wait + Abort>(
    rt: &R,
    lock: &TurnLock<Desk>,
    pass: &mut Pass<Desk>,
) -> (u64, u64)
    requires { (pass.old.table_id ≡ lock_id lock.now) × HasNoTurn pass.old × (2 < (view pass.old).units) }
    ensures { IsSamePass pass.old pass.new × HasNoTurn pass.new × ((view pass.new).units ≡ (view pass.old).units) }
{
    let first = next_number(rt, lock, pass);
    let mut holder = lock.split(pass, Some(first), 1);
    let second = next_number(rt, lock, pass);
    let other = lock.split(pass, Some(second), 1);
    lock.join(&mut holder, other);
    let turn = lock.take(rt, &mut holder);
    take_back::<Brand>(lock, &mut holder, turn, &[second, first]);
    lock.join(pass, holder);
    (first, second)
}

#[test]
fn two_numbers_move_with_their_pass_and_are_taken_back_at_once(
    rt: HostRuntime,
) -> Result<(), Fail> {
    let Ok((lock, mut pass)) = TurnLock::new(rt.alloc(), Desk { next: 0 }) else {
        panic!(rt; "memory")
    };
    let early = served_numbers(&rt, &lock, &mut pass);
    let late = served_numbers(&rt, &lock, &mut pass);
    let desk = lock.close(pass);
    same(&rt, (early, late, desk.next), ((0, 1), (2, 3), 4));
    Ok(())
}
