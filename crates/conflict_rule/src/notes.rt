// What each commit wrote.
ghost use Rattle.std.specs.{Prelude.{◌≡◌, ℕ, ◌+◌, ◌-◌, ◌<◌, ◌≤◌, [], ◌∷◌, ◌++◌, OnOk, IsOk, IfOk, List, Some, drop, length, option_copied, slice_index_or, take}, List.All};
ghost use Rattle.byte_marks.specs.declared.extent.Extent.{Extent};
ghost use Rattle.conflict_rule.specs.Notes.{above, note_of, RisesFrom};

use crate::rest::Rest;
use byte_marks::Touched;
use counts::{Ledger, Steps};
use iso_model::Memory;
use std::alloc::Global;
use std::marker::Model;

/// The bytes that each commit above some number wrote, the numbers rising.
#[derive(Drop)]
pub struct Notes {
    notes: Vec<(u64, Touched)>,
    // the memory of commits that were dropped, for later ones
    spare: Vec<Touched>,
}

impl Model for Notes {
    ghost use Rattle.std.specs.Prelude.{vec_capacity};
    ghost use Rattle.conflict_rule.specs.Notes.{Held, RisesFrom};

    ghost Value = { Held };

    ghost view = { λ a. record { notes = a.notes.items; room = vec_capacity a.notes } };

    ghost invariant = { λ a. RisesFrom 0 a.notes.items };
}

// The place of the first note above a number.
fn place_after(notes: &[(u64, Touched)], number: u64) -> usize
    requires { RisesFrom 0 notes.now }
    ensures within { result ≤ length notes.now }
    ensures before { (k : ℕ) → k < result → (d : ℕ × List (ℕ × List Extent)) → (slice_index_or notes.now k d).0 ≤ number }
    ensures after { (k : ℕ) → result ≤ k → k < length notes.now → (d : ℕ × List (ℕ × List Extent)) → number < (slice_index_or notes.now k d).0 }
{
    let Some((first, _)) = notes.split_first() else {
        return 0;
    };
    if number < first.0 {
        return 0;
    }
    // The numbers mostly have no gap. Then the note of this one stands where the distance from the first says.
    let place = (number - first.0) as usize;
    if place < notes.len() && notes[place].0 == number {
        return place + 1;
    }
    notes.partition_point(|note| note.0 <= number)
}

// How many sets are kept at most when their commits are dropped: as many as the commits that are made at once.
const MOST_SPARE: usize = 64;

// Takes out all notes but the first ones. What they had is spare then.
fn take_behind(notes: &mut Vec<(u64, Touched)>, spare: &mut Vec<Touched>, left: usize)
    ensures { notes.new.items ≡ take left notes.old.items }
{
    while notes.len() > left {
        let Some((_, writes)) = notes.pop() else {
            return;
        };
        if spare.len() < MOST_SPARE {
            // Without memory for the list it is let go.
            let _ = spare.push(writes);
        }
    }
}

// Puts the first notes behind the others.
fn put_last(notes: &mut [(u64, Touched)], count: usize)
    requires { count ≤ length notes.old }
    ensures { take (length notes.old - count) notes.new ≡ drop count notes.old }
{
    notes.rotate_left(count);
}

// Takes the first notes out. What they had is spare then.
fn take_first(notes: &mut Vec<(u64, Touched)>, spare: &mut Vec<Touched>, count: usize)
    requires { count ≤ length notes.old.items }
    ensures { notes.new.items ≡ drop count notes.old.items }
{
    let left = notes.len() - count;
    put_last(notes.as_mut_slice(), count);
    take_behind(notes, spare, left);
}

impl Notes {
    /// No commit. It takes no memory.
    pub fn empty(alloc: Global) -> Notes
        ensures { result.notes ≡ [] }
    {
        Notes {
            notes: Vec::new(alloc),
            spare: Vec::new(alloc),
        }
    }

    /// Makes room for one more commit. Where the room is there already it takes no memory.
    ///
    /// # Errors
    ///
    /// Want of memory. The notes stay.
    pub fn reserve(&mut self) -> Result<(), Memory>
        ensures same { self.new.notes ≡ self.old.notes }
        ensures room { OnOk result (length self.new.notes < self.new.room) }
        ensures succeeds { length self.old.notes < self.old.room → IsOk result }
    {
        self.notes.reserve(1)?;
        Ok(())
    }

    /// Adds a commit with the bytes that it wrote. There is room for it, and its number is above those that are held.
    pub fn add(&mut self, number: u64, writes: Touched)
        requires room { length self.old.notes < self.old.room }
        requires number { All (λ note. note.0 < number) self.old.notes }
        ensures { self.new.notes ≡ self.old.notes ++ (number, writes) ∷ [] }
    {
        let _ = self.notes.push((number, writes));
    }

    /// Makes room for `count` more commits.
    ///
    /// # Errors
    ///
    /// Want of memory. The notes stay.
    pub fn reserve_more(&mut self, count: usize) -> Result<(), Memory>
        ensures same { self.new.notes ≡ self.old.notes }
        ensures room { OnOk result (length self.new.notes + count ≤ self.new.room) }
    {
        self.notes.reserve(count)?;
        Ok(())
    }

    /// Makes room for as many more commits as others hold.
    ///
    /// # Errors
    ///
    /// Want of memory. The notes stay.
    pub fn reserve_for(&mut self, others: &Notes) -> Result<(), Memory>
        ensures same { self.new.notes ≡ self.old.notes }
        ensures room { OnOk result (length self.new.notes + length others.now.notes ≤ self.new.room) }
    {
        self.reserve_more(others.notes.len())
    }

    /// Adds later commits, for which there is room.
    pub fn take_all(&mut self, others: Notes)
        requires room { length self.old.notes + length others.notes ≤ self.old.room }
        requires rising { RisesFrom 0 (self.old.notes ++ others.notes) }
        ensures { self.new.notes ≡ self.old.notes ++ others.notes }
    {
        let mut more = others.notes;
        let _ = self.notes.append(&mut more);
    }

    /// Keeps the commits above the floor.
    pub fn drop_to(&mut self, floor: u64)
        ensures notes { self.new.notes ≡ above floor self.old.notes }
    {
        let place = place_after(self.notes.as_slice(), floor);
        take_first(&mut self.notes, &mut self.spare, place);
    }

    /// A set for the bytes of one more commit, whatever is in it. It takes no memory, and may have that of a commit that was dropped.
    pub fn spare_set(&mut self) -> Touched
        ensures { self.new ≡ self.old }
    {
        match self.spare.pop() {
            Some(writes) => writes,
            None => Touched::empty(*self.notes.allocator()),
        }
    }

    /// A copy of the notes of the commits above a number.
    ///
    /// # Errors
    ///
    /// Want of memory.
    pub fn copy_after(&self, number: u64) -> Result<Notes, Memory>
        ensures { IfOk result (λ copy. copy.notes ≡ above number self.now.notes) }
    {
        let place = place_after(self.notes.as_slice(), number);
        let count = self.notes.len() - place;
        let mut notes = Vec::with_capacity(*self.notes.allocator(), count)?;
        for note in &self.notes.as_slice()[place..] {
            notes.push((note.0, note.1.copy()?))?;
        }
        Ok(Notes {
            notes,
            spare: Vec::new(*self.notes.allocator()),
        })
    }

    /// The bytes that the commit of this number wrote, and none exactly where no such commit is held. One step.
    pub fn look_at<L: Ledger>(&self, number: u64, steps: &mut Steps<L>) -> Option<&Touched>
        ensures note { option_copied result ≡ note_of number self.now.notes }
        ensures step { steps.new ≡ steps.old + 1 }
    {
        steps.tick();
        let place = place_after(self.notes.as_slice(), number);
        if place > 0 && self.notes[place - 1].0 == number {
            Some(&self.notes[place - 1].1)
        } else {
            None
        }
    }

    // The commits above a number.
    pub(crate) fn after(&self, number: u64) -> Rest<'_>
        ensures notes { result ≡ above number self.now.notes }
    {
        let place = place_after(self.notes.as_slice(), number);
        Rest::of(&self.notes.as_slice()[place..])
    }
}
