// The members of a group, out of the places at which they were found.
ghost use Rattle.std.specs.Prelude.{◌≡◌, ◌<◌, ◌≤◌, [], false, length, true, IfOk, vec_capacity};
ghost use Rattle.group_commit.specs.Groups.{found_in, marks_of};

use iso_disk::Disk;
use iso_model::{Memory, Reserved};
use iso_shared::{Origin, Tx};
use std::alloc::Global;

/// Room for the members of a group, and for which places have one.
pub(crate) struct Room<D: Disk + Drop, O: Origin> {
    pub(crate) group: Vec<Tx<D, O>>,
    pub(crate) marks: Reserved<bool>,
}

/// Whether one of these places has a transaction.
pub(crate) fn is_found<D: Disk + Drop, O: Origin>(members: &[Option<Tx<D, O>>]) -> bool
    ensures none { result ≡ false → found_in members.now ≡ [] }
    ensures some { result ≡ true → 0 < length (found_in members.now) }
{
    let Some((member, rest)) = members.split_first() else {
        return false;
    };
    member.is_some() || is_found(rest)
}

/// Lets go of places of which none has a transaction.
pub(crate) fn let_go<D: Disk + Drop, O: Origin>(members: Vec<Option<Tx<D, O>>>)
    requires none { found_in members.items ≡ [] }
{
    let mut rest = members.into_iter();
    while let Some(member) = rest.next() {
        if let Some(_) = member {
            unreachable!()
        }
    }
    rest.destroy_empty();
}

/// Room for the members of a group of `count`.
///
/// # Errors
///
/// Want of memory.
pub fn group_room<D: Disk + Drop, O: Origin>(
    alloc: Global,
    count: u32,
) -> Result<Vec<Tx<D, O>>, Memory>
    ensures { IfOk result (λ v. (v.items ≡ []) × (count ≤ vec_capacity v)) }
{
    let mut group = Vec::new(alloc);
    match group.reserve(count as usize) {
        Ok(()) => Ok(group),
        Err(_) => {
            group.destroy_empty();
            Err(Memory)
        }
    }
}

/// All memory that the members of a group of `count` places take here.
pub(crate) fn make_room<D: Disk + Drop, O: Origin>(
    alloc: Global,
    count: u32,
) -> Result<Room<D, O>, Memory>
    ensures group { IfOk result (λ r. (r.group.items ≡ []) × (count ≤ vec_capacity r.group)) }
    ensures marks { IfOk result (λ r. (r.marks.items ≡ []) × (count ≤ r.marks.room)) }
{
    let mut marks = Reserved::empty(alloc);
    marks.reserve(count)?;
    let group = group_room(alloc, count)?;
    Ok(Room { group, marks })
}

/// Takes those that there are out of their places, in order, and marks these.
pub(crate) fn gather<D: Disk + Drop, O: Origin>(
    members: Vec<Option<Tx<D, O>>>,
    group: &mut Vec<Tx<D, O>>,
    marks: &mut Reserved<bool>,
)
    requires empty { (group.old.items ≡ []) × (marks.old.items ≡ []) }
    requires room { (length members.items ≤ vec_capacity group.old) × (length members.items ≤ marks.old.room) }
    ensures group { group.new.items ≡ found_in members.items }
    ensures marks { marks.new.items ≡ marks_of members.items }
{
    let mut rest = members.into_iter();
    while let Some(member) = rest.next() {
        match member {
            Some(tx) => {
                marks.push_within(true);
                group.push_reserved(tx);
            }
            None => marks.push_within(false),
        }
    }
    rest.destroy_empty();
}
