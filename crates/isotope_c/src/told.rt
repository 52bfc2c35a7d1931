// What C is told of an answer.
ghost use Rattle.std.specs.Prelude.{◌≡◌, ◌++◌, IfOk, OnOk, map, pos};
ghost use Rattle.isotope_c.specs.Told.{IsScanned, begun, ended_of, ended_so, filled, fitted, found, group_told, laid, member_ended, over, pairs_text, part_text, reply_ended, shown, size_told, stop_code, waited_told};

use crate::code::{MEMORY, NO_TRANSACTION, TOO_SMALL, code, code_of};
use crate::records::Ended;
use device_desk::{Status, Waited, status_of_reply};
use iso_alloc::word_at;
use iso_model::{Bytes, Clash, GroupReply};
use script_model::{Reply, Stop};
use std::alloc::{AllocError, Global};

// Copies bytes into a slice that is as long.
fn fit(bytes: &[u8], into: &mut [u8]) -> i32
    ensures { (result, into.new) ≡ fitted bytes.now into.old }
{
    if bytes.len() != into.len() {
        return TOO_SMALL;
    }
    into.copy_from_slice(bytes);
    0
}

/// Shows the bytes that an answer shows.
pub(crate) fn show(answer: &Result<Reply, Stop>, into: &mut [u8]) -> i32
    ensures { (result, into.new) ≡ shown into.old answer.now }
{
    match answer {
        Ok(Reply::Shown(bytes)) => fit(bytes.as_slice(), into),
        _ => code_of(answer),
    }
}

/// Copies bytes to the front of a slice that has room for them, and tells how many they are in any case.
pub(crate) fn lay(bytes: &[u8], into: &mut [u8], len: &mut u64) -> i32
    ensures { (result, (into.new, len.new)) ≡ laid bytes.now into.old }
{
    let n = bytes.len();
    *len = n as u64;
    if n > into.len() {
        return TOO_SMALL;
    }
    into[..n].copy_from_slice(bytes);
    0
}

/// Hands over the bytes that an answer has found.
pub(crate) fn hand_over(answer: &Result<Reply, Stop>, into: &mut [u8], len: &mut u64) -> i32
    ensures { (result, (into.new, len.new)) ≡ found into.old len.old answer.now }
{
    match answer {
        Ok(Reply::Found(bytes)) => lay(bytes.as_slice(), into, len),
        _ => code_of(answer),
    }
}

// Tells the size that four bytes spell, the highest first.
#[tactic(auto, using(std::proofs::lemmas::List::take_all))]
fn spelled(bytes: &[u8], size: &mut u64) -> i32
    ensures { (result, size.new) ≡ size_told size.old (Ok (Reply.Found bytes.now)) }
{
    if bytes.len() != 4 {
        return code(Status::Broken);
    }
    *size = u64::from(word_at(bytes, 0));
    0
}

/// Tells the size that an answer has found.
pub(crate) fn tell_size(answer: &Result<Reply, Stop>, size: &mut u64) -> i32
    ensures { (result, size.new) ≡ size_told size.old answer.now }
{
    match answer {
        Ok(Reply::Found(bytes)) => spelled(bytes.as_slice(), size),
        _ => code_of(answer),
    }
}

// Adds a key or a value behind its length.
fn add_part(text: &mut Vec<u8>, part: &[u8]) -> Result<(), AllocError>
    ensures { OnOk result (text.new.items ≡ text.old.items ++ part_text part.now) }
{
    text.push(part.len().min(255) as u8)?;
    text.extend_from_slice(part)
}

/// The pairs as one text.
pub(crate) fn text_of(alloc: Global, pairs: &[(Bytes, Bytes)]) -> Result<Vec<u8>, AllocError>
    ensures { IfOk result (λ v. v.items ≡ pairs_text pairs.now) }
{
    let mut text = Vec::new(alloc);
    for (key, value) in pairs {
        add_part(&mut text, key.as_slice())?;
        add_part(&mut text, value.as_slice())?;
    }
    Ok(text)
}

/// Hands over the pairs that an answer has found, as one text.
pub(crate) fn hand_over_pairs(
    alloc: Global,
    answer: &Result<Reply, Stop>,
    into: &mut [u8],
    len: &mut u64,
) -> i32
    ensures { IsScanned into.old len.old answer.now (result, (into.new, len.new)) }
{
    match answer {
        Ok(Reply::Pairs(pairs)) => match text_of(alloc, pairs.as_slice()) {
            Ok(text) => lay(&text, into, len),
            Err(_) => MEMORY,
        },
        _ => code_of(answer),
    }
}

/// Tells the number of a transaction that has begun, and the commit that it is shown.
pub(crate) fn begun(answer: &Result<Reply, Stop>, number: u64, tx: &mut u64, at: &mut u64) -> i32
    ensures { (result, (tx.new, at.new)) ≡ begun number tx.old at.old answer.now }
{
    match answer {
        Ok(Reply::Began(commit)) => {
            *tx = number;
            *at = *commit;
            0
        }
        _ => code_of(answer),
    }
}

#[inline(always)]
fn ended_so(status: i32) -> Ended
    ensures { result ≡ ended_so status }
{
    Ended {
        status,
        block: 0,
        at: 0,
        pad: 0,
        commit: 0,
        met: 0,
        need: 0,
        room: 0,
    }
}

#[inline(always)]
fn committed(commit: u64) -> Ended
    ensures { result ≡ record (ended_so (pos 0)) { commit = commit } }
{
    let mut ended = ended_so(0);
    ended.commit = commit;
    ended
}

#[inline(always)]
fn met(clash: &Clash) -> Ended
    ensures { result ≡ record (ended_so (pos 1)) { met = clash.now.commit; block = clash.now.block; at = clash.now.at } }
{
    let mut ended = ended_so(1);
    ended.met = clash.commit;
    ended.block = clash.block;
    ended.at = u32::from(clash.at);
    ended
}

#[inline(always)]
fn full(need: u64, room: u64) -> Ended
    ensures { result ≡ record (ended_so (pos 4)) { need = need; room = room } }
{
    let mut ended = ended_so(4);
    ended.need = need;
    ended.room = room;
    ended
}

#[inline(always)]
fn reply_ended(reply: &Reply) -> Ended
    ensures { result ≡ reply_ended reply.now }
{
    match reply {
        Reply::Committed(commit) => committed(*commit),
        Reply::Conflict(clash) => met(clash),
        Reply::LogFull { need, free } => full(*need, *free),
        _ => ended_so(code(status_of_reply(reply))),
    }
}

/// How a transaction ended.
#[inline(always)]
pub(crate) fn ended_of(answer: &Result<Reply, Stop>) -> Ended
    ensures { result ≡ ended_of answer.now }
{
    match answer {
        Ok(reply) => reply_ended(reply),
        Err(_) => ended_so(code_of(answer)),
    }
}

fn member_ended(answer: &Option<GroupReply>) -> Ended
    ensures { result ≡ member_ended answer.now }
{
    match answer {
        None => ended_so(NO_TRANSACTION),
        Some(GroupReply::Committed(commit)) => committed(*commit),
        Some(GroupReply::ReadOnly) => ended_so(0),
        Some(GroupReply::Conflict(clash)) => met(clash),
        Some(GroupReply::Full { need, free }) => full(*need, *free),
        Some(GroupReply::Worn) => ended_so(19),
    }
}

// Puts the ends of a group's members into the places.
fn fill_places(answers: &[Option<GroupReply>], places: &mut [Ended])
    ensures { places.new ≡ over (map member_ended answers.now) places.old }
{
    let Some((answer, others)) = answers.split_first() else {
        return;
    };
    let Some((place, rest)) = places.split_first_mut() else {
        return;
    };
    *place = member_ended(answer);
    fill_places(others, rest)
}

/// Puts into the places what a group is answered.
pub(crate) fn group_told(answer: &Result<Reply, Stop>, places: &mut [Ended]) -> i32
    ensures { (result, places.new) ≡ group_told places.old answer.now }
{
    match answer {
        Ok(Reply::Grouped(answers)) => {
            fill_places(answers.as_slice(), places);
            0
        }
        _ => code_of(answer),
    }
}

// Puts the ends that have replies into the first places, and the status of those that have none into the others.
fn fill_ends(replies: &[Reply], status: i32, places: &mut [Ended])
    ensures { places.new ≡ filled replies.now status places.old }
{
    let Some((place, rest)) = places.split_first_mut() else {
        return;
    };
    let Some((reply, others)) = replies.split_first() else {
        *place = ended_so(status);
        return fill_ends(replies, status, rest);
    };
    *place = reply_ended(reply);
    fill_ends(others, status, rest)
}

// The status of ends that have no reply.
fn stop_code(stop: Option<Stop>) -> i32
    ensures { result ≡ stop_code stop }
{
    match stop {
        None => 0,
        Some(why) => code_of(&Err(why)),
    }
}

/// Puts into the places what ends are answered that were asked for together.
pub(crate) fn waited_told(waited: &Waited, places: &mut [Ended]) -> i32
    ensures { (result, places.new) ≡ waited_told places.old waited.now.replies.items waited.now.stop }
{
    let status = stop_code(waited.stop);
    fill_ends(&waited.replies, status, places);
    status
}
