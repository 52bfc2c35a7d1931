// The parts of a block's versions that show at the last number, in order.
ghost use Rattle.std.specs.{Prelude.{◌≡◌, ◌+◌, ◌-◌, ◌^◌, ◌<◌, ◌≤◌, ◌++◌, [], ◌∷◌, ℕ, List, length, drop, slice_index_or, take, true, vec_capacity, vec_len}, List.insert};
ghost use Rattle.mv_index.specs.{declared.version.Version.Version, Pieces.{ArePieces, ArePlaced, Follow, back_of, backs, begun, ended, front_of, fronts}, Ranges.{AllBegin, AllEnd, AreCuts, HasBefore, HasEnded, IsRange, StaysIn}, Shown.{AllLie, AllMeet, Lies, ShowTheSameIn}, Versions.no_version};

use crate::Version;

/// The part of a piece before a byte of its block. The piece begins there or before.
fn front(piece: &Version, to: u16) -> Version
    requires { piece.now.off ≤ to }
    ensures { result ≡ front_of to piece.now }
{
    Version {
        len: piece.len.min(to - piece.off),
        ..*piece
    }
}

/// The part of a piece from a byte of its block on.
fn back(piece: &Version, from: u16) -> Version
    requires placed { Lies 4096 (2 ^ 64 - 1) piece.now }
    requires inside { from < piece.now.off + piece.now.len }
    ensures { result ≡ back_of from piece.now }
{
    let skipped = from.saturating_sub(piece.off);
    Version {
        place: piece.place + u64::from(skipped),
        off: piece.off + skipped,
        len: piece.len - skipped,
        ..*piece
    }
}

/// How many pieces begin before a byte of the block.
fn begin_before(pieces: &[Version], byte: u16) -> usize
    requires { Follow 0 pieces.now }
    ensures { HasBefore pieces.now byte result }
{
    pieces.partition_point(|piece| piece.off < byte)
}

/// A place of the list where a piece from a byte on is likely to be, as it is where the pieces lie evenly: a guess, to be looked at.
fn likely_place(pieces: &[Version], byte: u16) -> usize {
    let Some(last) = pieces.last() else {
        return 0;
    };
    usize::from(byte).wrapping_mul(pieces.len()) / end(*last).max(1) as usize
}

/// How many pieces begin before a byte of the block, without a search where a piece begins there and is where it is likely to be.
fn begin_near(pieces: &[Version], byte: u16) -> usize
    requires { Follow 0 pieces.now }
    ensures { HasBefore pieces.now byte result }
{
    let near = likely_place(pieces, byte);
    if near < pieces.len() && pieces[near].off == byte {
        return near;
    }
    begin_before(pieces, byte)
}

/// How many pieces have no byte from one of the block on.
fn end_before(pieces: &[Version], byte: u16) -> usize
    requires { Follow 0 pieces.now }
    ensures { HasEnded pieces.now byte result }
{
    pieces.partition_point(|piece| u32::from(piece.off) + u32::from(piece.len) <= u32::from(byte))
}

/// The same, without a search where the piece that is likely to have the byte has it.
fn end_likely(pieces: &[Version], byte: u16) -> usize
    requires { Follow 0 pieces.now }
    ensures { HasEnded pieces.now byte result }
{
    let near = likely_place(pieces, byte);
    if near < pieces.len() && pieces[near].off <= byte && u32::from(byte) < end(pieces[near]) {
        return near;
    }
    end_before(pieces, byte)
}

/// The same, without a search where the piece at a place of the list ends there: most versions have the bytes of an earlier one.
fn end_near(pieces: &[Version], near: usize, byte: u16) -> usize
    requires { Follow 0 pieces.now }
    ensures { HasEnded pieces.now byte result }
{
    if near < pieces.len() && end(pieces[near]) == u32::from(byte) {
        return near + 1;
    }
    end_before(pieces, byte)
}

/// How many pieces begin before a byte of the block, without a search where the piece at a place does, and the one after it does
/// not.
fn begin_behind(pieces: &[Version], near: usize, byte: u16) -> usize
    requires order { Follow 0 pieces.now }
    requires near { near ≤ length pieces.now }
    ensures { HasBefore pieces.now byte result }
{
    if pieces.len() - near > 1 && pieces[near].off < byte && byte <= pieces[near + 1].off {
        return near + 1;
    }
    begin_before(pieces, byte)
}

/// The byte after a piece.
fn end(piece: Version) -> u32
    ensures { result ≡ piece.off + piece.len }
{
    u32::from(piece.off) + u32::from(piece.len)
}

/// Those of the pieces that have a byte from one of the block up to another.
pub(crate) fn meeting(pieces: &[Version], from: u16, to: u16) -> &[Version]
    requires order { Follow 0 pieces.now }
    requires rise { from ≤ to }
    ensures same { ShowTheSameIn from to result.now pieces.now }
    ensures meet { AllMeet from to result.now }
    ensures within { (size area : ℕ) → AllLie size area pieces.now → AllLie size area result.now }
{
    let first = end_likely(pieces, from);
    let last = begin_behind(pieces, first, to);
    prove!(first <= last);
    &pieces[first..last]
}

/// How many pieces begin before the bytes from one of the block up to another, and how many have none after them. At most
/// one does both, with bytes on both sides of them.
fn find(pieces: &[Version], from: u16, to: u16) -> (usize, usize)
    requires order { Follow 0 pieces.now }
    requires rise { from ≤ to }
    ensures cuts { AreCuts (length pieces.now) result.0 result.1 }
    ensures below { (k : ℕ) → k < result.0 → (slice_index_or pieces.now k no_version).off < from }
    ensures above { (k : ℕ) → result.1 ≤ k → k < length pieces.now → to < (slice_index_or pieces.now k no_version).off + (slice_index_or pieces.now k no_version).len }
    ensures front { fronts from pieces.now ≡ ended from (take result.0 pieces.now) }
    ensures back { backs to pieces.now ≡ begun to (drop result.1 pieces.now) }
{
    let first = begin_near(pieces, from);
    (first, end_near(pieces, first, to))
}

/// Cuts the last piece before a byte of the block.
fn cut_last(pieces: &mut [Version], byte: u16)
    requires { AllBegin byte pieces.old }
    ensures { pieces.new ≡ ended byte pieces.old }
{
    if let Some(last) = pieces.last_mut() {
        *last = front(last, byte);
    }
}

/// Cuts the first piece at a byte of the block, which is before its end.
fn cut_first(pieces: &mut [Version], byte: u16)
    requires inside { AllEnd byte pieces.old }
    requires placed { ArePlaced pieces.old }
    ensures { pieces.new ≡ begun byte pieces.old }
{
    if let Some(first) = pieces.first_mut() {
        *first = back(first, byte);
    }
}

/// Cuts the last of the pieces before a place of the list at one byte of the block, and the first one from another place on
/// at another byte.
fn cut(pieces: &mut [Version], first: usize, last: usize, from: u16, to: u16)
    requires range { IsRange (length pieces.old) first last }
    requires below { AllBegin from (take first pieces.old) }
    requires above { AllEnd to (drop last pieces.old) }
    requires placed { ArePlaced (drop last pieces.old) }
    ensures front { take first pieces.new ≡ ended from (take first pieces.old) }
    ensures back { drop last pieces.new ≡ begun to (drop last pieces.old) }
{
    let (front, _) = pieces.split_at_mut(first);
    cut_last(front, from);
    let (_, back) = pieces.split_at_mut(last);
    cut_first(back, to);
}

/// Puts a piece at a place of the list. There is room for it.
fn insert_reserved(pieces: &mut Vec<Version>, at: usize, piece: Version)
    requires within { at ≤ vec_len pieces.old }
    requires room { vec_len pieces.old < vec_capacity pieces.old }
    ensures items { pieces.new.items ≡ insert pieces.old.items at piece }
    ensures len { vec_len pieces.new ≡ vec_len pieces.old + 1 }
    ensures capacity { vec_capacity pieces.new ≡ vec_capacity pieces.old }
{
    let _ = pieces.insert(at, piece);
}

/// Where one piece has bytes on both sides of a version, it is put twice, for both of them. It answers where the pieces
/// after the version begin.
fn part(pieces: &mut Vec<Version>, first: usize, last: usize) -> usize
    requires cuts { AreCuts (vec_len pieces.old) first last }
    requires room { vec_len pieces.old < vec_capacity pieces.old }
    ensures range { IsRange (vec_len pieces.new) first result }
    ensures front { take first pieces.new.items ≡ take first pieces.old.items }
    ensures back { drop result pieces.new.items ≡ drop last pieces.old.items }
    ensures stays { StaysIn (vec_capacity pieces.old) (vec_len pieces.old + 1) (vec_capacity pieces.new) (vec_len pieces.new) }
{
    if first <= last {
        return last;
    }
    let around = pieces[last];
    insert_reserved(pieces, first, around);
    first
}

/// Moves `count` pieces from a place of the list on to its end.
fn put_last(pieces: &mut [Version], at: usize, count: usize)
    requires { at + count ≤ length pieces.old }
    ensures { take (length pieces.old - count) pieces.new ≡ take at pieces.old ++ drop (at + count) pieces.old }
{
    let (_, rest) = pieces.split_at_mut(at);
    rest.rotate_left(count);
}

/// Takes `count` pieces from a place on out of the list.
fn take_out(pieces: &mut Vec<Version>, at: usize, count: usize)
    requires { at + count ≤ vec_len pieces.old }
    ensures items { pieces.new.items ≡ take at pieces.old.items ++ drop (at + count) pieces.old.items }
    ensures stays { StaysIn (vec_capacity pieces.old) (vec_len pieces.old) (vec_capacity pieces.new) (vec_len pieces.new) }
{
    let left = pieces.len() - count;
    put_last(pieces.as_mut_slice(), at, count);
    pieces.truncate(left);
}

/// Puts a piece in the place of those from one place of the list up to another.
fn replace(pieces: &mut Vec<Version>, first: usize, last: usize, piece: Version)
    requires range { IsRange (vec_len pieces.old) first last }
    requires room { vec_len pieces.old < vec_capacity pieces.old }
    ensures items { pieces.new.items ≡ take first pieces.old.items ++ piece ∷ drop last pieces.old.items }
    ensures stays { StaysIn (vec_capacity pieces.old) (vec_len pieces.old + 1) (vec_capacity pieces.new) (vec_len pieces.new) }
{
    if first == last {
        insert_reserved(pieces, first, piece);
        return;
    }
    pieces[first] = piece;
    take_out(pieces, first + 1, last - first - 1);
}

/// Whether a version has the bytes of one piece, the only one from a place of the list up to another.
fn is_over(pieces: &[Version], first: usize, last: usize, version: &Version) -> bool
    requires { last ≤ length pieces.now }
    ensures one { result ≡ true → last ≡ first + 1 }
    ensures off { result ≡ true → (slice_index_or pieces.now first no_version).off ≡ version.now.off }
    ensures len { result ≡ true → (slice_index_or pieces.now first no_version).len ≡ version.now.len }
{
    if first >= last || last - first != 1 {
        return false;
    }
    pieces[first].off == version.off && pieces[first].len == version.len
}

/// Puts a later version over the pieces. There is room for two more.
#[inline(always)]
pub(crate) fn lay(pieces: &mut Vec<Version>, version: &Version)
    requires order { Follow 0 pieces.old.items }
    requires placed { ArePlaced pieces.old.items }
    requires within { version.now.off + version.now.len ≤ 4096 }
    requires room { vec_len pieces.old + 2 ≤ vec_capacity pieces.old }
    ensures laid { (versions : List Version) → ArePieces pieces.old.items versions → ArePieces pieces.new.items (versions ++ version.now ∷ []) }
    ensures stays { StaysIn (vec_capacity pieces.old) (vec_len pieces.old + 2) (vec_capacity pieces.new) (vec_len pieces.new) }
{
    if version.len == 0 {
        return;
    }
    let end = version.off + version.len;
    let (first, last) = find(pieces, version.off, end);
    if is_over(pieces, first, last, version) {
        pieces[first] = *version;
        return;
    }
    let behind = part(pieces, first, last);
    cut(pieces.as_mut_slice(), first, behind, version.off, end);
    replace(pieces, first, behind, *version);
}
