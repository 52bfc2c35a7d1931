// The accesses of a transaction as they are kept.
ghost use Rattle.std.specs.{Prelude.{◌≡◌, ◌+◌, ◌<◌, ◌≤◌, [], ◌∷◌, ◌++◌, List, length, map, take}, List.AllByRecursion};
ghost use Rattle.iso_model.specs.declared.access.Access.{Access};
ghost use Rattle.tx_table.specs.{Patches.{AreEffects, HasTheSame, HavePatches}, Work.{access_of, IsRow}};

use crate::patches::Patches;
use iso_model::{Kind, Span};

/// An access: the first `count` spans are its marks, and a write has the bytes of a whole block.
#[derive(Drop)]
pub struct Row {
    pub kind: Kind,
    pub block: u32,
    pub spans: [Span; 8],
    pub count: usize,
    pub bytes: Vec<u8>,
}

impl Row {
    /// An access that is not marked.
    pub fn unmarked(kind: Kind, block: u32, bytes: Vec<u8>) -> Row
        ensures access { access_of result ≡ record { kind = kind; block = block; spans = []; bytes = bytes.items } }
        ensures none { result.count ≡ 0 }
    {
        Row {
            kind,
            block,
            spans: [Span { off: 0, len: 0 }; 8],
            count: 0,
            bytes,
        }
    }

    /// An access with one mark.
    pub fn marked(kind: Kind, block: u32, span: Span, bytes: Vec<u8>) -> Row
        ensures access { access_of result ≡ record { kind = kind; block = block; spans = span ∷ []; bytes = bytes.items } }
        ensures one { result.count ≡ 1 }
    {
        Row {
            kind,
            block,
            spans: [span; 8],
            count: 1,
            bytes,
        }
    }

    /// Adds a mark.
    pub fn add(&mut self, span: Span)
        requires { self.old.count < 8 }
        ensures access { access_of self.new ≡ record (access_of self.old) { spans = (access_of self.old).spans ++ span ∷ [] } }
        ensures count { self.new.count ≡ self.old.count + 1 }
    {
        self.spans[self.count] = span;
        self.count += 1;
    }
}

/// Takes all rows out. Where there are no spare bytes, those of a write become so, emptied.
pub fn take_rows(rows: &mut Vec<Row>, spare: &mut Vec<u8>)
    ensures rows { rows.new.items ≡ [] }
    ensures spare { spare.new.items ≡ [] }
{
    while let Some(row) = rows.pop() {
        let Row { bytes, .. } = row;
        if spare.capacity() == 0 {
            *spare = bytes;
        }
    }
    spare.clear();
}

/// Sets the writes of the rows from a place on in the patches.
#[inline(always)]
pub fn apply(rows: &[Row], from: usize, patches: &mut Patches)
    requires within { from ≤ length rows.now }
    requires rows { AllByRecursion (IsRow patches.old.size) rows.now }
    requires held { HavePatches (map access_of rows.now) patches.old.entries }
    ensures same { HasTheSame patches.old patches.new }
    ensures effects { AreEffects patches.old.size (take from (map access_of rows.now)) patches.old.entries → AreEffects patches.old.size (map access_of rows.now) patches.new.entries }
{
    for at in from..rows.len() {
        let row = &rows[at];
        match row.kind {
            Kind::Write => patches.set(row.block, row.bytes.as_slice(), &row.spans[..row.count]),
            Kind::Read => {}
        }
    }
}

/// Takes the rows from a place on out of the patches, and says how many are in them then.
pub fn reopen_patches(applied: usize, last: usize, patches: &mut Patches) -> usize
    ensures few { result ≤ last }
    ensures none_there { applied ≤ last → result ≡ applied }
    ensures same { HasTheSame patches.old patches.new }
    ensures effects { (accesses : List Access) → AreEffects patches.old.size (take applied accesses) patches.old.entries
        → AreEffects patches.old.size (take result accesses) patches.new.entries }
{
    if applied <= last {
        return applied;
    }
    patches.clear();
    0
}
