// An operation in words.
ghost use Rattle.std.specs.Prelude.{◌≡◌, ◌∷◌, ◌++◌};
ghost use Rattle.script_text.specs.{Said.behind_text, Spelling.{arguments_of, name_of, spaced}};

use iso_model::{Bytes, Label, LabelList, Mode};
use script_model::Op;

/// A word after the name of an operation.
#[derive(Drop)]
pub(crate) enum Word<'a> {
    Number(u32),
    Hex(&'a Bytes),
    /// A key, a value or a name: a dash where it has no bytes.
    Dashed(&'a Bytes),
    Label(&'a Label),
}

/// The words after the name of an operation.
#[derive(Drop)]
pub(crate) enum Behind<'a> {
    Nothing,
    One(Word<'a>),
    Two(Word<'a>, Word<'a>),
    Three(Word<'a>, Word<'a>, Word<'a>),
    Labels(&'a LabelList),
}

/// The operation's name, and the words after it. A table alone: what pushes them is in functions that know no operation.
pub(crate) fn said(op: &Op) -> (&[u8], Behind<'_>)
    ensures { result.0.now ++ behind_text result.1 ≡ spaced (name_of op.now ∷ arguments_of op.now) }
{
    match op {
        Op::Begin { mode: None } => (b"begin", Behind::Nothing),
        Op::Begin {
            mode: Some(Mode::Serial),
        } => (b"begin serial", Behind::Nothing),
        Op::Begin {
            mode: Some(Mode::Snapshot),
        } => (b"begin snapshot", Behind::Nothing),
        Op::End => (b"end", Behind::Nothing),
        Op::Abort => (b"abort", Behind::Nothing),
        Op::Put { block, off, bytes } => (
            b"put",
            Behind::Three(Word::Number(*block), Word::Number(*off), Word::Hex(bytes)),
        ),
        Op::Read { block } => (b"read", Behind::One(Word::Number(*block))),
        Op::Get { block, off, len } => (
            b"get",
            Behind::Three(Word::Number(*block), Word::Number(*off), Word::Number(*len)),
        ),
        Op::Write { block, bytes } => (
            b"write",
            Behind::Two(Word::Number(*block), Word::Hex(bytes)),
        ),
        Op::Fill { block, bytes } => (b"fill", Behind::Two(Word::Number(*block), Word::Hex(bytes))),
        Op::Mark { off, len } => (b"mark", Behind::Two(Word::Number(*off), Word::Number(*len))),
        Op::Release { label } => (b"release", Behind::One(Word::Label(label))),
        Op::Takeover { label } => (b"takeover", Behind::One(Word::Label(label))),
        Op::Await { label } => (b"await", Behind::One(Word::Label(label))),
        Op::Group { labels } => (b"group", Behind::Labels(labels)),
        Op::Trim => (b"trim", Behind::Nothing),
        Op::Stat => (b"stat", Behind::Nothing),
        Op::Compact => (b"compact", Behind::Nothing),
        Op::Upgrade => (b"upgrade", Behind::Nothing),
        Op::HashPut { key, value } => (
            b"hput",
            Behind::Two(Word::Dashed(key), Word::Dashed(value)),
        ),
        Op::HashGet { key } => (b"hget", Behind::One(Word::Dashed(key))),
        Op::HashDelete { key } => (b"hdel", Behind::One(Word::Dashed(key))),
        Op::TreePut { key, value } => (
            b"tput",
            Behind::Two(Word::Dashed(key), Word::Dashed(value)),
        ),
        Op::TreeGet { key } => (b"tget", Behind::One(Word::Dashed(key))),
        Op::TreeDelete { key } => (b"tdel", Behind::One(Word::Dashed(key))),
        Op::TreeScan { from, to, most } => (
            b"tscan",
            Behind::Three(Word::Dashed(from), Word::Dashed(to), Word::Number(*most)),
        ),
        Op::FileNew { name } => (b"fnew", Behind::One(Word::Dashed(name))),
        Op::FileWrite { name, off, bytes } => (
            b"fwrite",
            Behind::Three(Word::Dashed(name), Word::Number(*off), Word::Hex(bytes)),
        ),
        Op::FileRead { name, off, len } => (
            b"fread",
            Behind::Three(Word::Dashed(name), Word::Number(*off), Word::Number(*len)),
        ),
        Op::FileMove { from, to } => (b"fmove", Behind::Two(Word::Dashed(from), Word::Dashed(to))),
        Op::FileDelete { name } => (b"fdel", Behind::One(Word::Dashed(name))),
    }
}
