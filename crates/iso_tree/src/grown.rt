// The bytes of a node with a cell more, in a buffer of their own: each byte of it is written once.
ghost use Rattle.std.specs.Prelude.{◌≡◌, ◌+◌, ◌-◌, ◌/◌, ◌%◌, ◌<◌, ◌≤◌, ◌∷◌, ◌++◌, IfOk, OnOk, drop, length, replicate, take};
ghost use Rattle.store_model.specs.{Cells.cell_count, TreeNodes.node_bytes};
ghost use Rattle.iso_tree.specs.{Entries.row, Sizes.AreBytes};

use crate::growth::Growth;
use iso_alloc::{cell_count, piece, spell, value_part};
use iso_model::Memory;
use std::alloc::Global;

// Adds bytes.
fn push_bytes(out: &mut Vec<u8>, bytes: &[u8]) -> Result<(), Memory>
    ensures { OnOk result (out.new.items ≡ out.old.items ++ bytes.now) }
{
    Ok(out.extend_from_slice(bytes)?)
}

// Adds zeros.
fn push_zeros(out: &mut Vec<u8>, count: usize) -> Result<(), Memory>
    requires { count ≤ 4096 }
    ensures { OnOk result (out.new.items ≡ out.old.items ++ replicate count 0) }
{
    let end = out.len() + count;
    Ok(out.resize(end, 0)?)
}

// Adds the head of a node of a level with so many cells.
fn push_head(out: &mut Vec<u8>, level: u8, count: usize) -> Result<(), Memory>
    requires { count < 65536 }
    ensures { OnOk result (out.new.items ≡ out.old.items ++ 1 ∷ level ∷ count / 256 ∷ count % 256 ∷ replicate 60 0) }
{
    let mut head = [0u8; 64];
    head[0] = 1;
    head[1] = level;
    head[2] = (count / 256) as u8;
    head[3] = (count % 256) as u8;
    push_bytes(out, &head)
}

// Adds as many parts as there are, with one more at a place: of the others those up to `to` are used, and zeros come behind them.
fn push_parts(
    out: &mut Vec<u8>,
    parts: &[u8],
    place: usize,
    to: usize,
    part: &[u8],
) -> Result<(), Memory>
    requires order { place ≤ to }
    requires room { to + length part.now ≤ length parts.now }
    requires few { length parts.now ≤ 4096 }
    ensures { OnOk result (out.new.items ≡ out.old.items ++ ((take place parts.now ++ (part.now ++ take (to - place) (drop place parts.now))) ++ replicate (length parts.now - (to + length part.now)) 0)) }
{
    push_bytes(out, piece(parts, 0, place))?;
    push_bytes(out, part)?;
    push_bytes(out, piece(parts, place, to - place))?;
    push_zeros(out, parts.len() - (to + part.len()))
}

/// The bytes of a node of which `count` cells are used, and fewer than it has, with a cell more before the one at a place.
///
/// # Errors
///
/// Want of memory.
pub fn grown_node(
    alloc: Global,
    level: u8,
    growth: &Growth,
    count: usize,
) -> Result<Vec<u8>, Memory>
    requires place { growth.now.place ≤ count }
    requires room { count < cell_count growth.now.area.size }
    ensures { IfOk result (λ v. AreBytes growth.now.area.size v.items (node_bytes growth.now.area.size level (row growth.now 0 (count + 1)))) }
{
    let size = growth.area.size as usize;
    let place = growth.place;
    let cells = cell_count(size);
    let mut key_part = [0u8; 31];
    spell(&mut key_part, growth.entry.key);
    let part = value_part(growth.entry.value);
    let keys = piece(growth.node, 64, 31 * cells);
    let values = piece(growth.node, 64 + 31 * cells, 33 * cells);
    let mut out = Vec::with_capacity(alloc, size)?;
    push_head(&mut out, level, count + 1)?;
    push_parts(&mut out, keys, 31 * place, 31 * count, &key_part)?;
    push_parts(&mut out, values, 33 * place, 33 * count, &part)?;
    Ok(out)
}
