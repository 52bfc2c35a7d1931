// Lines are dealt among their clients.
ghost use Rattle.std.specs.Prelude.{◌≡◌, ◌==◌, ◌++◌, ◌∷◌, ◌≤◌, ℕ, [], All, IfOk, IfSome, OnOk, cond, length, map, reverse, slice_get};
ghost use Rattle.par_script.specs.Told.{clients_in, lines_of};

use iso_model::Memory;
use script_model::Line;
use std::alloc::Global;
use std::mem::replace;

/// The lines in the other order.
fn turned(mut lines: Vec<(u64, Line)>) -> Vec<(u64, Line)>
    ensures { result.items ≡ reverse lines.items }
{
    lines.reverse();
    lines
}

/// An empty list at the place of each number.
fn empty_lists(alloc: Global) -> Result<Vec<Vec<(u64, Line)>>, Memory>
    ensures all { IfOk result (λ r. length r.items ≡ 256) }
    ensures empty { IfOk result (λ r. All (λ own. own.items ≡ []) r.items) }
{
    let mut lists = Vec::new(alloc);
    for _ in 0..256u16 {
        lists.push(Vec::new(alloc))?;
    }
    Ok(lists)
}

/// Adds a line of a client behind its others. The first one makes room for as many as this.
fn add_line(own: &mut Vec<(u64, Line)>, line: (u64, Line), room: usize) -> Result<(), Memory>
    ensures added { OnOk result (own.new.items ≡ own.old.items ++ line ∷ []) }
{
    if own.is_empty() {
        // Without memory for all of them the list grows step by step.
        let _ = own.reserve(room);
    }
    own.push(line)?;
    Ok(())
}

/// The lines of each client, in falling number, at the place of its number.
fn by_client(alloc: Global, mut lines: Vec<(u64, Line)>) -> Result<Vec<Vec<(u64, Line)>>, Memory>
    ensures all { IfOk result (λ r. length r.items ≡ 256) }
    ensures own { IfOk result (λ r. (client : ℕ) → IfSome (slice_get r.items client) (λ own. reverse own.items ≡ lines_of client lines.items)) }
{
    let mut lists = empty_lists(alloc)?;
    // what each of 64 clients has, where all have as many
    let share = lines.len() / 64 + 1;
    while let Some(line) = lines.pop() {
        let client = line.1.client as usize;
        add_line(&mut lists[client], line, share)?;
    }
    Ok(lists)
}

/// Keeps the lines of a client, where there are some.
fn keep(
    dealt: &mut Vec<(u8, Vec<(u64, Line)>)>,
    client: u8,
    own: Vec<(u64, Line)>,
) -> Result<(), Memory>
    ensures { OnOk result (dealt.new.items ≡ cond (length own.items == 0) dealt.old.items (dealt.old.items ++ (client, own) ∷ [])) }
{
    if !own.is_empty() {
        dealt.push((client, own))?;
    }
    Ok(())
}

/// Each client that has a line, with its lines, in rising number.
pub(crate) fn deal(
    alloc: Global,
    lines: Vec<(u64, Line)>,
) -> Result<Vec<(u8, Vec<(u64, Line)>)>, Memory>
    ensures clients { IfOk result (λ d. map (λ a. a.0) d.items ≡ clients_in lines.items) }
    ensures few { IfOk result (λ d. length d.items ≤ 64) }
    ensures lines { IfOk result (λ d. All (λ a. a.1.items ≡ lines_of a.0 lines.items) d.items) }
{
    let mut dealt = Vec::new(alloc);
    let mut lists = by_client(alloc, lines)?;
    for client in 1..65u8 {
        let own = replace(&mut lists[client as usize], Vec::new(alloc));
        keep(&mut dealt, client, turned(own))?;
    }
    Ok(dealt)
}
