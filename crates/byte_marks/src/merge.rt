// Two rising lists of extents walked side by side.
ghost use Rattle.std.specs.{Prelude.{◌≡◌, ℕ, ◌+◌, ◌<◌, ◌≤◌, ◌||◌, false, None, IfOk, OnErr, IfSome, IfNone, length}, List.last_or, Bool.{OnTrue, OnFalse}};
ghost use Rattle.byte_marks.specs.Marks.{has, in_extent, next_free, AreApartFrom};

use crate::extent::Extent;
use iso_model::Memory;
use smallvec::SmallVec;
use std::alloc::Global;

/// Extents of which eight are in the value itself.
pub type Extents = SmallVec<Extent, 8>;

/// The first byte from which on one more run may lie after them.
pub fn next_free(extents: &[Extent]) -> u16
    requires { AreApartFrom 0 extents.now }
    ensures { result ≡ next_free 0 extents.now }
{
    match extents.split_last() {
        Some((last, _)) => last.to + 1,
        None => 0,
    }
}

/// Joins an extent to the last one, where it begins in that one or right after it, and says whether it did.
pub fn join_last(extents: &mut Extents, added: Extent) -> bool
    requires apart { AreApartFrom 0 extents.old.items }
    requires some { added.from < added.to }
    requires inside { added.to ≤ 4096 }
    ensures set { OnTrue result ((p : ℕ) → has extents.new.items p ≡ (has extents.old.items p || in_extent p added)) }
    ensures apart { AreApartFrom 0 extents.new.items }
    ensures len { length extents.new.items ≡ length extents.old.items }
    ensures kept { OnFalse result (extents.new.items ≡ extents.old.items) }
    ensures away { OnFalse result (IfSome (last_or None extents.old.items) (λ last. last.from ≤ added.from → last.to < added.from)) }
{
    let count = extents.len();
    let places = extents.capacity();
    prove!(count <= places);
    let Some(last) = extents.pop() else {
        return false;
    };
    if last.from <= added.from && added.from <= last.to {
        extents.push_reserved(Extent {
            from: last.from,
            to: last.to.max(added.to),
        });
        return true;
    }
    extents.push_reserved(last);
    false
}

#[tactic(auto, using(crate::proofs::Apart::earlier))]
// The extent that begins first, and what is left of the two lists.
fn first_of<'a>(a: &'a [Extent], b: &'a [Extent]) -> Option<(Extent, &'a [Extent], &'a [Extent])>
    requires a { AreApartFrom 0 a.now }
    requires b { AreApartFrom 0 b.now }
    ensures set { IfSome result (λ r. (p : ℕ) → (in_extent p r.0 || (has r.1.now p || has r.2.now p)) ≡ (has a.now p || has b.now p)) }
    ensures some { IfSome result (λ r. (r.0.from < r.0.to) × (r.0.to ≤ 4096)) }
    ensures left_a { IfSome result (λ r. AreApartFrom r.0.from r.1.now) }
    ensures left_b { IfSome result (λ r. AreApartFrom r.0.from r.2.now) }
    ensures from { IfSome result (λ r. (f : ℕ) → AreApartFrom f a.now → AreApartFrom f b.now → f ≤ r.0.from) }
    ensures len { IfSome result (λ r. length r.1.now + length r.2.now + 1 ≡ length a.now + length b.now) }
    ensures none { IfNone result ((p : ℕ) → (has a.now p || has b.now p) ≡ false) }
{
    match (a.split_first(), b.split_first()) {
        (None, None) => None,
        (Some((x, xs)), None) => Some((*x, xs, b)),
        (None, Some((y, ys))) => Some((*y, a, ys)),
        (Some((x, xs)), Some((y, ys))) => {
            if x.from <= y.from {
                Some((*x, xs, b))
            } else {
                Some((*y, a, ys))
            }
        }
    }
}

/// The maximal runs of the bytes of both. It takes no memory where both together have at most eight.
///
/// # Errors
///
/// Want of memory.
pub fn merged<'a>(
    alloc: Global,
    mut a: &'a [Extent],
    mut b: &'a [Extent],
) -> Result<Extents, Memory>
    requires a { AreApartFrom 0 a.now }
    requires b { AreApartFrom 0 b.now }
    ensures set { IfOk result (λ r. (p : ℕ) → has r.items p ≡ (has a.entry.now p || has b.entry.now p)) }
    ensures apart { IfOk result (λ r. AreApartFrom 0 r.items) }
    ensures count { IfOk result (λ r. length r.items ≤ length a.entry.now + length b.entry.now) }
    ensures full { OnErr result (8 < length a.entry.now + length b.entry.now) }
{
    let mut out = SmallVec::new(alloc);
    let Some((mut open, rest_a, rest_b)) = first_of(a, b) else {
        return Ok(out);
    };
    a = rest_a;
    b = rest_b;
    while let Some((next, rest_a, rest_b)) = first_of(a, b) {
        if next.from <= open.to {
            open.to = open.to.max(next.to);
        } else {
            out.push(open)?;
            open = next;
        }
        a = rest_a;
        b = rest_b;
    }
    out.push(open)?;
    Ok(out)
}
