// Rising lists of extents, read from the front on.
ghost use Rattle.std.specs.{Prelude.{◌≡◌, ℕ, ◌+◌, ◌<◌, ◌&&◌, false, IsTrue, IfSome, IfNone}, Bool.{OnTrue, OnFalse}};
ghost use Rattle.iso_model.specs.Array.{in_span};
ghost use Rattle.byte_marks.specs.Marks.{has, AreApartFrom};

use crate::extent::Extent;
use iso_model::Span;

/// The least byte that both have.
pub fn least_common(mut a: &[Extent], mut b: &[Extent]) -> Option<u16>
    requires a { AreApartFrom 0 a.now }
    requires b { AreApartFrom 0 b.now }
    ensures found { IfSome result (λ q. IsTrue (has a.entry.now q && has b.entry.now q)) }
    ensures least { IfSome result (λ q. (p : ℕ) → p < q → (has a.entry.now p && has b.entry.now p) ≡ false) }
    ensures none { IfNone result ((p : ℕ) → (has a.entry.now p && has b.entry.now p) ≡ false) }
{
    while let (Some((x, xs)), Some((y, ys))) = (a.split_first(), b.split_first()) {
        let start = x.from.max(y.from);
        if start < x.to && start < y.to {
            return Some(start);
        }
        if x.to <= y.to {
            a = xs;
        } else {
            b = ys;
        }
    }
    None
}

/// Whether all bytes of a span are among those of the extents.
pub fn has_all(mut rest: &[Extent], span: Span) -> bool
    requires { AreApartFrom 0 rest.now }
    ensures all { OnTrue result ((p : ℕ) → IsTrue (in_span p span) → IsTrue (has rest.entry.now p)) }
    ensures missing { OnFalse result ((p : ℕ) × IsTrue (in_span p span) × (has rest.entry.now p ≡ false)) }
{
    if span.len == 0 {
        return true;
    }
    let end = u32::from(span.off) + u32::from(span.len);
    while let Some((extent, others)) = rest.split_first() {
        if span.off < extent.to {
            return extent.from <= span.off && end <= u32::from(extent.to);
        }
        rest = others;
    }
    false
}
