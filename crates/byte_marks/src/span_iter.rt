// The runs of a set of bytes, one by one.
ghost use Rattle.std.specs.{Prelude.{◌≡◌, map}, Iterator.{YieldsFirst, item_count}};
ghost use Rattle.byte_marks.specs.Marks.{span_of, AreApartFrom};

use crate::extent::Extent;
use iso_model::Span;
use std::marker::Model;

/// The maximal runs of a set of bytes, rising. Contracts see the list of those that are still to come.
#[derive(Drop)]
pub struct SpanIter<'a> {
    rest: &'a [Extent],
}

impl<'a> Model for SpanIter<'a> {
    ghost use Rattle.std.specs.Prelude.{List, map};
    ghost use Rattle.iso_model.specs.declared.access.Span.{Span};
    ghost use Rattle.byte_marks.specs.Marks.{span_of, AreApartFrom};

    ghost Value = { List Span };

    ghost view = { λ a. map span_of a.rest.now };

    ghost invariant = { λ a. AreApartFrom 0 a.rest.now };
}

impl<'a> SpanIter<'a> {
    pub(crate) fn of(rest: &'a [Extent]) -> Self
        requires { AreApartFrom 0 rest.now }
        ensures { result ≡ map span_of rest.now }
    {
        SpanIter { rest }
    }
}

impl<'a> Iterator for SpanIter<'a> {
    type Item = Span;

    ghost next_gives = { YieldsFirst (λ spans. spans) };

    ghost remaining = { item_count (λ spans. spans) };

    fn next(&mut self) -> Option<Span> {
        let (first, others) = self.rest.split_first()?;
        let span = Span {
            off: first.from,
            len: first.to - first.from,
        };
        self.rest = others;
        Some(span)
    }
}
