//! What each step on the table shows, and how passes are cut and joined.
ghost use Rattle.std.specs.Prelude.{ℕ, Option, None};
ghost use Rattle.turn_lock.specs.{Ticket.boxed, Steps.{drew, looked, settled, advanced, stayed}, Views.{kept_part, given_part, both, spent}};

use crate::view::{Names, Stands, View};
use atomic_table::{Join, Play, Split};
use std::marker::{Brand, PhantomData};

/// Draws a ticket.
pub(crate) struct Draw;

impl<V: Stands> Play<Option<Box<V>>, View<V::Entry>> for Draw {
    ghost then = { drew };
}

/// Looks which ticket is served, and takes the slot where it is the own one.
pub(crate) struct Look;

impl<V: Stands> Play<Option<Box<V>>, View<V::Entry>> for Look {
    ghost then = { looked (boxed V.stands) V.hands V.takes };
}

/// Serves the next ticket, with one entry more.
pub(crate) struct Advance<N> {
    entry: PhantomData<N>,
}

impl<V: Stands, N: Names<V::Entry>> Play<Option<Box<V>>, View<V::Entry>> for Advance<N> {
    ghost then = { advanced V.hands V.takes N.entry };
}

/// Changes the gate, or one of its counts. The rule says nothing of these.
pub(crate) struct AtGate;

impl<V: Stands> Play<Option<Box<V>>, View<V::Entry>> for AtGate {
    ghost then = { stayed };
}

/// Looks, after a join, what follows for the joined pass.
pub(crate) struct Settle;

impl<V: Stands> Play<Option<Box<V>>, View<V::Entry>> for Settle {
    ghost then = { settled };
}

/// What a split moves to the new pass. A call picks it.
pub(crate) trait Portion {
    ghost number: { Option ℕ };

    ghost units: { ℕ };
}

impl Portion for Brand {
    ghost number = { None };

    ghost units = { 0 };
}

pub(crate) struct Cut<M> {
    portion: PhantomData<M>,
}

impl<E, M: Portion> Split<View<E>> for Cut<M> {
    ghost left = { kept_part M.number M.units };

    ghost right = { given_part M.number M.units };
}

pub(crate) struct Glue;

impl<E> Join<View<E>> for Glue {
    ghost both = { both };

    ghost spent = { spent };
}
