//! What each step at a desk tells.
ghost use Rattle.committer.specs.Steps.{accepted, left, opened, received, requested, responded};
ghost use Rattle.committer.specs.declared.protocol.Side.TheVariants.{Idle, Resting};

use crate::protocol::{Message, Protocol, Side};
use atomic_table::{Play, Split};
use std::marker::PhantomData;

/// Takes the slot of a new desk.
pub(crate) struct Opens<P> {
    protocol: PhantomData<P>,
}

impl<P: Protocol> Play<Message<P::Request, P::Response>, Side<P::Request>> for Opens<P> {
    ghost then = { opened P.allows P.answers };
}

/// Parts the two sides.
pub(crate) struct Parts;

impl<Q> Split<Side<Q>> for Parts {
    ghost left = { λ _. Resting };

    ghost right = { λ _. Idle };
}

/// Puts a request.
pub(crate) struct Requests<P> {
    protocol: PhantomData<P>,
}

impl<P: Protocol> Play<Message<P::Request, P::Response>, Side<P::Request>> for Requests<P> {
    ghost then = { requested P.allows P.answers };
}

/// Looks for a request, and takes the slot where there is one.
pub(crate) struct Accepts<P> {
    protocol: PhantomData<P>,
}

impl<P: Protocol> Play<Message<P::Request, P::Response>, Side<P::Request>> for Accepts<P> {
    ghost then = { accepted P.allows P.answers };
}

/// Puts the response.
pub(crate) struct Responds<P> {
    protocol: PhantomData<P>,
}

impl<P: Protocol> Play<Message<P::Request, P::Response>, Side<P::Request>> for Responds<P> {
    ghost then = { responded P.allows P.answers };
}

/// Looks for the response, and takes the slot where it is there.
pub(crate) struct Receives<P> {
    protocol: PhantomData<P>,
}

impl<P: Protocol> Play<Message<P::Request, P::Response>, Side<P::Request>> for Receives<P> {
    ghost then = { received P.allows P.answers };
}

/// Gives the slot back, for good.
pub(crate) struct Leaves<P> {
    protocol: PhantomData<P>,
}

impl<P: Protocol> Play<Message<P::Request, P::Response>, Side<P::Request>> for Leaves<P> {
    ghost then = { left P.allows P.answers };
}
