//! The desk, its client, and what whoever serves it has in hand.
ghost use Rattle.std.specs.Prelude.{◌≡◌, ◌∷◌, [], IfNone, IfOk, IfSome};
ghost use Rattle.committer.specs.Views.{TableId-set, stage_of};

use crate::plays::{Accepts, Leaves, Opens, Parts, Receives, Requests, Responds};
use crate::protocol::{Message, Protocol, Side};
use atomic_table::{Perch, Refused, Seat, Table, TableRule};
use iso_model::Memory;
use std::alloc::Global;
use std::marker::PhantomData;
use std::sync::Wait;

// The word of a desk: no message, a request that has no response yet, a response. The rule of the table fixes these numbers.
const EMPTY: u64 = 0;

const REQUESTED: u64 = 1;

const RESPONDED: u64 = 2;

// The perch's word: the server's seat is out, or rests at the desk.
const ABSENT: u64 = 0;

const PRESENT: u64 = 2;

/// The rule of the table.
pub struct Spoken<P> {
    protocol: PhantomData<P>,
}

impl<P: Protocol> TableRule<Message<P::Request, P::Response>, Side<P::Request>, ()> for Spoken<P> {
    ghost use Rattle.committer.specs.{declared.protocol.Side.TheVariants.New, Rule.Rule};

    ghost holds = { λ _. Rule P.allows P.answers };

    ghost first = { λ _. New };
}

// A side's place at a desk. It has no bytes.
type Place<P> = Seat<
    Message<<P as Protocol>::Request, <P as Protocol>::Response>,
    Side<<P as Protocol>::Request>,
>;

/// A word and a slot, at which one client asks and whoever comes answers. `close` spends it.
pub struct Desk<P: Protocol> {
    table: Table<Message<P::Request, P::Response>, Side<P::Request>, (), Spoken<P>, Global>,
    // The server's seat rests here while nobody serves.
    server: Perch<Message<P::Request, P::Response>, Side<P::Request>>,
    ghost sized: { (table.shared.table_id.words ≡ 1) × (table.shared.table_id.slots ≡ 1) },
    ghost same: { server.table_id ≡ table.shared.table_id } by { TableId-set _ _ },
    // the seat that rests is idle
    ghost idle: { stage_of server.view ≡ 5 },
}

/// The client's place at a desk. Without it the desk cannot be closed.
#[derive(Drop)]
pub struct Client<P: Protocol> {
    seat: Place<P>,
}

/// A request that was taken, as a duty to answer it. It cannot be dropped: `respond` of the same desk spends it.
pub struct Job<P: Protocol> {
    seat: Place<P>,
}

impl<P: Protocol> Desk<P> {
    ghost use Rattle.committer.specs.Sides.{HasRequest, IsClient, IsJob, IsSameSeat, Rests, desk_id, idle, serving};

    /// A desk and its client. It takes all memory of the desk.
    ///
    /// # Errors
    ///
    /// Want of memory.
    pub fn new(alloc: Global) -> Result<(Desk<P>, Client<P>), Memory>
        ensures { IfOk result (λ r. IsClient r.0 r.1 × Rests r.1) }
    {
        let mut slots = Vec::new(alloc);
        if let Err(failed) = slots.push(Message::Empty) {
            slots.destroy_empty();
            match failed.value {
                Message::Empty => return Err(Memory),
                _ => unreachable!(),
            }
        }
        match Table::new(alloc, &[EMPTY; 1], slots, &()) {
            Ok((table, mut seat)) => {
                table.shared.load::<Opens<P>>(&mut seat, 0);
                let place = table.shared.split_seat::<Parts>(&mut seat);
                let server = Perch::new(&place, ABSENT);
                let _ = server.give(place, ABSENT, PRESENT);
                Ok((Desk { table, server }, Client { seat }))
            }
            Err(Refused { mut slots }) => {
                let last = slots.pop().unwrap();
                slots.destroy_empty();
                match last {
                    Message::Empty => Err(Memory),
                    _ => unreachable!(),
                }
            }
        }
    }

    /// Puts a request. It waits for nobody.
    pub fn request(&self, client: &mut Client<P>, request: P::Request)
        requires client { IsClient self.now client.old × Rests client.old }
        requires allowed { P.allows request }
        ensures { IsClient self.now client.new × HasRequest client.new request }
    {
        match self
            .table
            .shared
            .exchange(&mut client.seat, 0, Message::Request(request))
        {
            Message::Empty => {}
            _ => unreachable!(),
        }
        self.table
            .shared
            .store::<Requests<P>>(&mut client.seat, 0, REQUESTED);
    }

    /// The response, where there is one. It waits for nobody.
    pub fn take_response(&self, client: &mut Client<P>) -> Option<P::Response>
        requires client { IsClient self.now client.old }
        requires request { (request : P.Request) × HasRequest client.old request }
        ensures client { IsClient self.now client.new }
        ensures none { IfNone result ((request : P.Request) → HasRequest client.old request → HasRequest client.new request) }
        ensures some { IfSome result (λ response. Rests client.new × ((request : P.Request) → HasRequest client.old request → P.answers request response)) }
    {
        if self.table.shared.load::<Receives<P>>(&mut client.seat, 0) != RESPONDED {
            return None;
        }
        match self
            .table
            .shared
            .exchange(&mut client.seat, 0, Message::Empty)
        {
            Message::Response(response) => Some(response),
            _ => unreachable!(),
        }
    }

    /// Waits for the response.
    pub fn response<R: Wait>(&self, rt: &R, client: &mut Client<P>) -> P::Response
        requires client { IsClient self.now client.old }
        requires request { (request : P.Request) × HasRequest client.old request }
        ensures client { IsClient self.now client.new × Rests client.new }
        ensures answers { (request : P.Request) → HasRequest client.old request → P.answers request result }
    {
        for _ in rt.forever() {
            if let Some(response) = self.take_response(client) {
                return response;
            }
            self.table.shared.park(rt, 0, REQUESTED as u32);
        }
        unreachable!()
    }

    /// Whether there is a request without a response. Others may put or take one meanwhile. It waits for nobody.
    pub fn is_requested(&self) -> bool {
        self.table.shared.peek(0) == REQUESTED
    }

    /// The request, where there is one and nobody else serves, and the duty to answer it. It waits for nobody.
    pub fn accept(&self) -> Option<(Job<P>, P::Request)>
        ensures { IfSome result (λ r. IsJob self.now r.0 r.1 × P.allows r.1) }
    {
        if !self.is_requested() {
            return None;
        }
        let (_, Some(mut seat)) = self.server.take(ABSENT) else {
            return None;
        };
        match self.take_request(&mut seat) {
            Some(request) => Some((Job { seat }, request)),
            None => {
                self.rest(seat);
                None
            }
        }
    }

    /// Puts the response, and wakes the client. It waits for nobody.
    pub fn respond(&self, job: Job<P>, response: P::Response)
        requires { (request : P.Request) × IsJob self.now job request × P.answers request response }
    {
        let Job { mut seat } = job;
        self.put_response(&mut seat, response);
        self.rest(seat);
        self.table.shared.wake_one(0);
    }

    // The request, where there is one.
    fn take_request(&self, seat: &mut Place<P>) -> Option<P::Request>
        requires desk { seat.old.table_id ≡ desk_id self.now }
        requires idle { seat.old.me ≡ idle }
        ensures desk { IsSameSeat seat.old seat.new }
        ensures none { IfNone result (seat.new.me ≡ idle) }
        ensures some { IfSome result (λ request. (seat.new.me ≡ serving request) × P.allows request) }
    {
        if self.table.shared.load::<Accepts<P>>(seat, 0) != REQUESTED {
            return None;
        }
        match self.table.shared.exchange(seat, 0, Message::Empty) {
            Message::Request(request) => Some(request),
            _ => unreachable!(),
        }
    }

    // Puts the response.
    fn put_response(&self, seat: &mut Place<P>, response: P::Response)
        requires desk { seat.old.table_id ≡ desk_id self.now }
        requires answers { (request : P.Request) × (seat.old.me ≡ serving request) × P.answers request response }
        ensures desk { IsSameSeat seat.old seat.new }
        ensures idle { seat.new.me ≡ idle }
    {
        match self
            .table
            .shared
            .exchange(seat, 0, Message::Response(response))
        {
            Message::Empty => {}
            _ => unreachable!(),
        }
        self.table.shared.store::<Responds<P>>(seat, 0, RESPONDED);
    }

    // Leaves the server's seat for whoever comes next. Only who took it has it, so the perch is empty.
    fn rest(&self, seat: Place<P>)
        requires desk { seat.table_id ≡ desk_id self.now }
        requires idle { seat.me ≡ idle }
    {
        let _ = self.server.give(seat, ABSENT, PRESENT);
    }

    /// Ends a desk whose client has no request. It waits for nobody.
    pub fn close(self, client: Client<P>)
        requires { IsClient self client × Rests client }
    {
        let Client { mut seat } = client;
        self.table.shared.store::<Leaves<P>>(&mut seat, 0, EMPTY);
        let Desk { table, server: _ } = self;
        let mut closed = table.close_with(seat);
        let message = closed.take(0);
        closed.free();
        match message {
            Message::Empty => {}
            _ => unreachable!(),
        }
    }
}
