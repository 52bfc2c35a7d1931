//! What crosses a desk, and what each side knows of it.

/// What the slot of a desk has.
pub enum Message<Q, A> {
    Empty,
    Request(Q),
    Response(A),
}

/// What one side knows. No value of it is made.
pub enum Side<Q> {
    /// Of a desk whose sides are not parted yet: before the slot was taken, and after.
    New,
    Opened,
    /// The client without a request, with one, and after it has left.
    Resting,
    Waiting(Q),
    Left,
    /// The server without a request, and with one.
    Idle,
    Serving(Q),
}

/// Which requests may be put, and which responses answer them.
pub trait Protocol {
    type Request;

    type Response;

    ghost allows: { Self.Request → Type 0 };

    ghost answers: { Self.Request → Self.Response → Type 0 };
}
