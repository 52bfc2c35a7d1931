// What a session was when calls on its transaction began that are made of several.

use std::marker::Brand;

/// What a session was when a visit of its transaction began. A caller picks it at the call.
pub trait Visit {
    ghost use Rattle.std.specs.Prelude.{ℕ, Option};
    ghost use Rattle.handle_pass.specs.Sessions.{SessionState};

    /// The session then.
    ghost before: { Option SessionState };

    /// Where it is.
    ghost name: { ℕ };
}

impl Visit for Brand {
    ghost use Rattle.std.specs.Prelude.{None};

    ghost before = { None };

    ghost name = { 0 };
}
