// An end that makes its own steps.
ghost use Rattle.std.specs.Prelude.{◌≡◌, ◌<◌, ℕ};
ghost use Rattle.handle_pass.specs.Calls.{HasEnded};

use counts::Steps;
use handle_pass::{EndError, Session};
use iso_disk::Disk;
use iso_model::EndReply;
use iso_shared::Origin;
use std::marker::Brand;
use std::sync::Wait;
use std::sync::ledger::{Blank, Ledger};

// The same with the ledger of a blank.
fn end_with<'a, L: Ledger, D: Disk + Drop, O: Origin, R: Wait>(
    blank: Blank,
    rt: &R,
    session: &mut Session<'a, D, O>,
) -> Result<EndReply, EndError>
    requires name { blank.name ≡ L.name }
    requires parts { blank.parts ≡ L.parts }
    requires some { 0 < L.parts }
    ensures did { (taken : ℕ) × HasEnded O.start session.old 0 result session.new taken }
{
    let mut steps = Steps::<L>::start(blank);
    session.end_tx(rt, &mut steps)
}

/// Ends the transaction of a session, as `Session::end_tx` with steps that begin at 0.
///
/// # Errors
///
/// As those of `Session::end_tx`.
pub fn end_now<'a, D: Disk + Drop, O: Origin, R: Wait>(
    rt: &R,
    session: &mut Session<'a, D, O>,
) -> Result<EndReply, EndError>
    ensures did { (taken : ℕ) × HasEnded O.start session.old 0 result session.new taken }
{
    end_with::<Brand, D, O, R>(Blank::new(1), rt, session)
}
