// The moments of a call at which its disk fails, or the sides of its mirror.
use crate::call::Call;
use crate::disks::{Plan, Side};
use crate::text::{Trouble, found};
use std::alloc::{AllocError, Global};
use top_calls::{Failing, Fault};

/// What fails at each moment.
#[derive(Clone, Copy, PartialEq, Eq)]
pub(crate) enum Of {
    /// The disk. Over a mirror both sides stop, each at each of its calls, or either one fails.
    All,
    /// One side.
    One(Side),
    /// The one side or the other.
    Either,
    /// Both sides, at the same call.
    Both,
}

/// Whether a call is made again with a stop at each call of its disk, with a fault of each alone, or with both.
#[derive(Clone, Copy)]
pub(crate) struct Each {
    pub(crate) stops: bool,
    pub(crate) faults: bool,
    pub(crate) of: Of,
}

const WHAT: [(&str, (bool, bool)); 3] = [
    ("stop", (true, false)),
    ("fault", (false, true)),
    ("stop and fault", (true, true)),
];

const SIDES: [(&str, Of); 5] = [
    ("", Of::All),
    ("the first side", Of::One(Side::First)),
    ("the second side", Of::One(Side::Second)),
    ("either side", Of::Either),
    ("both sides", Of::Both),
];

/// What comes after `at each`.
pub(crate) fn each_of(text: &str) -> Result<Each, Trouble> {
    let (what, of) = text.split_once(" of ").unwrap_or((text, ""));
    let Some(of) = found(&SIDES, of) else {
        return Err(Trouble::Said(
            "a moment is one of the first side, of the second, of either or of both sides",
        ));
    };
    let Some((stops, faults)) = found(&WHAT, what) else {
        return Err(Trouble::Said(
            "a call is made at each stop, at each fault, or at each stop and fault",
        ));
    };
    Ok(Each { stops, faults, of })
}

/// A moment.
#[derive(Clone, Copy)]
pub(crate) struct Moment {
    pub(crate) first: Fault,
    pub(crate) second: Fault,
    /// The call that fails.
    pub(crate) number: u64,
    /// The call of the other side from which on that one fails too.
    pub(crate) other: Option<u64>,
    /// Whether one call fails alone.
    pub(crate) is_alone: bool,
    /// Whether what fails ends nothing.
    pub(crate) is_lasting: bool,
    pub(crate) name: &'static str,
}

impl Moment {
    /// What fails at the call of this number: the disk, or one side.
    pub(crate) fn of(side: Side, way: Failing, number: u64, name: &'static str) -> Self {
        let mut plan = Plan::none();
        plan.set(side, way.fault(number));
        Moment {
            first: plan.first,
            second: plan.second,
            number,
            other: None,
            is_alone: matches!(way, Failing::At),
            is_lasting: false,
            name,
        }
    }

    /// Both sides stop, each at its call.
    pub(crate) fn of_both(number: u64, other: u64) -> Self {
        Moment {
            first: Failing::From.fault(number),
            second: Failing::From.fault(other),
            number,
            other: Some(other),
            is_alone: false,
            is_lasting: false,
            name: "a stop of both sides at call",
        }
    }

    /// The plan of a call with this failure.
    pub(crate) fn of_plan(self, plan: Plan) -> Plan {
        Plan {
            first: self.first,
            second: self.second,
            ..plan
        }
    }

    /// What it is.
    pub(crate) fn text(self, alloc: Global) -> Result<String, AllocError> {
        match self.other {
            Some(other) => format!(in alloc; "{} {} and {other}", self.name, self.number),
            None => format!(in alloc; "{} {}", self.name, self.number),
        }
    }
}

/// The name of a moment of one side.
fn name_of(side: Side, way: Failing) -> &'static str {
    match (side, way) {
        (Side::First, Failing::From) => "a stop of the first side at call",
        (Side::First, Failing::At) => "a fault of the first side at call",
        (Side::Second, Failing::From) => "a stop of the second side at call",
        (Side::Second, Failing::At) => "a fault of the second side at call",
    }
}

/// After how many calls of a side its failure ends nothing.
fn lasting_of(call: &Call, side: Side) -> u64 {
    match (call.lasting, side) {
        (Some((calls, _)), Side::First) => calls,
        (Some((_, calls)), Side::Second) => calls,
        (None, _) => u64::MAX,
    }
}

/// Adds the moments of one side, which makes `calls` calls.
fn add_of_side(
    moments: &mut Vec<Moment>,
    call: &Call,
    way: Failing,
    side: Side,
    calls: u64,
) -> Result<(), Trouble> {
    let lasting = lasting_of(call, side);
    for number in call.from..calls.saturating_add(1) {
        let mut moment = Moment::of(side, way, number, name_of(side, way));
        moment.is_lasting = number > lasting;
        moments.push(moment)?;
    }
    Ok(())
}

/// Adds the moments at which both sides stop. The first side is asked first, and alone for what is read; so it is ahead by what it reads,
/// and by two at most in the header. Each moment is among these.
fn add_of_pairs(moments: &mut Vec<Moment>, call: &Call, calls: (u64, u64)) -> Result<(), Trouble> {
    let ahead = calls.0.saturating_sub(calls.1).saturating_add(2);
    for one in call.from..calls.0.saturating_add(2) {
        let least = one.saturating_sub(ahead).max(1);
        for two in least..one.saturating_add(1) {
            moments.push(Moment::of_both(one, two))?;
        }
    }
    Ok(())
}

/// The moments of a mirror whose sides make `calls.0` and `calls.1` calls.
pub(crate) fn of_mirror(
    alloc: Global,
    call: &Call,
    way: Failing,
    of: Of,
    calls: (u64, u64),
) -> Result<Vec<Moment>, Trouble> {
    let mut moments = Vec::new(alloc);
    let is_stop = matches!(way, Failing::From);
    match of {
        Of::Both => {
            for number in call.from..calls.0.max(calls.1).saturating_add(2) {
                moments.push(Moment::of_both(number, number))?;
            }
        }
        Of::All if is_stop => add_of_pairs(&mut moments, call, calls)?,
        Of::One(Side::First) => add_of_side(&mut moments, call, way, Side::First, calls.0)?,
        Of::One(Side::Second) => add_of_side(&mut moments, call, way, Side::Second, calls.1)?,
        Of::All | Of::Either => {
            add_of_side(&mut moments, call, way, Side::First, calls.0)?;
            add_of_side(&mut moments, call, way, Side::Second, calls.1)?;
        }
    }
    Ok(moments)
}
