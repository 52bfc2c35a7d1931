// The entries of the list that a shared device represents. No value of them is made.

use iso_model::{Access, EndReply, GroupReply, Label, Mode};
use std::collections::LinkedList;

/// A member of a group: its number and its accesses.
pub struct Member {
    pub number: u64,
    pub accesses: LinkedList<Access>,
}

/// A member of a group that was ended, with its answer.
pub struct MemberEnd {
    pub number: u64,
    pub accesses: LinkedList<Access>,
    pub reply: GroupReply,
}

/// A call that may be refused, with its arguments.
pub enum Call {
    Begin {
        named: Option<Mode>,
    },
    Fetch {
        number: u64,
        block: u32,
    },
    End {
        number: u64,
        accesses: LinkedList<Access>,
    },
    EndGroup {
        members: LinkedList<Member>,
    },
    Trim,
    Compact,
    Upgrade,
    Post {
        number: u64,
        label: Label,
        accesses: LinkedList<Access>,
    },
    Recent {
        number: u64,
    },
}

/// Why it is refused. A fault of the disk has the counts of faults before and after the call.
pub enum Cause {
    /// An earlier fault set the core down.
    Down,
    /// As many transactions are live as may be.
    TooManyTx,
    /// The record and the next gate need more bytes than the log has free.
    LogFull { need: u64, free: u64 },
    /// The disk failed in the call, which raised the count of its faults.
    Disk { before: u64, after: u64 },
    /// Want of memory.
    Memory,
    /// The number that must rise is the last one.
    Worn,
    /// The image has transactions of its own mode alone.
    ModeFixed,
    /// A transaction is under the label.
    LabelTaken,
}

/// A transaction under a label: its number, its begin, its mode and the accesses of its post.
pub struct Posting {
    pub number: u64,
    pub begin: u64,
    pub mode: Mode,
    pub accesses: LinkedList<Access>,
}

/// The numbers of an image, as a call answers them.
pub struct Numbers {
    pub last: u64,
    pub base: u64,
    pub trim: u64,
    pub live: u64,
    pub used: u64,
    pub versions: u64,
    pub down: bool,
}

/// What one turn did: a call with its transaction, its arguments and its answer.
pub enum Entry {
    Begin {
        number: u64,
        at: u64,
        mode: Mode,
    },
    Fetch {
        number: u64,
        block: u32,
        bytes: LinkedList<u8>,
    },
    End {
        number: u64,
        accesses: LinkedList<Access>,
        reply: EndReply,
    },
    EndGroup {
        members: LinkedList<MemberEnd>,
    },
    Abort {
        number: u64,
    },
    Trim {
        floor: u64,
    },
    Compact {
        floor: u64,
    },
    Upgrade {
        floor: u64,
    },
    Stat {
        numbers: Numbers,
    },
    Post {
        number: u64,
        label: Label,
        accesses: LinkedList<Access>,
    },
    Look {
        label: Label,
        found: Option<Posting>,
    },
    Sweep {
        found: Option<u64>,
    },
    Recent {
        number: u64,
        upto: u64,
    },
    Refused {
        call: Call,
        cause: Cause,
    },
}
