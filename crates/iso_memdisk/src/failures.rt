// Which calls are to fail, and how often calls were made, failed, and found no memory.
ghost use Rattle.std.specs.Prelude.{◌≡◌, ◌≤◌, ◌↔◌, None, IsErr, IsTrue};
ghost use Rattle.counts.specs.Count.{one_more, faults_after, Rose, HasCause};

use counts::raise;
use iso_disk::DiskFault;

/// A kind of call of a disk.
#[derive(Clone, Copy, Debug, PartialEq, Eq)]
pub enum CallKind {
    Read,
    Write,
    Sync,
    Bind,
}

/// For each kind, which of the next calls of that kind fails alone, from 1; at 0 none does.
#[derive(Debug, Drop)]
pub struct KindPlan {
    pub read: u64,
    pub write: u64,
    pub sync: u64,
    pub bind: u64,
}

impl KindPlan {
    ghost use Rattle.iso_memdisk.specs.Failures.{failing_of, set_failing};

    /// Which of the next calls of this kind is to fail.
    pub fn failing(&self, kind: CallKind) -> u64
        ensures { result ≡ failing_of kind self.now }
    {
        match kind {
            CallKind::Read => self.read,
            CallKind::Write => self.write,
            CallKind::Sync => self.sync,
            CallKind::Bind => self.bind,
        }
    }

    /// Of the next calls of this kind the one with this number is to fail.
    pub fn set(&mut self, kind: CallKind, number: u64)
        ensures { self.new ≡ set_failing kind number self.old }
    {
        match kind {
            CallKind::Read => self.read = number,
            CallKind::Write => self.write = number,
            CallKind::Sync => self.sync = number,
            CallKind::Bind => self.bind = number,
        }
    }
}

/// The plan of a disk's failures, and its counts. A count stays at its last value.
#[derive(Debug, Drop)]
pub struct Failures {
    /// How many calls pass before all fail.
    pub passing: Option<u64>,
    /// Which of the next calls fails alone, from 1; at 0 none does.
    pub failing: u64,
    pub kinds: KindPlan,
    pub calls: u64,
    pub binds: u64,
    pub faults: u64,
    pub starved: u64,
}

impl Failures {
    ghost use Rattle.iso_memdisk.specs.Failures.{IsNamed, binds_after, counted, no_failures};

    /// No call is to fail, and none was made.
    pub fn none() -> Self
        ensures { result ≡ no_failures }
    {
        Failures {
            passing: None,
            failing: 0,
            kinds: KindPlan {
                read: 0,
                write: 0,
                sync: 0,
                bind: 0,
            },
            calls: 0,
            binds: 0,
            faults: 0,
            starved: 0,
        }
    }

    /// Counts a call.
    ///
    /// # Errors
    ///
    /// The plan names the call, and exactly then.
    pub fn count_call(&mut self, kind: CallKind) -> Result<(), DiskFault>
        ensures named { IsErr result ↔ IsNamed kind self.old }
        ensures counted { self.new ≡ record (counted kind self.old) { faults = faults_after self.old.faults result } }
        ensures cause { HasCause self.old.faults self.new.faults result }
    {
        let named = self.is_named(kind);
        raise(&mut self.calls);
        self.count_bind(kind);
        self.passing = self.passing.map(|left| left.saturating_sub(1));
        self.failing = self.failing.saturating_sub(1);
        self.kinds
            .set(kind, self.kinds.failing(kind).saturating_sub(1));
        if named {
            raise(&mut self.faults);
            return Err(DiskFault);
        }
        Ok(())
    }

    // Counts a bind among the calls.
    fn count_bind(&mut self, kind: CallKind)
        ensures { self.new ≡ record self.old { binds = binds_after kind self.old.binds } }
    {
        if kind == CallKind::Bind {
            raise(&mut self.binds);
        }
    }

    /// Counts want of memory, which is a fault too.
    pub fn starve(&mut self) -> DiskFault
        ensures later { self.old.faults ≤ self.new.faults }
        ensures rose { Rose self.old.faults self.new.faults }
        ensures counted { self.new ≡ record self.old { starved = one_more self.old.starved; faults = one_more self.old.faults } }
    {
        raise(&mut self.starved);
        raise(&mut self.faults);
        DiskFault
    }

    fn is_named(&self, kind: CallKind) -> bool
        ensures { IsTrue result ↔ IsNamed kind self.now }
    {
        self.passing == Some(0) || self.failing == 1 || self.kinds.failing(kind) == 1
    }
}
