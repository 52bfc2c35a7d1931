// The contract between those who keep bytes and those who use them.
ghost use Rattle.std.specs.{Prelude.{◌≡◌, ◌+◌, ◌^◌, ◌<◌, ◌≤◌, ℕ, List, Option, length, replicate, OnOk, OnErr, IfNone, IfSome, IsSome, Some, None}, List.slice_range, Option.ForSome};
ghost use Rattle.iso_disk.specs.Disk.{DiskState, IsLawful, TornFrom, Splices, TellsTorn, IsSettled, Elapses};
ghost use Rattle.counts.specs.Count.{one_more, HasCause};

/// The disk has failed in this call.
#[derive(Clone, Copy, Debug, PartialEq, Eq)]
pub struct DiskFault;

/// A disk of a fixed size. Between two syncs each range that was written may hold any bytes after a crash,
/// and the bytes outside stay; after a sync that succeeds, a crash leaves what a read gives.
pub trait Disk {
    /// What the disk is at this moment.
    ghost state: { Self → DiskState };

    /// The number of bytes.
    fn size(&self) -> u64
        ensures { result ≡ (state self.now).size };

    /// Reads the bytes from `at` on into the whole slice. It writes nothing.
    ///
    /// # Errors
    ///
    /// The disk failed in this call. Any bytes may be in the slice; the disk's bytes stay as they were.
    fn read(&mut self, at: u64, into: &mut [u8]) -> Result<(), DiskFault>
        requires { at + length into.old ≤ (state self.old).size }
        ensures bytes { OnOk result (ForSome (state self.old).contents (λ c. into.new ≡ slice_range c at (at + length into.old))) }
        ensures contents { (state self.new).contents ≡ (state self.old).contents }
        ensures crash { Elapses (state self.old) (state self.new) (state self.old).now }
        ensures cause { HasCause (state self.old).faults (state self.new).faults result };

    /// Writes bytes from `at` on. Until a sync succeeds, a crash may leave any bytes in their range.
    ///
    /// # Errors
    ///
    /// The disk failed in this call. A read, and an image after a crash, may then give any bytes in that range; those
    /// outside stay.
    fn write(&mut self, at: u64, bytes: &[u8]) -> Result<(), DiskFault>
        requires { at + length bytes.now ≤ (state self.old).size }
        ensures written { OnOk result (Splices at bytes.now (state self.old) (state self.new)) }
        ensures failed { OnErr result (TellsTorn at (length bytes.now) (state self.old) (state self.new)) }
        ensures crash { Elapses (state self.old) (state self.new) (TornFrom at (length bytes.now) (state self.old).now) }
        ensures cause { HasCause (state self.old).faults (state self.new).faults result };

    /// Makes what was written stable: a crash leaves what a read gives.
    ///
    /// # Errors
    ///
    /// The disk failed in this call. A read gives what it gave, and nothing is known to be stable.
    fn sync(&mut self) -> Result<(), DiskFault>
        ensures settled { OnOk result (IsSettled (state self.new)) }
        ensures contents { (state self.new).contents ≡ (state self.old).contents }
        ensures crash { Elapses (state self.old) (state self.new) (state self.old).now }
        ensures cause { HasCause (state self.old).faults (state self.new).faults result };

    /// The size is a `u64`.
    ghost size_fits: { (d : Self) → (state d).size < 2 ^ 64 };

    /// The moments and the images of each state go together.
    ghost lawful: { (d : Self) → IsLawful (state d) };
}

/// A disk that is the device of a name, once it is bound to it.
pub trait Image: Disk {
    /// With a size, makes a blank device of that size: zeros. With none, takes the existing device with the contents
    /// that it has and makes them stable. What the disk promises of crashes begins at Ok.
    ///
    /// # Errors
    ///
    /// The disk failed in this call. Nothing is bound then; what it leaves under the name is not said.
    fn bind(&mut self, name: &str, want: Option<u64>) -> Result<(), DiskFault>
        ensures size { OnOk result (IfSome want (λ w. (Self.state self.new).size ≡ w)) }
        ensures blank { OnOk result (IfSome want (λ w. ForSome (Self.state self.new).contents (λ c. c ≡ replicate w 0))) }
        ensures blank_after_crash { OnOk result (IfSome want (λ w. (c : List ℕ) → (Self.state self.new).now c → c ≡ replicate w 0)) }
        ensures existing { OnOk result (IfNone want (ForSome ((Self.state self.old).named name.now) (λ c. (Self.state self.new).contents ≡ Some c))) }
        ensures settled { OnOk result (IfNone want (IsSettled (Self.state self.new))) }
        ensures told { OnOk result (IsSome ((Self.state self.old).named name.now) → IsSome (Self.state self.new).contents) }
        ensures bound { OnOk result ((Self.state self.new).bound ≡ Some ((Self.state self.new).clock, name.now)) }
        ensures unbound { OnErr result ((Self.state self.new).bound ≡ None) }
        ensures counted { (Self.state self.new).binds ≡ one_more (Self.state self.old).binds }
        ensures cause { HasCause (Self.state self.old).faults (Self.state self.new).faults result };
}
