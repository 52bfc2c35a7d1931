// What may be done at the disk of a core between two calls.
ghost use Rattle.std.specs.Prelude.{◌≡◌};
ghost use Rattle.iso_disk.specs.Disk.{WritesNothing};

use iso_disk::Disk;

/// An errand after which the disk may be bound to something else. But for that it changes nothing of what the disk is to those who
/// call it.
pub trait Rebinding<D: Disk> {
    /// What it makes of itself and of the disk.
    ghost did: { Self → D → Self → D → Type 0 };

    /// Runs it on the disk.
    fn run(&mut self, disk: &mut D)
        ensures did { Self.did self.old disk.old self.new disk.new }
        ensures unwritten { WritesNothing (D.state disk.old) (record (D.state disk.new) { bound = (D.state disk.old).bound }) }
        ensures faults { (D.state disk.new).faults ≡ (D.state disk.old).faults };
}
