// What a call is handed goes into its operation as a copy.
ghost use Rattle.std.specs.Prelude.{◌≡◌, ℕ, IfOk, false};
ghost use Rattle.iso_model.specs.{Premises.AreBytes, World.World};
ghost use Rattle.script_model.specs.declared.script.Op.{Op};
ghost use Rattle.device_desk.specs.Device.{Answered, IsRefusedDown, StandsAt};

use crate::desk::Desk;
use iso_disk::Disk;
use iso_model::{Bytes, Memory};
use script_model::{Reply, Stop};
use std::alloc::Global;

fn copy_of(alloc: Global, bytes: &[u8]) -> Result<Bytes, Memory>
    ensures same { IfOk result (λ b. b ≡ bytes.now) }
    ensures bytes { IfOk result AreBytes }
{
    match bytes.to_vec(alloc) {
        Ok(copy) => Ok(Bytes::of(copy)),
        Err(_) => Err(Memory),
    }
}

impl<D: Disk> Desk<D> {
    /// A copy of these bytes.
    pub(crate) fn copied(&self, bytes: &[u8]) -> Result<Bytes, Memory>
        ensures same { IfOk result (λ b. b ≡ bytes.now) }
        ensures bytes { IfOk result AreBytes }
    {
        copy_of(self.alloc, bytes)
    }

    /// What any call is answered for which memory was wanting before it began.
    pub(crate) fn unmade(&self) -> Result<Reply, Stop>
        ensures did { (W : World) (number : ℕ) (op : Op) → StandsAt D.state self.now W → Answered D.state self.now self.now W number op result }
        ensures down { self.now.up ≡ false → IsRefusedDown self.now self.now result }
    {
        if self.up {
            Err(Stop::Memory)
        } else {
            Err(Stop::Down)
        }
    }
}
