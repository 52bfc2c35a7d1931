// The two words that C keeps for a device.
ghost use Rattle.std.specs.Prelude.{◌≡◌, ◌≢◌, true, false, None, Some, IsSome};
ghost use Rattle.isotope_c.specs.Instances.{desk_in, laid_in};

use crate::instance::Instance;
use crate::sealed::Handle;
use std::alloc::Global;
use std::mem;

const EMPTY: u64 = 0;

const OPEN: u64 = 1;

const LAID: u64 = 2;

/// An open device, an image that is being laid, or nothing. C makes it of zeros, and writes to it no more.
#[repr(C)]
#[derive(Drop)]
pub struct Slot {
    holds: u64,
    // it takes no bytes
    alloc: Global,
    pub inner: Handle,
    ghost empty: { holds ≡ 0 → inner.instance ≡ None },
    ghost open: { holds ≡ 1 → IsSome (desk_in inner.instance) },
    ghost laid: { holds ≢ 0 → holds ≢ 1 → IsSome (laid_in inner.instance) },
}

fn none(alloc: Global) -> Slot
    ensures { result.inner.instance ≡ None }
{
    Slot {
        holds: EMPTY,
        alloc,
        inner: Handle::none(alloc),
    }
}

fn instance_in(slot: Slot) -> Box<Instance>
    requires { IsSome slot.inner.instance }
    ensures { Some result.value ≡ slot.inner.instance }
{
    let Slot {
        holds: _,
        alloc: _,
        inner,
    } = slot;
    inner.into_box()
}

/// Where memory comes from.
pub(crate) fn alloc_of(slot: &Slot) -> Global {
    slot.alloc
}

/// Whether there is nothing in it.
pub(crate) fn is_empty(slot: &Slot) -> bool
    ensures empty { result ≡ true → slot.now.inner.instance ≡ None }
    ensures there { result ≡ false → IsSome slot.now.inner.instance }
{
    slot.holds == EMPTY
}

/// Whether an open device is in it.
pub(crate) fn is_open(slot: &Slot) -> bool
    ensures open { result ≡ true → IsSome (desk_in slot.now.inner.instance) }
    ensures closed { result ≡ false → desk_in slot.now.inner.instance ≡ None }
{
    slot.holds == OPEN
}

/// Whether an image is being laid in it.
pub(crate) fn is_laid(slot: &Slot) -> bool
    ensures laid { result ≡ true → IsSome (laid_in slot.now.inner.instance) }
    ensures closed { result ≡ false → laid_in slot.now.inner.instance ≡ None }
{
    slot.holds != EMPTY && slot.holds != OPEN
}

/// What is in it, which leaves it empty.
pub(crate) fn take(slot: &mut Slot) -> Box<Instance>
    requires { IsSome slot.old.inner.instance }
    ensures there { slot.old.inner.instance ≡ Some result.value }
    ensures empty { slot.new.inner.instance ≡ None }
{
    let nothing = none(slot.alloc);
    instance_in(mem::replace(slot, nothing))
}

/// The open device that is in it, which leaves it empty.
pub(crate) fn take_open(slot: &mut Slot) -> Box<Instance>
    requires { IsSome (desk_in slot.old.inner.instance) }
    ensures there { slot.old.inner.instance ≡ Some result.value }
    ensures open { IsSome (desk_in (Some result.value)) }
{
    take(slot)
}

/// The image that is being laid in it, which leaves it empty.
pub(crate) fn take_laid(slot: &mut Slot) -> Box<Instance>
    requires { IsSome (laid_in slot.old.inner.instance) }
    ensures there { slot.old.inner.instance ≡ Some result.value }
    ensures laid { IsSome (laid_in (Some result.value)) }
    ensures empty { slot.new.inner.instance ≡ None }
{
    take(slot)
}

/// Puts it into the slot.
pub(crate) fn put(slot: &mut Slot, instance: Box<Instance>)
    ensures { slot.new.inner.instance ≡ Some instance.value }
{
    let holds = match &*instance {
        Instance::Open(_) => OPEN,
        Instance::Laid(_) => LAID,
    };
    let alloc = slot.alloc;
    *slot = Slot {
        holds,
        alloc,
        inner: Handle::of(instance),
    };
}
