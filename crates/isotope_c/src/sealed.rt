// A box of an instance as a pointer that C may keep.
ghost use Rattle.std.specs.Prelude.{◌≡◌, Option, None, Some, IsSome};
ghost use Rattle.isotope_c.specs.declared.instance.Instance.{Instance};
ghost use Rattle.isotope_c.specs.Sealed.{instance_coded, handle_owns};

mod parts;

use crate::instance::Instance;
use parts::Parts;
use std::alloc::Global;
use std::marker::Model;

/// A pointer to an instance, or none.
#[repr(C)]
#[derive(Drop)]
pub struct Handle {
    ptr: *mut u8,
    alloc: Global,
    pub ghost instance: { Option Instance } by { instance_coded },
}

impl Model for Handle {
    ghost also_owns = { λ h. handle_owns h.alloc h.ptr h.instance };
}

impl Handle {
    /// None.
    pub(crate) fn none(alloc: Global) -> Handle
        ensures { result.instance ≡ None }
    {
        Handle {
            ptr: std::ptr::null_mut(),
            alloc,
        }
    }

    fn of_parts(parts: Parts<Instance, Global>) -> Handle
        ensures { result.instance ≡ Some parts.value }
    {
        let Parts { ptr, alloc } = parts;
        Handle {
            ptr: ptr as *mut u8,
            alloc,
        }
    }

    fn into_parts(self) -> Parts<Instance, Global>
        requires { IsSome self.instance }
        ensures { Some result.value ≡ self.instance }
    {
        let Handle { ptr, alloc } = self;
        Parts {
            ptr: ptr as *mut Instance,
            alloc,
        }
    }

    /// Of a box.
    pub(crate) fn of(instance: Box<Instance>) -> Handle
        ensures { result.instance ≡ Some instance.value }
    {
        Handle::of_parts(Parts::of(instance))
    }

    /// The box again.
    pub(crate) fn into_box(self) -> Box<Instance>
        requires { IsSome self.instance }
        ensures { Some result.value ≡ self.instance }
    {
        self.into_parts().into_box()
    }
}
