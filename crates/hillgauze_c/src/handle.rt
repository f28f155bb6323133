//! What C holds: a pointer to one object, or null.
ghost use Rattle.std.specs.Prelude.{Option};
ghost use Rattle.hillgauze_c.specs.declared.object.Object.{Object};

mod calls;
mod parts;

use std::alloc::Global;
use std::marker::Model;

/// A handle of C: null, or the one owner of an object on the heap. C never reads or writes what is in it.
///
/// Contracts see the object, where there is one.
#[repr(C)]
pub struct Handle {
    ptr: *mut (),
    alloc: Global,
    pub ghost object: { Option Object },
}

impl Model for Handle {
    ghost use Rattle.hillgauze_c.specs.Ownership.{handle_owns};

    ghost also_owns = { λ h. handle_owns h.alloc h.ptr h.object };
}

impl Drop for Handle {
    fn drop(self) {
        drop(self.into_box());
    }
}

unsafe impl Send for Handle {}
