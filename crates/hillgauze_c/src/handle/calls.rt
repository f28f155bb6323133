//! A handle lends its object, is filled and emptied.
ghost use Rattle.std.specs.Prelude.{◌≡◌, None, Some, true, false};
ghost use Rattle.std.specs.Option.{option_map};
ghost use Rattle.std.specs.Borrow.{sem};
ghost use Rattle.hillgauze_c.specs.Lends.{LendsObject};
ghost use Rattle.hillgauze_c.specs.Kinds.{IsTaken};

use super::Handle;
use super::parts::Parts;
use crate::object::Object;
use std::alloc::Global;
use std::mem::replace;
use std::ptr::null_mut;

impl Handle {
    /// The null handle.
    fn null(alloc: Global) -> Handle
        ensures { result.object ≡ None }
    {
        Handle {
            ptr: null_mut(),
            alloc,
        }
    }

    fn of_parts(parts: Parts<Object, Global>) -> Handle
        ensures { result.object ≡ Some parts.value }
    {
        let Parts { ptr, alloc } = parts;
        Handle {
            ptr: ptr as *mut (),
            alloc,
        }
    }

    fn into_parts(self) -> Option<Parts<Object, Global>>
        ensures { option_map (λ parts. parts.value) result ≡ self.object }
    {
        let Handle { ptr, alloc } = self;
        if ptr.is_null() {
            return None;
        }
        Some(Parts {
            ptr: ptr as *mut Object,
            alloc,
        })
    }

    pub(super) fn into_box(self) -> Option<Box<Object>>
        ensures { option_map (λ boxed. boxed.value) result ≡ self.object }
    {
        match self.into_parts() {
            Some(parts) => Some(parts.into_box()),
            None => None,
        }
    }

    /// The object, where there is one.
    pub fn lend(&mut self) -> Option<&mut Object>
        ensures* writes_back { sem 𝓛 (LendsObject self.entry result) }
        ensures object { option_map (λ object. object.now) result ≡ self.old.object }
    {
        if self.ptr.is_null() {
            return None;
        }
        unsafe { Some(&mut *(self.ptr as *mut Object)) }
    }

    /// Whether there is none.
    pub fn is_null(&mut self) -> bool
        ensures null { result ≡ true → self.old.object ≡ None }
        ensures some { result ≡ false → IsTaken self.old.object }
        ensures same { self.new.object ≡ self.old.object }
    {
        match self.lend() {
            Some(_object) => false,
            None => true,
        }
    }

    /// Puts an object in the handle, and says whether there was memory for it.
    pub fn make(&mut self, alloc: Global, object: Object) -> bool
        ensures made { result ≡ true → self.new.object ≡ Some object }
        ensures left { result ≡ false → self.new.object ≡ self.old.object }
    {
        match Box::new(alloc, object) {
            Ok(boxed) => {
                *self = Handle::of_parts(Parts::of(boxed));
                true
            }
            Err(_failed) => false,
        }
    }

    /// Puts an object in the place of the one that the handle has.
    pub fn put(&mut self, object: Object)
        requires { IsTaken self.old.object }
        ensures { self.new.object ≡ Some object }
    {
        match self.lend() {
            Some(place) => *place = object,
            None => unreachable!(),
        }
    }

    /// Takes what the handle has, and leaves it null.
    pub fn take(&mut self, alloc: Global) -> Handle
        ensures taken { result.object ≡ self.old.object }
        ensures left { self.new.object ≡ None }
    {
        replace(self, Handle::null(alloc))
    }

    /// Frees what the handle has, and leaves it null.
    pub fn clear(&mut self, alloc: Global)
        ensures { self.new.object ≡ None }
    {
        *self = Handle::null(alloc);
    }
}
