//! A place of C's that holds a manager, or nothing. In C: `struct jc_manager { void *at; };`, empty
//! at null.
ghost use Rattle.std.specs.Prelude.{◌≡◌};
ghost use Rattle.std.specs.declared.option.Option.{Option};
ghost use Rattle.std.specs.declared.option.Option.TheVariants.{None, Some};
ghost use Rattle.std.specs.Option.{MatchOption};
ghost use Rattle.jc_c.specs.declared.ffi_manager.FfiManager.{FfiManager};
ghost use Rattle.jc_c.specs.Slot.{slot_owns, held_coded};

mod parts;

use crate::ffi_manager::FfiManager;
use parts::Parts;
use std::alloc::Global;
use std::marker::Model;
use std::mem::replace;
use std::ptr::null_mut;

/// A manager or nothing, of which contracts see what it holds. To be let go or replaced only while
/// it is empty: what it holds is freed by `take` alone.
#[repr(C)]
#[derive(Drop)]
pub struct Handle {
    at: *mut u8,
    alloc: Global,
    pub ghost held: { Option FfiManager } by { held_coded },
}

impl Model for Handle {
    ghost also_owns = { λ h. slot_owns h.alloc h.at h.held };
}

// C may hand it to another thread, in order by a lock, a start or a join.
unsafe impl Send for Handle {}

impl Handle {
    /// Null, which holds nothing.
    fn empty(alloc: Global) -> Handle
        ensures { result.held ≡ None }
    {
        Handle {
            at: null_mut(),
            alloc,
        }
    }

    /// The handle of a box that was taken apart.
    fn of_parts(parts: Parts<FfiManager, Global>) -> Handle
        ensures { result.held ≡ Some parts.value }
    {
        let Parts { ptr, alloc } = parts;
        Handle {
            at: ptr as *mut u8,
            alloc,
        }
    }

    /// The parts of the box, if there is one.
    fn into_parts(self) -> Option<Parts<FfiManager, Global>>
        ensures { MatchOption result (self.held ≡ None) (λ p. self.held ≡ Some p.value) }
    {
        let Handle { at, alloc } = self;
        if at.is_null() {
            None
        } else {
            Some(Parts {
                ptr: at as *mut FfiManager,
                alloc,
            })
        }
    }

    /// Puts a manager into an empty handle.
    pub fn put_in(&mut self, seat: Box<FfiManager>)
        requires { self.old.held ≡ None }
        ensures { self.new.held ≡ Some seat.value }
    {
        *self = Handle::of_parts(Parts::of(seat));
    }

    /// Takes the manager out, if there is one; the handle is empty then.
    pub fn take(&mut self, alloc: Global) -> Option<Box<FfiManager>>
        ensures after { self.new.held ≡ None }
        ensures had { MatchOption result (self.old.held ≡ None)
            (λ b. self.old.held ≡ Some b.value) }
    {
        match replace(self, Handle::empty(alloc)).into_parts() {
            Some(parts) => Some(parts.into_box()),
            None => None,
        }
    }
}
