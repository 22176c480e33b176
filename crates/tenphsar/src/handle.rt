//! What C holds of a session: a pointer that says nothing of what is behind it.

ghost use Rattle.std.specs.Prelude.{◌≡◌, None, Some, Option, IsSome};
ghost use Rattle.smil_top.specs.declared.held.Held.{Held as AnyHeld};
ghost use Rattle.tenphsar.specs.Rows.{handle_owns};

use crate::loose::Loose;
use smil_top::Held;
use std::alloc::Global;
use std::marker::Model;
use std::{mem, ptr};

/// A session that is open, or none.
#[repr(C)]
#[derive(Drop)]
pub struct Handle {
    at: *mut u8,
    pub ghost value: { Option AnyHeld },
}

impl Model for Handle {
    ghost also_owns = { λ h. handle_owns h.at h.value };
}

impl Handle {
    /// No session.
    pub(crate) fn none() -> Handle
        ensures { result.value ≡ None }
    {
        Handle {
            at: ptr::null_mut(),
        }
    }

    /// Takes the session out of a handle that is open; then it is not.
    pub(crate) fn take(&mut self, alloc: Global) -> Box<Held>
        requires { IsSome self.old.value }
        ensures session { Some result.value ≡ self.old.value }
        ensures none { self.new.value ≡ None }
    {
        mem::replace(self, Handle::none())
            .into_loose(alloc)
            .into_box()
    }

    /// Puts a session into a handle that is not open; then it is.
    pub(crate) fn put(&mut self, session: Box<Held>)
        ensures { self.new.value ≡ Some session.value }
    {
        *self = Handle::of(Loose::of(session));
    }

    // The handle of a session, whose memory it owns from here on.
    fn of(loose: Loose<Held, Global>) -> Handle
        ensures { result.value ≡ Some loose.value }
    {
        let Loose { at, alloc: _ } = loose;
        Handle { at: at as *mut u8 }
    }

    // The session of a handle that is open.
    fn into_loose(self, alloc: Global) -> Loose<Held, Global>
        requires { IsSome self.value }
        ensures { Some result.value ≡ self.value }
    {
        let Handle { at } = self;
        Loose {
            at: at as *mut Held,
            alloc,
        }
    }
}
