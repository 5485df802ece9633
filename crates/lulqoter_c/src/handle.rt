// A handle that C holds: a sender behind a raw pointer, or nothing.
ghost use Rattle.std.specs.Prelude.{◌≡◌, Option, Some, None, MatchOption};
ghost use Rattle.capi.specs.declared.sender.Sender.{Sender};
ghost use Rattle.lulqoter_c.specs.Holds.{holds, held_coded};

mod parts;

use capi::Sender;
use parts::Parts;
use std::alloc::Global;
use std::marker::Model;

#[repr(C)]
pub struct Handle {
    live: bool,
    ptr: *mut u8,
    alloc: Global,
    pub ghost held: { Option Sender } by { held_coded },
}

impl Model for Handle {
    ghost also_owns = { λ h. holds h.live h.alloc h.ptr h.held };
}

impl Handle {
    // Nothing.
    pub fn empty(alloc: Global) -> Handle
        ensures { result.held ≡ None }
    {
        Handle {
            live: false,
            ptr: std::ptr::null_mut(),
            alloc,
        }
    }

    // A sender.
    pub fn of(sender: Box<Sender>) -> Handle
        ensures { result.held ≡ Some sender.value }
    {
        Handle::of_parts(Parts::of(sender))
    }

    // The sender, if there is one.
    pub fn into_box(self) -> Option<Box<Sender>>
        ensures { MatchOption result (self.held ≡ None) (λ b. self.held ≡ Some b.value) }
    {
        match self.into_parts() {
            Some(parts) => Some(parts.into_box()),
            None => None,
        }
    }

    fn of_parts(parts: Parts<Sender, Global>) -> Handle
        ensures { result.held ≡ Some parts.value }
    {
        let Parts { ptr, alloc } = parts;
        Handle {
            live: true,
            ptr: ptr as *mut u8,
            alloc,
        }
    }

    fn into_parts(self) -> Option<Parts<Sender, Global>>
        ensures { MatchOption result (self.held ≡ None) (λ p. self.held ≡ Some p.value) }
    {
        let Handle { live, ptr, alloc } = self;
        if live {
            let ptr = ptr as *mut Sender;
            return Some(Parts { ptr, alloc });
        }
        None
    }
}

impl Drop for Handle {
    fn drop(self) {
        drop(self.into_box());
    }
}

unsafe impl Send for Handle {}
