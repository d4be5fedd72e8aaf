ghost use Rattle.std.specs.Prelude.{◌≡◌, Option, Some};
ghost use Rattle.la_embed.specs.declared.embedded.Embedded.{Embedded};
ghost use Rattle.lattice_c.specs.Sealed.{sealed_owns, placed_owns};

use crate::parts::Parts;
use la_embed::Embedded;
use std::alloc::Global;
use std::marker::Model;

#[repr(C)]
pub struct Handle {
    pub(crate) at: *mut u8,
    pub(crate) alloc: Global,
    ghost host: { Embedded },
}

impl Model for Handle {
    ghost also_owns = { λ h. sealed_owns h.alloc h.at h.host };
}

/// Where the program wants a new handle: its bytes, and what of a host they lead to. What stands there at first leads to
/// none. It is the program's, so nothing is freed where it is written over.
#[repr(C)]
#[derive(Drop)]
pub struct Place {
    pub(crate) at: *mut u8,
    pub(crate) alloc: Global,
    pub ghost held: { Option Embedded },
}

impl Model for Place {
    ghost also_owns = { λ p. placed_owns p.alloc p.at p.held };
}

// Its check asks for the proof that such a value may go to another thread.
fn crosses<T: Send>() {}

impl Place {
    /// What a box leads to is the program's from then on: the place is a handle of it.
    pub fn of(host: Box<Embedded>) -> Place
        ensures { result.held ≡ Some host.value }
    {
        crosses::<Handle>();
        Place::of_parts(Parts::of(host))
    }

    pub fn of_parts(parts: Parts<Embedded, Global>) -> Place
        ensures { result.held ≡ Some parts.value }
    {
        let Parts { ptr, alloc } = parts;
        Place {
            at: ptr as *mut u8,
            alloc,
        }
    }
}

impl Handle {
    pub fn into_parts(self) -> Parts<Embedded, Global>
        ensures { result.value ≡ self.host }
    {
        let Handle { at, alloc } = self;
        Parts {
            ptr: at as *mut Embedded,
            alloc,
        }
    }
}

impl Drop for Handle {
    fn drop(self) {
        drop(self.into_parts().into_box());
    }
}

// Nothing that it leads to is bound to a thread.
unsafe impl Send for Handle {}
