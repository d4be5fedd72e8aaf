// What a handle leads to, lent.
ghost use Rattle.std.specs.Prelude.{◌≡◌};
ghost use Rattle.std.specs.Borrow.{sem, Lends};
ghost use Rattle.la_embed.specs.contracts.embedded.Embedded.{the_row as host_row};
ghost use Rattle.lattice_c.specs.contracts.handle.Handle.{the_row};
ghost use Rattle.lattice_c.specs.Following.{with_host};

use crate::handle::Handle;
use la_embed::Embedded;

impl Handle {
    pub fn inner(&mut self) -> &mut Embedded
        ensures* writes_back { sem 𝓛 (Lends the_row host_row self.entry result (with_host self.old)) }
        ensures value { result.now ≡ self.old.host }
    {
        unsafe { &mut *(self.at as *mut Embedded) }
    }
}
