// A link that never fails: its count of faults is the constant 0.
ghost use Rattle.std.specs.Prelude.{◌≡◌, None, Ok, false};
ghost use Rattle.sfu_base.specs.Faults.{HasCause};
ghost use Rattle.sfu_base.specs.Links.{FillsOnlyWhere, after_receive, after_send};

use crate::{Failed, Link, PacketBuf};

/// A link that never receives a datagram. The link accepts every datagram that is to be sent, and discards it. It allocates no memory.
#[derive(Drop)]
pub struct CalmLink {
    name: u64,
}

impl CalmLink {
    /// A link that never fails.
    pub fn new() -> Self
        ensures traffic { ⟦<CalmLink as Link>⟧.traffic result ≡ None }
        ensures faults { ⟦<CalmLink as Link>⟧.faults result ≡ 0 }
        ensures name { ⟦<CalmLink as Link>⟧.name result ≡ 0 }
    {
        CalmLink { name: 0 }
    }

    /// A link that never fails and has this name. The name is the number of links that the same [`Ports`](crate::Ports) bound before this link.
    pub fn named(name: u64) -> Self
        ensures traffic { ⟦<CalmLink as Link>⟧.traffic result ≡ None }
        ensures faults { ⟦<CalmLink as Link>⟧.faults result ≡ 0 }
        ensures name { ⟦<CalmLink as Link>⟧.name result ≡ name }
    {
        CalmLink { name }
    }
}

impl Default for CalmLink {
    /// A link that never fails.
    fn default() -> CalmLink
        ensures traffic { ⟦<CalmLink as Link>⟧.traffic result ≡ None }
        ensures faults { ⟦<CalmLink as Link>⟧.faults result ≡ 0 }
        ensures name { ⟦<CalmLink as Link>⟧.name result ≡ 0 }
    {
        CalmLink::new()
    }
}

impl Link for CalmLink {
    ghost traffic = { λ _. None };

    ghost name = { λ s. s.name };

    ghost faults = { λ _. 0 };

    /// Always `Ok(false)`.
    fn receive(&mut self, buf: &mut PacketBuf) -> Result<bool, Failed>
        ensures buffer { FillsOnlyWhere result buf.old buf.new }
        ensures traffic { None ≡ after_receive result buf.new None }
        ensures name { self.new.name ≡ self.old.name }
        ensures cause { HasCause 0 0 result }

        ensures nothing { result ≡ Ok false }
    {
        Ok(false)
    }

    fn send(&mut self, _packet: &PacketBuf) -> Result<(), Failed> {
        Ok(())
    }
}
