// Binds links, and takes them back after use (own rule).
ghost use Rattle.std.specs.Prelude.{◌≡◌, ◌+◌, ◌<◌, ◌≤◌, ℕ, List, Option, IfOk, IsOk, OnErr};
ghost use Rattle.sfu_base.specs.Faults.{HasCause};
ghost use Rattle.sfu_base.specs.Ports.{CountsBack, after_back, after_bind, has_no_traffic_yet};

use crate::{Address, Failed, Link};

/// The largest number of ports that may be bound.
pub const PORT_LIMIT: usize = 64;

/// Binds links to local addresses, and takes them back after use.
pub trait Ports {
    /// A link that is bound to a local address and has one peer.
    type Port: Link + Send + Drop;

    /// The ports that came back, in order, or `None` if they aren't recorded.
    ghost returned: { Self → Option (List Self.Port) };

    /// How many ports were bound.
    ghost bound: { Self → ℕ };

    /// How many ports came back.
    ghost back_count: { Self → ℕ };

    /// The number of failed binds, plus the number of ports that came back with faults of their own. The count stops at 2^64 - 1.
    ghost faults: { Self → ℕ };

    /// Binds a port to the local address. The port sends to the peer, and receives only from the peer. The port has no faults and no recorded
    /// traffic yet, and its name is the number of ports bound before it. After `Failed` no port was bound.
    fn bind(&mut self, local: Address, peer: Address) -> Result<Self::Port, Failed>
        requires { bound self.old < 64 }
        ensures bound { bound self.new ≡ after_bind result (bound self.old) }
        ensures back_count { back_count self.new ≡ back_count self.old }
        ensures returned { returned self.new ≡ returned self.old }
        ensures quiet { IfOk result (λ port. Self.Port.faults port ≡ 0) }
        ensures silent { IfOk result (λ port. has_no_traffic_yet (Self.Port.traffic port)) }
        ensures name { IfOk result (λ port. Self.Port.name port ≡ bound self.old) }
        ensures cause { HasCause (faults self.old) (faults self.new) result };

    /// Takes a port back. The count of faults rises exactly when the port has faults of its own.
    fn back(&mut self, port: Self::Port)
        requires { back_count self.old < bound self.old }
        ensures bound { bound self.new ≡ bound self.old }
        ensures back_count { back_count self.new ≡ back_count self.old + 1 }
        ensures returned { returned self.new ≡ after_back port (returned self.old) }
        ensures cause { CountsBack (Self.Port.faults port) (faults self.old) (faults self.new) };

    /// A lemma: no more ports came back than were bound. The call does nothing at run time.
    fn lemma_were_bound(&self)
        ensures { back_count self.now ≤ bound self.now };
}
