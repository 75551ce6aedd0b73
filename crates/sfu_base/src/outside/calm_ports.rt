// Ports that never fail: their count of faults is the constant 0.
ghost use Rattle.std.specs.Prelude.{◌≡◌, ◌≤◌, [], Some, IfOk, vec_len};
ghost use Rattle.std.specs.Vec.{vec_capacity};

use crate::outside::ports::PORT_LIMIT;
use crate::{Address, CalmLink, Failed, NoMemory, Ports};
use std::alloc::Global;

/// Binds links that never fail, and never fails itself. `new` reserves capacity for all links that come back, so no later call allocates memory.
#[derive(Drop)]
pub struct CalmPorts {
    returned: Vec<CalmLink>,
    bound: u64,
    ghost within: { vec_len returned ≤ bound },
    ghost limited: { bound ≤ 64 },
    ghost reserved: { 64 ≤ vec_capacity returned },
}

impl CalmPorts {
    /// Ports before the first bind. Returns `NoMemory` if the capacity can't be reserved.
    pub fn new(alloc: Global) -> Result<Self, NoMemory>
        ensures returned { IfOk result (λ ports. ⟦<CalmPorts as Ports>⟧.returned ports ≡ Some []) }
        ensures bound { IfOk result (λ ports. ⟦<CalmPorts as Ports>⟧.bound ports ≡ 0) }
        ensures back_count { IfOk result (λ ports. ⟦<CalmPorts as Ports>⟧.back_count ports ≡ 0) }
        ensures faults { IfOk result (λ ports. ⟦<CalmPorts as Ports>⟧.faults ports ≡ 0) }
    {
        let returned = Vec::with_capacity(alloc, PORT_LIMIT).map_err(|_| NoMemory)?;
        Ok(CalmPorts { returned, bound: 0 })
    }
}

impl Ports for CalmPorts {
    type Port = CalmLink;

    ghost returned = { λ s. Some s.returned.items };

    ghost bound = { λ s. s.bound };

    ghost back_count = { λ s. vec_len s.returned };

    ghost faults = { λ _. 0 };

    fn bind(&mut self, _local: Address, _peer: Address) -> Result<CalmLink, Failed> {
        let link = CalmLink::named(self.bound);
        self.bound += 1;
        Ok(link)
    }

    fn back(&mut self, port: CalmLink) {
        self.returned.push_reserved(port);
    }

    fn lemma_were_bound(&self) {
        let _ = &self.bound;
    }
}
