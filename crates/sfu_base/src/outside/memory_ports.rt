// Ports in memory, with a list of the binds that are to fail.
ghost use Rattle.std.specs.Prelude.{◌≡◌, ◌+◌, ◌<◌, ◌≤◌, ◌↔◌, [], All, Some, IsErr, IsTrue, IfOk, OnOk, OnErr, drop, length};
ghost use Rattle.sfu_base.specs.Faults.{HasCause};
ghost use Rattle.sfu_base.specs.Links.{IsFresh, is_listed};
ghost use Rattle.sfu_base.specs.Ports.{CountsBack, after_back, after_bind, bound_one, came_back, failed_bind, first_link, next_link, has_no_traffic_yet};

use crate::outside::ports::PORT_LIMIT;
use crate::{Address, Failed, MemLink, NoMemory, Ports};
use std::alloc::Global;
use std::marker::Model;

/// Ports in memory. Binds return the prepared links in order. Once all of these are bound, each further bind returns a link without prepared
/// datagrams. A link's name is the number of links bound before it. A bind fails if its number, counted from 0, is in a list. `new` reserves capacity
/// for all links that come back, so no later call allocates memory. Contracts see the remaining prepared links, the links that came back, and the
/// list of failing binds. Contracts also see the number of binds made, the number of ports bound, and the count of faults.
#[derive(Drop)]
pub struct MemPorts {
    alloc: Global,
    prepared: Vec<MemLink>,
    returned: Vec<MemLink>,
    bind_fails: Vec<u64>,
    binds: u64,
    bound: u64,
    faults: u64,
}

impl Model for MemPorts {
    ghost use Rattle.std.specs.Prelude.{All, vec_len};
    ghost use Rattle.std.specs.Vec.{vec_capacity};
    ghost use Rattle.sfu_base.specs.Links.{IsFresh};
    ghost use Rattle.sfu_base.specs.Ports.{PortsInMemory, HaveCapacity};

    ghost Value = { PortsInMemory };

    ghost view = { λ s. record {
      prepared = s.prepared.items;
      returned = s.returned.items;
      failing = s.bind_fails.items;
      binds = s.binds;
      bound = s.bound;
      faults = s.faults;
    } };

    ghost invariant = { λ s. HaveCapacity (vec_len s.returned) s.bound (vec_capacity s.returned) × All IsFresh s.prepared.items };
}

impl MemPorts {
    /// Ports whose binds return these links in order. No call may have been made on the links yet. A bind fails if its number, counted from 0, is in
    /// `bind_fails`. Returns `NoMemory` if the capacity can't be reserved.
    pub fn new(alloc: Global, links: Vec<MemLink>, bind_fails: Vec<u64>) -> Result<Self, NoMemory>
        requires { All IsFresh links.items }
        ensures { IfOk result (λ ports. ports ≡ record {
          prepared = links.items;
          returned = [];
          failing = bind_fails.items;
          binds = 0;
          bound = 0;
          faults = 0;
        }) }
    {
        let returned = Vec::with_capacity(alloc, PORT_LIMIT).map_err(|_| NoMemory)?;
        Ok(MemPorts {
            alloc,
            prepared: links,
            returned,
            bind_fails,
            binds: 0,
            bound: 0,
            faults: 0,
        })
    }

    /// All ports that came back, in order.
    pub fn returned(&self) -> &[MemLink]
        ensures { result.now ≡ self.now.returned }
    {
        &self.returned
    }
}

// Removes the first link and returns it. If there is none, returns a link without prepared datagrams.
fn take_first(alloc: Global, prepared: &mut Vec<MemLink>) -> MemLink
    ensures link { result ≡ first_link prepared.old.items }
    ensures rest { prepared.new.items ≡ drop 1 prepared.old.items }
{
    if prepared.is_empty() {
        let none = Vec::new(alloc);
        MemLink::new(alloc, none, Vec::new(alloc), Vec::new(alloc))
    } else {
        prepared.remove(0)
    }
}

impl Ports for MemPorts {
    type Port = MemLink;

    ghost returned = { λ s. Some s.returned };

    ghost bound = { λ s. s.bound };

    ghost back_count = { λ s. length s.returned };

    ghost faults = { λ s. s.faults };

    /// Fails exactly when the call's number is in the list. Any other call returns the next prepared link. If none is left, it returns a link without
    /// prepared datagrams.
    fn bind(&mut self, _local: Address, _peer: Address) -> Result<MemLink, Failed>
        requires { self.old.bound < 64 }
        ensures bound { self.new.bound ≡ after_bind result self.old.bound }
        ensures back_count { length self.new.returned ≡ length self.old.returned }
        ensures returned { Some self.new.returned ≡ Some self.old.returned }
        ensures quiet { IfOk result (λ port. port.faults ≡ 0) }
        ensures silent { IfOk result (λ port. has_no_traffic_yet (Some port.traffic)) }
        ensures name { IfOk result (λ port. port.name ≡ self.old.bound) }
        ensures cause { HasCause self.old.faults self.new.faults result }

        ensures fails { IsErr result ↔ IsTrue (is_listed self.old.binds self.old.failing) }
        ensures failed { OnErr result (self.new ≡ failed_bind self.old) }
        ensures given { IfOk result (λ port. port ≡ next_link self.old.bound self.old.prepared) }
        ensures after { OnOk result (self.new ≡ bound_one self.old) }
    {
        let call = self.binds;
        self.binds = call.saturating_add(1);
        if self.bind_fails.contains(&call) {
            self.faults = self.faults.saturating_add(1);
            return Err(Failed);
        }
        let link = take_first(self.alloc, &mut self.prepared).named(self.bound);
        self.bound += 1;
        Ok(link)
    }

    /// Keeps the port. If the port has faults of its own, however many, counts one fault.
    fn back(&mut self, port: MemLink)
        requires { length self.old.returned < self.old.bound }
        ensures bound { self.new.bound ≡ self.old.bound }
        ensures back_count { length self.new.returned ≡ length self.old.returned + 1 }
        ensures returned { Some self.new.returned ≡ after_back port (Some self.old.returned) }
        ensures cause { CountsBack port.faults self.old.faults self.new.faults }

        ensures after { self.new ≡ came_back self.old port }
    {
        if port.faults() > 0 {
            self.faults = self.faults.saturating_add(1);
        }
        self.returned.push_reserved(port);
    }

    fn lemma_were_bound(&self)
        ensures { length self.now.returned ≤ self.now.bound }
    {
        let _ = &self.bound;
    }
}
