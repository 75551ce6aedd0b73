// A link in memory, with lists of the calls that are to fail.
ghost use Rattle.std.specs.Prelude.{◌≡◌, ◌≤◌, ◌<◌, ◌↔◌, Some, IsErr, IsTrue, IfOk, OnOk, OnErr, drop, false, length};
ghost use Rattle.sfu_base.specs.Faults.{HasCause};
ghost use Rattle.sfu_base.specs.Links.{FillsOnlyWhere, after_receive, after_send, datagram, failed_receive, failed_send, fresh, is_listed, next_of, received, sent};

use crate::trace::Trace;
use crate::{Failed, Link, PacketBuf};
use std::alloc::Global;
use std::marker::Model;

/// A link in memory that receives its prepared datagrams in order and keeps the datagrams that are sent. One list has the numbers of the receives
/// that fail, another the numbers of the sends that fail, each counted from 0. A send that runs out of memory fails too. Contracts see the remaining
/// prepared datagrams, the traffic, the name, and the count of faults. Contracts also see both lists, and how many receives and how many sends were
/// made.
#[derive(Drop)]
pub struct MemLink {
    prepared: Vec<PacketBuf>,
    place: usize,
    past: Trace<PacketBuf, bool>,
    sent: Vec<PacketBuf>,
    receive_fails: Vec<u64>,
    send_fails: Vec<u64>,
    receives: u64,
    sends: u64,
    name: u64,
    faults: u64,
}

impl Model for MemLink {
    ghost use Rattle.std.specs.Prelude.{◌≤◌, drop, map, vec_len};
    ghost use Rattle.sfu_base.specs.Links.{LinkInMemory, datagram};

    ghost Value = { LinkInMemory };

    ghost view = { λ s. record {
      prepared = drop s.place s.prepared.items;
      traffic = record { received = map (λ p. datagram p.1 p.0) s.past.items; sent = s.sent.items };
      failing_receives = s.receive_fails.items;
      failing_sends = s.send_fails.items;
      receives = s.receives;
      sends = s.sends;
      name = s.name;
      faults = s.faults;
    } };

    ghost invariant = { λ s. s.place ≤ vec_len s.prepared };
}

impl MemLink {
    /// A link that receives these datagrams. `receive_fails` has the numbers of the receives that fail, and `send_fails` those of the sends that
    /// fail, each counted from 0.
    pub fn new(
        alloc: Global,
        prepared: Vec<PacketBuf>,
        receive_fails: Vec<u64>,
        send_fails: Vec<u64>,
    ) -> Self
        ensures { result ≡ fresh prepared.items receive_fails.items send_fails.items }
    {
        MemLink {
            prepared,
            place: 0,
            past: Trace::new(),
            sent: Vec::new(alloc),
            receive_fails,
            send_fails,
            receives: 0,
            sends: 0,
            name: 0,
            faults: 0,
        }
    }

    /// The same link with this name. The name is the number of links that the same [`Ports`](crate::Ports) bound before this link.
    pub fn named(self, name: u64) -> Self
        ensures { result ≡ record self { name = name } }
    {
        MemLink { name, ..self }
    }

    /// All datagrams that were sent, in order.
    pub fn sent(&self) -> &[PacketBuf]
        ensures { result.now ≡ self.now.traffic.sent }
    {
        &self.sent
    }

    /// How many calls have failed. The count stops at 2^64 - 1.
    pub fn faults(&self) -> u64
        ensures { result ≡ self.now.faults }
    {
        self.faults
    }
}

// Fills the buffer with the datagram at `place`, moves `place` to the next one and returns true. Returns false if none is left.
fn give_next(prepared: &[PacketBuf], place: &mut usize, buf: &mut PacketBuf) -> bool
    requires { place.old ≤ length prepared.now }
    ensures within { place.new ≤ length prepared.now }
    ensures given { next_of (drop place.old prepared.now) ≡ datagram result buf.new }
    ensures rest { drop place.new prepared.now ≡ drop 1 (drop place.old prepared.now) }
    ensures buffer { result ≡ false → buf.new ≡ buf.old }
{
    match prepared.get(*place) {
        Some(datagram) => {
            buf.fill(datagram.bytes());
            *place += 1;
            true
        }
        None => false,
    }
}

impl Link for MemLink {
    ghost traffic = { λ s. Some s.traffic };

    ghost name = { λ s. s.name };

    ghost faults = { λ s. s.faults };

    /// Fails exactly when the call's number is in the list for receives. Any other call receives the next prepared datagram. If none is left, and
    /// only then, the call returns `Ok(false)`.
    fn receive(&mut self, buf: &mut PacketBuf) -> Result<bool, Failed>
        ensures buffer { FillsOnlyWhere result buf.old buf.new }
        ensures traffic { Some self.new.traffic ≡ after_receive result buf.new (Some self.old.traffic) }
        ensures name { self.new.name ≡ self.old.name }
        ensures cause { HasCause self.old.faults self.new.faults result }

        ensures fails { IsErr result ↔ IsTrue (is_listed self.old.receives self.old.failing_receives) }
        ensures failed { OnErr result (self.new ≡ failed_receive self.old) }
        ensures next { IfOk result (λ came. next_of self.old.prepared ≡ datagram came buf.new) }
        ensures given { IfOk result (λ came. self.new ≡ received self.old (datagram came buf.new)) }
    {
        let call = self.receives;
        self.receives = call.saturating_add(1);
        if self.receive_fails.contains(&call) {
            self.faults = self.faults.saturating_add(1);
            return Err(Failed);
        }
        let came = give_next(self.prepared.as_slice(), &mut self.place, buf);
        self.past = self.past.and(buf, &came);
        Ok(came)
    }

    /// A call whose number is in the list for sends fails. Any other call may fail too, for example when memory runs out. A call that doesn't fail
    /// keeps the datagram.
    fn send(&mut self, packet: &PacketBuf) -> Result<(), Failed>
        ensures traffic { Some self.new.traffic ≡ after_send result packet.now (Some self.old.traffic) }
        ensures name { self.new.name ≡ self.old.name }
        ensures cause { HasCause self.old.faults self.new.faults result }

        ensures fails { IsTrue (is_listed self.old.sends self.old.failing_sends) → IsErr result }
        ensures failed { OnErr result (self.new ≡ failed_send self.old) }
        ensures kept { OnOk result (self.new ≡ sent self.old packet.now) }
    {
        let call = self.sends;
        self.sends = call.saturating_add(1);
        let mut kept = PacketBuf::new();
        kept.fill(packet.bytes());
        if self.send_fails.contains(&call) || self.sent.push(kept).is_err() {
            self.faults = self.faults.saturating_add(1);
            return Err(Failed);
        }
        Ok(())
    }
}
