// A room with bundles.
ghost use Rattle.std.specs.Prelude.{◌≡◌, ◌==◌, None, count_by, nat_le};
ghost use Rattle.std.specs.Result.{result_ok};
ghost use Rattle.simulcast.specs.Bundles.{bound_or, is_layered};

use crate::bundle::Bundle;
use crate::draining::pump;
use crate::fault::BundleFault;
use crate::pumped::Pumped;
use crate::taken::is_starved;
use dd_descriptor::NewestDescriptor;
use room_core::{Recorder, Room};
use sfu_base::{Call, Kind, PacketBuf, Refusal, Reply, Scratch};
use std::alloc::Global;

/// The maximum number of bundles in a room (own rule).
const MOST_BUNDLES: usize = 64;

/// A room with bundles. The legs of a bundle are two or three subscribers of the room. The bundle merges the packets of its legs into one outgoing stream.
/// `choose` selects the leg whose packets are to be forwarded. `pump` takes the packets that are queued for the legs. `draw` returns the next packet of the
/// outgoing stream. `redraw` returns an already drawn packet again. Bundles and legs are never removed.
#[derive(Drop)]
pub struct Bundles<R: Recorder> {
    alloc: Global,
    room: Room<R>,
    newest: NewestDescriptor,
    bundles: Vec<Bundle>,
}

// Returns whether `leg` occurs more than once in `legs`.
fn stands_twice(legs: &[u32], leg: u32) -> bool
    ensures { result ≡ nat_le 2 (count_by (λ l. l == leg) legs.now) }
{
    legs.iter().filter(|l| **l == leg).count() >= 2
}

// Returns `owner`, the bundle to which a leg already belongs, if there is one. Otherwise returns `number` if the leg is listed twice, and `None` if not.
fn bound_or(owner: Option<u32>, twice: bool, number: u32) -> Option<u32>
    ensures { result ≡ bound_or owner twice number None }
{
    match owner {
        Some(bundle) => Some(bundle),
        None => { if twice { Some(number) } else { None } }
    }
}

// Returns whether a track's kind is layered with this header extension id. Returns false if `kind` is a refusal.
fn is_layered(kind: Result<Kind, Refusal>, id: u8) -> bool
    ensures { result ≡ is_layered id (result_ok kind) }
{
    match kind {
        Ok(Kind::Layered { id: other }) => other == id,
        Ok(Kind::Plain) => false,
        Err(_) => false,
    }
}

impl<R: Recorder> Bundles<R> {
    ghost use Rattle.std.specs.Prelude.{◌≡◌, ◌≤◌, ◌==◌, ℕ, [], List, IfErr, IfSome, Ok, OnErr, fold, length, max, position};
    ghost use Rattle.std.specs.List.{find, list_all};
    ghost use Rattle.std.specs.Option.{option_map};
    ghost use Rattle.sfu_base.specs.declared.call.Call.TheVariants as call;
    ghost use Rattle.sfu_base.specs.declared.call.Refusal.TheVariants.{Empty};
    ghost use Rattle.sfu_base.specs.declared.call.Reply.TheVariants as reply;
    ghost use Rattle.simulcast.specs.Made.{has_leg, just_made, just_renumbered, made_with};
    ghost use Rattle.room_core.specs.History.{Entry, accepted};
    ghost use Rattle.room_core.specs.Serves.{DoesAsServe, Stands, recorder_may_refuse};
    ghost use Rattle.simulcast.specs.Bundles.{Bundled, BundlesHeadline, Calls, CallsWhole, CallStarvesBy, Chooses, Draws, IsBound, PleasesReceivers, PumpsOne, Redraws, Simulcast, StandsFor, StarvesBy};
    ghost use Rattle.simulcast.specs.Bundles.{bound_leg, bundle_refusal, forbids_by, has_kind, is_live, may_starve, nothing_made, unless_bound};

    /// Returns a value with this room and no bundles. Allocates no memory.
    pub fn new(alloc: Global, room: Room<R>) -> Bundles<R>
        ensures stands { (history : List Entry) → Stands R.noted room history → StandsFor R.noted result (nothing_made history) }
        ensures recorder { may_starve R.may_refuse result ≡ recorder_may_refuse R.may_refuse room }
    {
        Bundles {
            alloc,
            room,
            newest: NewestDescriptor::new(),
            bundles: Vec::new(alloc),
        }
    }

    /// Returns the room, for reading only. To call the room, use `call`, `take`, `packet` or `tick`.
    pub fn room(&self) -> &Room<R>
        ensures { result.now ≡ self.now.room }
    {
        &self.room
    }

    // Returns the index of the bundle with this number, or `None` if no bundle has the number.
    fn place(&self, number: u32) -> Option<usize>
        ensures { result ≡ position (λ b. b.number == number) self.now.bundles.items }
    {
        self.bundles
            .iter()
            .position(|bundle| bundle.number == number)
    }

    // Returns the highest bundle number, or 0 if there is no bundle.
    fn highest(&self) -> u32
        ensures { result ≡ fold (λ h b. max h b.number) 0 self.now.bundles.items }
    {
        self.bundles
            .iter()
            .fold(0, |highest: u32, bundle| highest.max(bundle.number))
    }

    // Returns whether all these legs are live subscribers.
    fn are_live(&self, legs: &[u32]) -> bool
        ensures { (history : List Entry) → Stands R.noted self.now.room history → result ≡ list_all (is_live (accepted history)) legs.now }
    {
        for leg in legs {
            if self.room.kind_of(*leg).is_err() {
                return false;
            }
        }
        true
    }

    // Returns whether the tracks of all these legs are layered with this header extension id.
    fn are_layered(&self, legs: &[u32], id: u8) -> bool
        ensures { (history : List Entry) → Stands R.noted self.now.room history → result ≡ list_all (has_kind id (accepted history)) legs.now }
    {
        for leg in legs {
            if !is_layered(self.room.kind_of(*leg), id) {
                return false;
            }
        }
        true
    }

    // Looks for the first leg that already belongs to a bundle or is listed twice. If the leg belongs to a bundle, returns the number of this bundle. If the
    // leg is only listed twice, returns `number`. Returns `None` if there is no such leg.
    fn bound(&self, number: u32, legs: &[u32]) -> Option<u32>
        ensures { result ≡ bound_leg (λ n. option_map (λ b. b.number) (find (λ b. has_leg n b.legs.items) self.now.bundles.items)) number legs.now legs.now }
    {
        for leg in legs {
            if let Some(bundle) = bound_or(self.owner(*leg), stands_twice(legs, *leg), number) {
                return Some(bundle);
            }
        }
        None
    }

    // Returns the first refusal that applies to a new bundle with this number, header extension id and legs, or `None` if none applies.
    fn refusal(&self, number: u32, id: u8, legs: &[u32]) -> Option<BundleFault>
        ensures { (h : Simulcast) → StandsFor R.noted self.now h → result ≡ bundle_refusal h number id legs.now }
    {
        let highest = self.highest();
        if number <= highest {
            return Some(BundleFault::NumberUsed { highest });
        }
        if self.bundles.len() >= MOST_BUNDLES {
            return Some(BundleFault::TooMany { live: 64 });
        }
        if !self.are_live(legs) {
            return Some(BundleFault::Room(Refusal::NoSubscriber));
        }
        match self.bound(number, legs) {
            Some(bundle) => Some(BundleFault::Bound { bundle }),
            None => {
                if self.are_layered(legs, id) {
                    None
                } else {
                    Some(BundleFault::WrongKind)
                }
            }
        }
    }

    /// Creates a bundle of two or three legs. The legs must be subscribers of layered tracks with the header extension id `id`. The outgoing packets of the
    /// bundle have this SSRC, and sequence numbers from `first` on. Leg 1 is chosen. Returns `NumberUsed` if `number` is 0 or isn't above the highest
    /// bundle number. Returns `TooMany` if there are already 64 bundles. Returns `Room(NoSubscriber)` if a leg isn't a live subscriber. Returns `Bound` if
    /// a leg already belongs to a bundle, or is listed twice. `Bound` has the number of the leg's bundle or, if the leg belongs to none, `number`. Returns
    /// `WrongKind` if a leg's track isn't layered, or has another header extension id. Returns `NoMemory` if memory runs out. `NoMemory` is checked last.
    pub fn bundle(
        &mut self,
        number: u32,
        id: u8,
        ssrc: u32,
        first: u16,
        legs: &[u32],
    ) -> Result<(), BundleFault>
        requires two { 2 ≤ length legs.now }
        requires three { length legs.now ≤ 3 }
        ensures bundled { Bundled R.noted self.old self.new (just_made number id ssrc first legs.now) result }
        ensures recorder { may_starve R.may_refuse self.new ≡ may_starve R.may_refuse self.old }
    {
        self.add(number, id, ssrc, first, legs, false)
    }

    /// Creates a bundle as `bundle` does, with the same errors. The frame numbers of the outgoing packets continue over a change of leg. After a change of
    /// leg, the new leg's first forwarded frame is a key frame. Its new frame number is that of the last forwarded frame plus 1, modulo 65,536. The frame
    /// numbers of the leg's later frames keep their distance to that of this key frame. Renumbering a packet changes only the two bytes of frame_number in
    /// the packet's dependency descriptor (AV1 RTP payload format, Appendix A).
    pub fn bundle_renumbered(
        &mut self,
        number: u32,
        id: u8,
        ssrc: u32,
        first: u16,
        legs: &[u32],
    ) -> Result<(), BundleFault>
        requires two { 2 ≤ length legs.now }
        requires three { length legs.now ≤ 3 }
        ensures bundled { Bundled R.noted self.old self.new (just_renumbered number id ssrc first legs.now) result }
        ensures recorder { may_starve R.may_refuse self.new ≡ may_starve R.may_refuse self.old }
    {
        self.add(number, id, ssrc, first, legs, true)
    }

    // Creates a bundle of at most three legs. If `renumbers` is true, the bundle's frame numbers continue over a change of leg.
    fn add(
        &mut self,
        number: u32,
        id: u8,
        ssrc: u32,
        first: u16,
        legs: &[u32],
        renumbers: bool,
    ) -> Result<(), BundleFault>
        requires { length legs.now ≤ 3 }
        ensures bundled { Bundled R.noted self.old self.new (made_with renumbers number id ssrc first legs.now) result }
        ensures recorder { may_starve R.may_refuse self.new ≡ may_starve R.may_refuse self.old }
    {
        if let Some(fault) = self.refusal(number, id, legs) {
            return Err(fault);
        }
        let Ok(bundle) = Bundle::new(self.alloc, number, id, ssrc, first, legs, renumbers) else {
            return Err(BundleFault::NoMemory);
        };
        match self.bundles.push(bundle) {
            Ok(()) => Ok(()),
            Err(_) => Err(BundleFault::NoMemory),
        }
    }

    // Returns the number of the bundle that forbids this call, or `None` if no bundle forbids it.
    fn forbids(&self, call: &Call) -> Option<u32>
        ensures { result ≡ forbids_by (λ n. option_map (λ b. b.number) (find (λ b. has_leg n b.legs.items) self.now.bundles.items)) call.now }
    {
        match call {
            Call::Take { subscriber } => self.owner(*subscriber),
            Call::Leave { subscriber } => self.owner(*subscriber),
            _ => None,
        }
    }

    /// Serves a room call from this seat, as `Room::serve` does. For a `Take` or a `Leave` of a subscriber that is a leg, returns `Bound` with the number
    /// of the leg's bundle. In that case nothing changes, not even the scratch.
    pub fn call(
        &mut self,
        seat: u32,
        call: &Call,
        scratch: &mut Scratch,
    ) -> Result<Reply, BundleFault>
        ensures calls { Calls R.noted self.old self.new seat call.now scratch.new.packet scratch.new.names result }
        ensures whole { CallsWhole R.noted R.may_refuse self.old self.new seat call.now scratch.old scratch.new result }
        ensures memory { CallStarvesBy R.may_refuse self.old call.now result }
        ensures only { IfErr result IsBound }
        ensures recorder { may_starve R.may_refuse self.new ≡ may_starve R.may_refuse self.old }
    {
        match self.forbids(call) {
            Some(bundle) => Err(BundleFault::Bound { bundle }),
            None => Ok(self.room.serve(seat, call, scratch)),
        }
    }

    /// Returns the number of the bundle that has this subscriber as a leg, or `None` if the subscriber isn't a leg. If it is a leg, `call` returns `Bound`
    /// for `Take` and `Leave`, and for no other call.
    #[inline(always)]
    pub fn owner(&self, subscriber: u32) -> Option<u32>
        ensures { result ≡ option_map (λ b. b.number) (find (λ b. has_leg subscriber b.legs.items) self.now.bundles.items) }
    {
        match self.bundles.iter().find(|bundle| bundle.has(subscriber)) {
            Some(bundle) => Some(bundle.number),
            None => None,
        }
    }

    /// Takes the oldest packet that is queued for a subscriber, as `Room::take` does, and sets `bound` to `None`. If the subscriber is a leg, sets `bound`
    /// to the bundle's number, and returns `Refused(Empty)`. In that case nothing else changes, not even the scratch. `call` with `Call::Take` does the
    /// same, except that it returns `Bound` for a leg.
    pub fn take(
        &mut self,
        seat: u32,
        subscriber: u32,
        scratch: &mut Scratch,
        bound: &mut Option<u32>,
    ) -> Reply
        ensures bound { bound.new ≡ option_map (λ b. b.number) (find (λ b. has_leg subscriber b.legs.items) self.old.bundles.items) }
        ensures refused { IfSome bound.new (λ bundle. (self.new ≡ self.old) × (scratch.new ≡ scratch.old) × (result ≡ reply.Refused Empty)) }
        ensures calls { Calls R.noted self.old self.new seat (call.Take subscriber) scratch.new.packet scratch.new.names (unless_bound bound.new result) }
        ensures whole { CallsWhole R.noted R.may_refuse self.old self.new seat (call.Take subscriber) scratch.old scratch.new (unless_bound bound.new result) }
        ensures memory { CallStarvesBy R.may_refuse self.old (call.Take subscriber) (unless_bound bound.new result) }
        ensures recorder { may_starve R.may_refuse self.new ≡ may_starve R.may_refuse self.old }
    {
        if let Some(bundle) = self.owner(subscriber) {
            *bound = Some(bundle);
            return Reply::Refused(Refusal::Empty);
        }
        *bound = None;
        self.room.take(seat, subscriber, scratch)
    }

    /// Passes a packet to a track, as `Room::packet` does. The packet arrives at `moment`. `call` with `Call::Packet` does the same, and never returns
    /// `Bound`.
    pub fn packet(&mut self, seat: u32, track: u32, moment: u64, packet: &PacketBuf) -> Reply
        ensures calls { (bytes numbers : List ℕ)
            → Calls R.noted self.old self.new seat (call.Packet track moment packet.now) bytes numbers (Ok result) }
        ensures does { DoesAsServe R.noted R.may_refuse self.old.room self.new.room seat (call.Packet track moment packet.now) result }
        ensures recorder { may_starve R.may_refuse self.new ≡ may_starve R.may_refuse self.old }
    {
        self.room.packet(seat, track, moment, packet)
    }

    /// Advances a track's time to `moment`, as `Room::tick` does. `call` with `Call::Tick` does the same, and never returns `Bound`.
    pub fn tick(&mut self, seat: u32, track: u32, moment: u64) -> Reply
        ensures calls { (bytes numbers : List ℕ) → Calls R.noted self.old self.new seat (call.Tick track moment) bytes numbers (Ok result) }
        ensures does { DoesAsServe R.noted R.may_refuse self.old.room self.new.room seat (call.Tick track moment) result }
        ensures recorder { may_starve R.may_refuse self.new ≡ may_starve R.may_refuse self.old }
    {
        self.room.tick(seat, track, moment)
    }

    /// Takes the packets that are queued for the bundle's legs. The active leg comes first. If another leg is chosen, the chosen leg comes next. The other
    /// legs follow in the order of their numbers. The pump takes packets from a leg until the leg's queue is empty, or until the bundle's own queue has 512
    /// packets. `NoBundle`: no bundle has this number. `NoMemory`: a take ran out of memory, but earlier takes aren't undone.
    pub fn pump(&mut self, number: u32, scratch: &mut Scratch) -> Result<Pumped, BundleFault>
        ensures pumps { PumpsOne R.noted self.old self.new number result }
        ensures unchanged { result ≡ Err BundleFault.NoBundle → scratch.new ≡ scratch.old }
        ensures pleases { PleasesReceivers R.noted self.new }
        ensures headline { BundlesHeadline R.noted self.new }
        ensures memory { StarvesBy R.may_refuse self.old result }
        ensures recorder { may_starve R.may_refuse self.new ≡ may_starve R.may_refuse self.old }
    {
        let Some(place) = self.place(number) else {
            return Err(BundleFault::NoBundle);
        };
        match pump(
            &mut self.room,
            &mut self.bundles[place],
            &mut self.newest,
            scratch,
        ) {
            Ok(pumped) => Ok(pumped),
            Err(_) => Err(BundleFault::NoMemory),
        }
    }

    /// Dequeues the bundle's oldest packet, writes the packet to `out`, and returns the packet's sequence number. `NoBundle`: no bundle has this number.
    /// `Room(Empty)`: no packet is queued. After an error, `out` is unchanged.
    pub fn draw(&mut self, number: u32, out: &mut PacketBuf) -> Result<u16, BundleFault>
        ensures draws { Draws R.noted self.old self.new number out.new result }
        ensures unchanged { OnErr result (out.new ≡ out.old) }
        ensures recorder { may_starve R.may_refuse self.new ≡ may_starve R.may_refuse self.old }
    {
        let Some(place) = self.place(number) else {
            return Err(BundleFault::NoBundle);
        };
        match self.bundles[place].draw(out) {
            Ok(seq) => Ok(seq),
            Err(why) => Err(BundleFault::Room(why)),
        }
    }

    /// Writes an already drawn packet of the bundle to `out` again. `seq` is the packet's sequence number. `NoBundle`: no bundle has this number.
    /// `Room(NotKept)`: none of the bundle's last 1,024 drawn packets has this sequence number. After an error, `out` is unchanged.
    pub fn redraw(&self, number: u32, seq: u16, out: &mut PacketBuf) -> Result<(), BundleFault>
        ensures redraws { Redraws R.noted self.now number seq out.new result }
        ensures unchanged { OnErr result (out.new ≡ out.old) }
    {
        let Some(place) = self.place(number) else {
            return Err(BundleFault::NoBundle);
        };
        match self.bundles[place].redraw(seq, out) {
            Ok(()) => Ok(()),
            Err(why) => Err(BundleFault::Room(why)),
        }
    }

    /// Chooses the leg with this number, counted from 1. If the leg isn't active, this call also requests a key frame from the leg's track, as a `plead` by
    /// seat 0 does. `NoBundle`: no bundle has this number. `NoLeg`: the bundle has no such leg. `NoMemory`: the key frame request ran out of memory, but
    /// the leg is chosen.
    pub fn choose(&mut self, number: u32, leg: u8, scratch: &mut Scratch) -> Result<(), BundleFault>
        ensures chooses { Chooses R.noted self.old self.new number leg result }
        ensures memory { StarvesBy R.may_refuse self.old result }
        ensures recorder { may_starve R.may_refuse self.new ≡ may_starve R.may_refuse self.old }
        ensures unchanged { scratch.new ≡ scratch.old }
    {
        let Some(place) = self.place(number) else {
            return Err(BundleFault::NoBundle);
        };
        match self.bundles[place].choose(leg) {
            Ok(None) => Ok(()),
            Ok(Some(subscriber)) => {
                let reply = self.room.plead(0, subscriber);
                if is_starved(&reply) {
                    Err(BundleFault::NoMemory)
                } else {
                    Ok(())
                }
            }
            Err(fault) => Err(fault),
        }
    }
}
