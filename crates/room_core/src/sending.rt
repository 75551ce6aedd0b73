// Queues the packets of a frame for a subscriber.
ghost use Rattle.std.specs.Prelude.{◌≡◌, ◌≤◌, ◌+◌, ◌<◌, ◌&&◌, ◌||◌, [], ◌∷◌, None, length, map};
ghost use Rattle.std.specs.Option.{option_copied};
ghost use Rattle.rtp_packet.specs.Faults.{first_fault};
ghost use Rattle.rtp_packet.specs.Fields.{marker_of};
ghost use Rattle.packet_format.specs.Packets.{packet_of};
ghost use Rattle.packet_format.specs.Remasked.{remasked_packet};
ghost use Rattle.room_core.specs.Follows.{PushesBehind, PushesFrame, pushed_all, remasked_by, carries_mask_by};
ghost use Rattle.frame_cache.specs.Sharing.{IsShared, MayShare, CarriesMask};
ghost use Rattle.room_core.specs.FrameCache.{IsOfFrame, CachesFirst};

use dd_structure::Structure;
use frame_cache::FrameCache;
use out_ring::OutRing;
use packet_format::carries_mask;
use track_core::Track;

/// Returns whether the first packet of the track's last frame carries a template dependency structure or an active decode targets bitmask.
pub fn first_carries_mask(track: &Track) -> bool
    ensures { result ≡ carries_mask_by track.now.layers track.now.packets }
{
    let Some(id) = track.id() else {
        return false;
    };
    if track.count() == 0 {
        return false;
    }
    carries_mask(track.packet(0), id)
}

/// Queues the packets of the track's last frame, beginning with the packet at index `from`. The frame has `count` packets. `is_top` is true if the frame
/// is the last one of its temporal unit for the subscriber's decode target. The frame's last packet is then queued with its marker set.
#[inline(always)]
pub fn push_from(
    ring: &mut OutRing,
    cache: &mut FrameCache,
    track: &Track,
    from: u16,
    count: u16,
    is_top: bool,
)
    requires count { count ≡ length track.now.packets }
    requires start { from ≤ length track.now.packets }
    requires capacity { length ring.old.queued + length track.now.packets ≤ 512 + from }
    requires of_frame { IsOfFrame track.now.layers track.now.packets cache.old }
    ensures pushed { PushesBehind from ring.old ring.new track.now.packets is_top }
    ensures of_frame { IsOfFrame track.now.layers track.now.packets cache.new }
    ensures mask { cache.new.mask ≡ cache.old.mask }
    ensures grown { length cache.old.shared.items ≤ length cache.new.shared.items }
{
    for place in from..count {
        let packet = track.packet(place);
        let marker = sent_marker(packet, is_top, place + 1 == count);
        cache.queue(ring, place, packet, marker);
    }
}

/// Queues all packets of the track's last frame. The first packet is queued with the active decode targets bitmask `mask`, or unchanged if it can't be
/// rewritten. `cache` stores the resulting first packet for the next subscriber that gets the frame.
#[inline(never)]
pub fn push_remasked(
    ring: &mut OutRing,
    cache: &mut FrameCache,
    track: &Track,
    mask: u32,
    is_top: bool,
)
    requires capacity { length ring.old.queued + length track.now.packets ≤ 512 }
    requires of_frame { IsOfFrame track.now.layers track.now.packets cache.old }
    ensures pushed { PushesFrame ring.old ring.new (remasked_by track.now.layers mask (map packet_of track.now.packets)) is_top }
    ensures of_frame { IsOfFrame track.now.layers track.now.packets cache.new }
    ensures grown { length cache.old.shared.items ≤ length cache.new.shared.items }
{
    let count = track.count();
    if count == 0 {
        return;
    }
    let packet = track.packet(0);
    let marker = sent_marker(packet, is_top, count == 1);
    push_first(ring, cache, track, packet, marker, mask);
    push_from(ring, cache, track, 1, count, is_top);
}

// Queues this packet, which is the first packet of the track's frame, with this mask.
fn push_first(
    ring: &mut OutRing,
    cache: &mut FrameCache,
    track: &Track,
    packet: &[u8],
    marker: bool,
    mask: u32,
)
    requires capacity { length ring.old.queued < 512 }
    requires reads { first_fault packet.now ≡ None }
    requires fits { length packet.now ≤ 1500 }
    requires cached { CachesFirst track.now.layers (packet.now ∷ []) cache.old }
    requires same { IsShared 0 packet.now cache.old.shared.items }
    ensures pushed { ring.new ≡ pushed_all (remasked_by track.now.layers mask (record (packet_of packet.now) { marker = marker } ∷ [])) ring.old }
    ensures cached { CachesFirst track.now.layers (packet.now ∷ []) cache.new }
    ensures shared { MayShare 0 packet.now cache.old.shared.items cache.new.shared.items }
{
    match track.id() {
        Some(id) => {
            // The frame's other packets can be shared only if the first packet is shared.
            cache.share(0, packet);
            push_masked_packet(ring, cache, packet, marker, id, track.force(), mask);
        }
        None => cache.queue(ring, 0, packet, marker),
    }
}

// Queues a packet with this mask. If the packet can't be rewritten with the mask, queues it unchanged.
fn push_masked_packet(
    ring: &mut OutRing,
    cache: &mut FrameCache,
    packet: &[u8],
    marker: bool,
    id: u8,
    force: Option<&Structure>,
    mask: u32,
)
    requires capacity { length ring.old.queued < 512 }
    requires reads { first_fault packet.now ≡ None }
    requires fits { length packet.now ≤ 1500 }
    requires cached { CarriesMask id (option_copied force) packet.now cache.old.mask cache.old.packet }
    ensures pushed { ring.new ≡ pushed_all (remasked_packet id (option_copied force.entry) mask (record (packet_of packet.now) { marker = marker })
        ∷ []) ring.old }
    ensures cached { CarriesMask id (option_copied force.entry) packet.now cache.new.mask cache.new.packet }
    ensures shared { cache.new.shared ≡ cache.old.shared }
{
    cache.remask(packet, id, force, mask);
    cache.queue_remasked(ring, marker);
}

// Returns the marker with which a packet of a frame is sent. The marker is set on the last packet of a frame for which `is_top` is true. All other
// packets are sent with their own markers.
fn sent_marker(packet: &[u8], is_top: bool, is_last: bool) -> bool
    requires { first_fault packet.now ≡ None }
    ensures { result ≡ (is_top && is_last || marker_of packet.now) }
{
    (is_top && is_last) || own_marker(packet)
}

/// Returns the marker bit of an RTP packet: the highest bit of the packet's second byte (RFC 3550, section 5.1).
pub fn own_marker(packet: &[u8]) -> bool
    requires { first_fault packet.now ≡ None }
    ensures { result ≡ marker_of packet.now }
{
    packet[1] >= 0x80
}
