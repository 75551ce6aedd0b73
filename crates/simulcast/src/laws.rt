// Theorems about the packets that a bundle forwards, and about the packets drawn from a bundle.
ghost use Rattle.simulcast.specs.Changes.{KeyStartsGoOut};
ghost use Rattle.simulcast.specs.Drawn.{DrawsAdd, DrawsStay};
ghost use Rattle.simulcast.specs.Kept.{CallsKeep};

/// A law about drawn packets. The drawn packets are the first outgoing packets of a bundle, one for each draw. A draw appends its packet to the drawn
/// packets. The drawn packets don't change when the bundle takes further packets from its legs.
pub fn what_was_drawn_stays()
    ensures adds { DrawsAdd }
    ensures stays { DrawsStay }
{}

/// A law about a change of leg. A key start is the first packet of a key frame. If the active leg's queue is empty, a key start of the chosen leg is
/// forwarded.
pub fn key_starts_go_out_once_the_active_leg_is_drained()
    ensures { KeyStartsGoOut }
{}

/// A law about all calls. After any sequence of calls by seat 0, all guarantees of a room hold for the room's history. A strict receiver accepts the
/// packets that a bundle sends.
pub fn every_call_keeps_what_is_promised()
    ensures { CallsKeep }
{}
