// The laws of the strict receiver: it has no complaint about forwarded packets, and what it means to have no complaint.

ghost use Rattle.forwarding_laws.specs.receiver.Accepted;
ghost use Rattle.forwarding_laws.specs.receiver.Laws;

// ---- forwarded packets are accepted

/// Suppose that each frame is sent whole to a subscriber of a layered track. Then a strict receiver has no complaint about the packets forwarded to this
/// subscriber. The same is true for every prefix of these packets. In every history of a layered track, both facts hold, and a strict receiver has no
/// complaint about the packets that the subscriber took. For histories, the law assumes that the format fulfils `IsFormat`, and that the sender keeps
/// frames whole (`KeepsWhole`).
pub fn strict_receiver_never_complains<Structure>()
    ensures prefix { Laws.NeverComplains Structure }
    ensures history { Laws.OutgoingNeverComplains Structure }
    ensures taken { Laws.TakenNeverComplains Structure }
{}

// ---- which packets are accepted, and the place of a complaint

/// Suppose that a strict receiver has no complaint about some packets. Then these packets have one SSRC and consecutive sequence numbers. They form
/// complete frames, one after another. The first packets of one more frame may follow. When a complete frame arrives, all frames to which it refers count
/// as received. A received frame stops counting when the next key frame arrives. It also stops counting when a frame arrives whose number isn't 1 to 32,767
/// above the previous frame's number, modulo 65,536. Conversely, a strict receiver has no complaint about packets for which all this is true. It always
/// complains about bytes that aren't an RTP packet.
pub fn accepted_packets_are_whole_frames<Structure>()
    ensures accepts { Accepted.NoComplaintAccepts Structure }
    ensures converse { Accepted.AcceptedIsNotComplainedOf Structure }
    ensures packets { Accepted.NoComplaintIsOfPackets Structure }
{}

/// A strict receiver without a complaint has accepted all packets and all complete frames in them. A strict receiver that complains about a packet has
/// accepted all packets before that packet, and all complete frames in those packets.
pub fn complaints_come_in_their_place<Structure>()
    ensures count { Accepted.CountsAreWhole Structure }
    ensures frames { Accepted.FramesAreCounted Structure }
    ensures place { Accepted.ComplaintsHaveTheirPlace Structure }
{}
