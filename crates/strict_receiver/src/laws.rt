// Laws about a receiver's complaint.

ghost use Rattle.strict_receiver.specs.Laws.{ComplaintStays, FirstPartsAreAccepted, JudgesSentPackets, ReadBytesAreSent, ReturnsItsComplaint};

/// A law: a receiver's complaint is the definition's complaint about the packets that were fed to the receiver. A complaint stays, whatever
/// packets follow. If there is no complaint about a list of packets, there is none about any prefix of the list.
pub fn receivers_return_their_complaint()
    ensures reported { ReturnsItsComplaint }
    ensures stays { ComplaintStays }
    ensures parts { FirstPartsAreAccepted }
{}

/// A law about packets whose bytes are read as the same packets. The complaint about their bytes is the definition's complaint about the packets.
/// Take a packet that was read from bytes, and give it any sequence number, SSRC and marker (RFC 3550, section 5.1). Its bytes are then read as the
/// changed packet.
pub fn bytes_are_judged_as_their_packets()
    ensures sent { ReadBytesAreSent }
    ensures judged { JudgesSentPackets }
{}
