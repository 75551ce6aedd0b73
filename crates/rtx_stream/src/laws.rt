// Laws of the definitions in the contracts of `wrap` and `unwrap`.

ghost use Rattle.std.specs.Prelude.{◌≡◌, false, List, None, ℕ};
ghost use Rattle.rtp_packet.specs.Fields.{is_padded};
ghost use Rattle.rtx_stream.specs.Bare.{IsBare};
ghost use Rattle.rtx_stream.specs.Faults.{unwrap_fault};
ghost use Rattle.rtx_stream.specs.Retransmission.{IsOriginal, IsRetransmission};
ghost use Rattle.rtx_stream.specs.declared.retransmission.Rtx.{Rtx};

/// A packet has at most one retransmission packet with a given sequence number in a given stream.
pub fn a_packet_has_one_retransmission()
    ensures { (packet bytes others : List ℕ) (seq : ℕ) (rtx : Rtx) → IsRetransmission packet seq rtx bytes
        → IsRetransmission packet seq rtx others → bytes ≡ others }
{
    rtp_packet::a_packet_is_read();
}

/// If the padding of a packet is removed, there is at most one result. If the packet's padding bit is 0, the result is the packet itself.
pub fn a_packet_without_padding_is_bare()
    ensures one { (packet bare other : List ℕ) → IsBare packet bare → IsBare packet other → bare ≡ other }
    ensures same { (packet bare : List ℕ) → is_padded packet ≡ false → IsBare packet bare → bare ≡ packet }
{
    rtp_packet::a_packet_is_read();
}

/// A retransmission packet has at most one original packet with a given SSRC and payload type.
pub fn a_retransmission_has_one_original()
    ensures { (bytes original other : List ℕ) (ssrc payload_type : ℕ) → IsOriginal bytes ssrc payload_type original
        → IsOriginal bytes ssrc payload_type other → original ≡ other }
{
    rtp_packet::a_packet_is_read();
}

/// `unwrap` finds no fault in a retransmission packet.
pub fn each_retransmission_unwraps()
    ensures { (packet bytes : List ℕ) (seq : ℕ) (rtx : Rtx) → IsRetransmission packet seq rtx bytes → unwrap_fault bytes ≡ None }
{
    rtp_packet::a_packet_is_read();
}
