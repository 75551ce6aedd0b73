// Laws of the definitions in the contracts of `read`, `rewrite` and `restamp`.

ghost use Rattle.std.specs.Prelude.{◌≡◌, ◌<◌, ◌≤◌, ◌^◌, ℕ, Bool, List, None, length, slice_index};
ghost use Rattle.rtp_packet.specs.Faults.{first_fault};
ghost use Rattle.sfu_base.specs.Bytes.{AreBytes};
ghost use Rattle.rtp_packet.specs.Packet.{IsPacket, Packet, packet_of};
ghost use Rattle.rtp_packet.specs.Restamped.{at_timestamp, restamped};
ghost use Rattle.rtp_packet.specs.Rewritten.{readdressed, rewritten};

/// If there are at least 12 bytes and the first is 0x80, the bytes have no fault. 0x80 means version 2, no padding, no extension and no CSRC identifiers.
pub fn plain_packets_read()
    ensures { (bytes : List ℕ) → 12 ≤ length bytes → slice_index bytes 0 ≡ 128 → first_fault bytes ≡ None }
{}

/// Bytes without a fault are a packet, and `packet_of` returns that packet.
pub fn bytes_without_fault_are_a_packet()
    ensures { (bytes : List ℕ) → AreBytes bytes → first_fault bytes ≡ None → IsPacket bytes (packet_of bytes) }
{}

/// The bytes of a packet have no fault, and `packet_of` returns that packet for them.
pub fn a_packet_is_read()
    ensures no_fault { (bytes : List ℕ) (p : Packet) → IsPacket bytes p → first_fault bytes ≡ None }
    ensures fields { (bytes : List ℕ) (p : Packet) → IsPacket bytes p → packet_of bytes ≡ p }
{}

/// The same bytes can't be two different packets.
pub fn bytes_are_one_packet()
    ensures { (bytes : List ℕ) (p q : Packet) → IsPacket bytes p → IsPacket bytes q → p ≡ q }
{}

/// If there are at least 12 bytes, `rewritten` changes neither the length nor the first fault. Of the packet's fields, it changes only the sequence
/// number, the SSRC and the marker.
pub fn three_fields_are_rewritten()
    ensures len { (sequence ssrc : ℕ) (marker : Bool) (bytes : List ℕ) → 12 ≤ length bytes
        → length (rewritten sequence ssrc marker bytes) ≡ length bytes }
    ensures faults { (sequence ssrc : ℕ) (marker : Bool) (bytes : List ℕ) → 12 ≤ length bytes
        → first_fault (rewritten sequence ssrc marker bytes) ≡ first_fault bytes }
    ensures fields { (sequence ssrc : ℕ) (marker : Bool) (bytes : List ℕ) → 12 ≤ length bytes → sequence < 2 ^ 16 → ssrc < 2 ^ 32
        → packet_of (rewritten sequence ssrc marker bytes) ≡ readdressed sequence ssrc marker (packet_of bytes) }
{}

/// If there are at least 12 bytes, `restamped` changes neither the length nor the first fault. Of the packet's fields, it changes only the timestamp.
pub fn the_timestamp_is_rewritten()
    ensures len { (timestamp : ℕ) (bytes : List ℕ) → 12 ≤ length bytes → length (restamped timestamp bytes) ≡ length bytes }
    ensures faults { (timestamp : ℕ) (bytes : List ℕ) → 12 ≤ length bytes → first_fault (restamped timestamp bytes) ≡ first_fault bytes }
    ensures fields { (timestamp : ℕ) (bytes : List ℕ) → 12 ≤ length bytes → timestamp < 2 ^ 32
        → packet_of (restamped timestamp bytes) ≡ at_timestamp timestamp (packet_of bytes) }
{}
