// The reasons why bytes can't be unwrapped.

use sfu_base::RtpFault;
use thiserror::Error;

/// The reason why some bytes aren't a retransmission packet (RFC 4588, section 4).
#[derive(Clone, Copy, Debug, PartialEq, Eq, Error)]
pub enum RtxFault {
    /// The bytes aren't an RTP packet.
    #[error("no RTP packet: {0}")]
    Unreadable(RtpFault),
    /// The payload is shorter than the two bytes of the original sequence number.
    #[error("the original sequence number isn't there")]
    Cut,
}
