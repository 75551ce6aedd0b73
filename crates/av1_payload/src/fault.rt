// The reasons why bytes aren't an AV1 payload.

use thiserror::Error;

/// The reason why some bytes aren't an AV1 payload (RTP Payload Format For AV1, section 4.4). The bytes are read from left to right, and the first fault is
/// reported.
#[derive(Clone, Copy, Debug, PartialEq, Eq, Error)]
pub enum PayloadFault {
    /// There are no bytes.
    #[error("there is no byte")]
    Empty,
    /// An element needs a length, but the length can't be read. The bytes end before or within the length, the length is encoded in more than 8 bytes, or its
    /// value is 2^32 or more.
    #[error("no length stands where one is due")]
    Leb,
    /// An element's length is greater than the number of bytes after the length field.
    #[error("an element isn't all there")]
    Length,
    /// W is 0, and nothing follows the aggregation header.
    #[error("nothing follows the aggregation header")]
    NoElement,
}
