// The codes of replies and their numbers for C.

/// The kind of a reply, as a number that C reads. Codes 0 to 3 are for accepted calls. Codes 4 to 7, 10 and 11 are answers to questions. Code 8 is a piece of a
/// file, and code 9 is the result of a pump. Codes 16 to 23 are verdicts on a frame. Codes 32 to 52 are refusals by the room or its bundles. Codes 64 to 75 are
/// errors that are found before the room or the recorder is called. Codes 80 to 86 are faults of recorded packets. The comment of each code says what the
/// fields `has`, `first` and `second` of a `PlainReply` mean. Own rule.
#[derive(Clone, Copy, Debug, PartialEq, Eq)]
pub enum Code {
    /// The call succeeded.
    Done = 0,
    /// A packet of `first` bytes was written.
    Packet = 1,
    /// `first` sequence numbers were written.
    Names = 2,
    /// `has` says whether a key frame should be requested from the track's publisher.
    Key = 3,
    /// `has` says whether the best decode target that the subscriber's wish allows is sent to the subscriber.
    Reached = 4,
    /// `has` says whether a decode target is sent to the subscriber. If so, this decode target was written.
    Target = 5,
    /// `has` says whether a tick of the track is due at some moment. If so, `first` is this moment, in milliseconds.
    Due = 6,
    /// `has` says whether the track has had a complete frame. If so, `first` is the number of the newest complete frame.
    Newest = 7,
    /// `first` bytes of a recorder's file were written, and `second` bytes are left.
    FilePiece = 8,
    /// Of the packets that were taken from the legs, `first` were forwarded, and `second` were dropped.
    Pumped = 9,
    /// The counts of a subscriber or a track were written.
    Counts = 10,
    /// `first` subscriber numbers were written.
    Ready = 11,
    /// The frame was forwarded.
    Passed = 16,
    /// The frame isn't present in the subscriber's decode target. If `has` is true, `first` is the index of this decode target. If `has` is false, there is no
    /// such decode target: none is open, and the wish allows none.
    NotOfTarget = 17,
    /// The frame refers to a frame that is `first` frame numbers back. The referenced frame is before frame `second`, the first frame of the epoch.
    Behind = 18,
    /// The frame refers to frame `first`, but frame `first` wasn't forwarded.
    Reference = 19,
    /// The subscriber's queue was too full: it already had `first` packets, and the frame has `second` packets.
    Full = 20,
    /// The decode target's chain broke at frame `first`: the chain's previous frame, which has the number `second`, wasn't forwarded.
    Link = 21,
    /// No decode target has been open for the subscriber since frame `first`.
    Unopened = 22,
    /// No complete frame with this number has come since the subscriber joined. `first` is the next higher frame number that has come. If `has` is true,
    /// `second` is the next lower frame number that has come.
    Hole = 23,
    /// No live track has this number, or the subscriber's track has ended.
    NoTrack = 32,
    /// No live subscriber has this number.
    NoSubscriber = 33,
    /// The new number isn't above `first`. For a new track, `first` is the highest track number so far. For a new subscriber, `first` is the highest subscriber
    /// number so far. For a new bundle, `first` is the highest bundle number so far.
    NumberUsed = 34,
    /// The maximum number of live tracks, of live subscribers or of bundles is already reached. `first` is this maximum.
    TooMany = 35,
    /// The id of the header extension element is 0. Or the call publishes a track, and the id is 15.
    BadExtensionId = 36,
    /// The packet has `first` bytes, which is more than 1,500.
    TooBig = 37,
    /// The packet isn't RTP (RFC 3550, section 5.1), or it is a retransmission without an original sequence number (RFC 4588, section 4). `first` is the kind
    /// of fault: 0 for a packet that is too short, 1 for the version, 2 for the CSRCs, 3 for the header extension, 4 for the padding, and 5 for a missing
    /// original sequence number.
    Unreadable = 38,
    /// The packet's SSRC is `first`, but the track's SSRC is `second`.
    WrongSsrc = 39,
    /// The packet's unwrapped sequence number is 2^46 or more.
    Spent = 40,
    /// The packet's unwrapped sequence number is below `first`, the lowest number that the track waits for.
    Late = 41,
    /// A packet with this sequence number is already buffered.
    Repeat = 42,
    /// The queue of the subscriber or of the bundle is empty.
    Empty = 43,
    /// No packet with this sequence number is stored for retransmission. `first` is the sequence number of the oldest stored packet. `second` is the sequence
    /// number that the next taken or drawn packet will have. If no packet is stored, `first` and `second` are equal.
    NotKept = 44,
    /// The frame number is above `first`, the number of the newest frame. If `has` is false, there is no newest frame: no frame has come since the subscriber
    /// joined.
    Ahead = 45,
    /// The frame number is below `first`, the lowest frame number that `zoftemar_why` accepts.
    TooOld = 46,
    /// The subscriber's track is plain.
    Plain = 47,
    /// Out of memory.
    NoMemory = 48,
    /// No bundle has this number.
    NoBundle = 49,
    /// The bundle has no such leg. The bundle's legs are numbered 1 to `first`.
    NoLeg = 50,
    /// A leg's track isn't layered, or the track's header extension id differs from the id in the call.
    WrongKind = 51,
    /// The subscriber is already a leg of bundle `first`. Or `first` is the new bundle, and the call lists the subscriber twice as a leg.
    Bound = 52,
    /// The handle has no room.
    NoRoom = 64,
    /// The handle already has a room.
    HasRoom = 65,
    /// The buffer is too small. A packet needs 2,048 bytes, sequence numbers need 1,024 items, and a piece of a file needs 1 byte.
    NoSpace = 66,
    /// The packet is too long. The maximum is 2,048 bytes, or 2,046 bytes if the packet is to be wrapped for retransmission.
    TooLong = 67,
    /// The handle has no session.
    NoSession = 68,
    /// The handle already has a session.
    HasSession = 69,
    /// The session still has a call to make.
    Busy = 70,
    /// The payload type is 128 or more, or the retransmission stream has the same SSRC as the media.
    BadStream = 71,
    /// The handle has no recorder.
    NoRecorder = 72,
    /// The handle already has a recorder.
    HasRecorder = 73,
    /// The recorder is finished.
    Finished = 74,
    /// The number of legs isn't two or three.
    BadLegs = 75,
    /// The recorded packet isn't RTP, its payload is empty or broken, or its dependency descriptor is missing or unreadable. Or the packet carries a template
    /// dependency structure that isn't the current one, but doesn't begin a key frame.
    Unread = 80,
    /// The recorded packet's SSRC is `first`, but the SSRC of the recorder's first packet is `second`.
    OtherSource = 81,
    /// The recorded packet's sequence number, `first`, doesn't directly follow `second`, the sequence number of the previous packet.
    OutOfSequence = 82,
    /// The recorded packet's descriptor needs a template dependency structure, but no structure has come.
    NoStructure = 83,
    /// The recorded packets of a frame don't form a complete frame.
    NotWhole = 84,
    /// The recorded frame has the 16-bit number `first`. It refers to a frame that is `second` frame numbers back, but the referenced frame doesn't count as
    /// received.
    MissingReference = 85,
    /// The recorded packet ends a frame in which an element isn't an OBU (AV1 Bitstream Specification, section 5.3.1).
    NotObu = 86,
}
