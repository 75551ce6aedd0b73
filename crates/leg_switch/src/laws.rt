// Laws of the definitions of what is forwarded.
ghost use Rattle.leg_switch.specs.Laws.{BundlesPlease, ChangesStep, FrameNumbersAreRead, KeyStartsGoOut, NumbersGoOn, OnlyNumbersDiffer, OutgoingGrows, RenumberedBundlesPlease, RenumberedGrows};

/// Suppose that, for each leg, a strict receiver has no complaint about the packets taken from this leg, before and after the bundle was made. Then a
/// strict receiver has no complaint about any prefix of the forwarded packets.
pub fn bundles_please_receivers()
    ensures { BundlesPlease }
{}

/// A key start is the first packet of a key frame. A key start of the chosen leg is forwarded if the last packet taken from the active leg ended a
/// frame.
pub fn key_starts_go_out_between_frames()
    ensures { KeyStartsGoOut }
{}

/// The first packet after a change of leg is forwarded with the timestamp of the packet forwarded before it plus 3,000 ticks, modulo 2^32.
pub fn changes_step_the_timestamp()
    ensures { ChangesStep }
{}

/// The list of the packets forwarded so far is a prefix of this list at any later time.
pub fn outgoing_only_grows()
    ensures { OutgoingGrows }
{}

/// The same as `bundles_please_receivers`, for a bundle whose frame numbers continue over a change of leg.
pub fn renumbered_bundles_please_receivers()
    ensures { RenumberedBundlesPlease }
{}

/// A law for a bundle whose frame numbers continue over a change of leg. The first packet forwarded after the change has the frame number of the
/// packet forwarded before it plus 1, modulo 65,536.
pub fn frame_numbers_go_on()
    ensures { NumbersGoOn }
{}

/// The two bytes that `FrameNumbers::renumber` overwrites are the frame number that a track or a receiver reads. If the packet's descriptor can be
/// read, these two bytes are its frame_number.
pub fn frame_numbers_are_read()
    ensures { FrameNumbersAreRead }
{}

/// Compare a bundle whose frame numbers continue with one that takes the same packets and leaves the frame numbers unchanged. Their forwarded packets
/// differ only in the two bytes of the frame number.
pub fn only_frame_numbers_differ()
    ensures { OnlyNumbersDiffer }
{}

/// The same as `outgoing_only_grows`, for a bundle whose frame numbers continue.
pub fn renumbered_outgoing_only_grows()
    ensures { RenumberedGrows }
{}
