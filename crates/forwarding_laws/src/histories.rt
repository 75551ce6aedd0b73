// The laws of histories: what happens to each subscriber of a track.

ghost use Rattle.forwarding_laws.specs.histories.HistoryWords;

/// On a layered track, a subscriber's timeline has all frames that became complete since the subscriber joined. These frames are frames of one track
/// (`IsTrack`). Until a subscriber joins with the same number again, events are only added to the timeline.
pub fn timelines_have_all_frames<Structure>()
    ensures frames { HistoryWords.TimelinesHaveTheFrames Structure }
    ensures track { HistoryWords.TimelinesAreTracks Structure }
    ensures grow { HistoryWords.TimelinesOnlyGrow Structure }
{}

/// A join begins a subscriber's timeline. A later entry of the history adds the frames that the entry releases, a change of this subscriber's wish, or, if
/// a packet is queued, a take by this subscriber. Entries of other subscribers add nothing. On a plain track, the timeline has each packet released since
/// the join, in order.
pub fn entries_add_what_they_say<Structure>()
    ensures entries { HistoryWords.EntriesInWords Structure }
    ensures join { HistoryWords.JoinsBegin Structure }
    ensures plain { HistoryWords.PlainTimelinesHaveThePackets Structure }
{}

/// A subscriber joins with a number. The last join with a number determines the subscriber that has this number. Only another join with this number changes
/// that. If no subscriber ever joined with a number, no subscriber has the number.
pub fn subscribers_are_known_as_they_joined()
    ensures joined { HistoryWords.JoinsAreKnown }
    ensures nobody { HistoryWords.NobodyIsKnown }
{}
