// The laws of frames: which packets in a row form a frame, and which frames the items of a track make.

ghost use Rattle.forwarding_laws.specs.frames.Laws;
ghost use Rattle.forwarding_laws.specs.frames.Making;

// ---- whole cuts

/// A mark is a part of a frame (a packet that was read), a padding packet, an unreadable packet, or a gap of lost packets. A whole cut is the list of all
/// parts of one complete frame. A run is built from the marks, one after another. If the newest mark finishes a run, the marks end with a whole cut: the
/// parts of this run. If the marks end with a whole cut, the newest mark finishes a run of these parts. `Brought` is the type of the data that a part
/// carries.
pub fn ended_runs_are_the_whole_cuts<Brought>()
    ensures whole { Laws.EndedRunsAreWhole Brought }
    ensures found { Laws.WholeCutsAreFound Brought }
{}

/// A mark is a part of a frame, a padding packet, an unreadable packet, or a gap of lost packets. The outcome of a mark is a whole frame exactly if the
/// mark ends a whole cut. The outcome is padding exactly if the mark is padding. The outcome is a partial frame only if a run continues after the mark. The
/// outcome is a torn frame only in two cases: no run continues after the mark, or the mark ended a run whose last element is open. `Brought` is the type of
/// the data that a part carries.
pub fn outcomes_are_those_of_runs<Brought>()
    ensures whole { Laws.WholeOutcomesAreCuts Brought }
    ensures partial { Laws.PartialOutcomesGoOn Brought }
    ensures padding { Laws.PaddingOutcomesArePadding Brought }
    ensures padded { Laws.PaddingIsPadded Brought }
    ensures torn { Laws.TornOutcomesAreTorn Brought }
{}

/// An unfinished cut has the first packets of a frame that hasn't ended. The outcome of a mark is a partial frame exactly if the marks up to this one end
/// with an unfinished cut. `Brought` is the type of the data that a part carries.
pub fn partial_frames_are_the_unfinished_cuts<Brought>()
    ensures unfinished { Laws.PartialFramesAreUnfinished Brought }
    ensures found { Laws.UnfinishedCutsArePartial Brought }
{}

// ---- the frames of a track

/// An item of the track makes a frame exactly if the item ends a whole cut (all packets of one frame) whose frame number isn't stale. The number of a key
/// frame is never stale. Any other number is stale unless the nearest unwrapped number is above the newest frame number. The frame has the packets of the
/// cut. The frame's meaning follows from the cut's first descriptor, the structure, and the state in force. The frame's mask, epoch and epoch start are the
/// values in force after the cut's last packet. The newest frame number is taken from the state before that packet. For every list of items, there is a
/// list of the items' marks.
pub fn items_make_the_frames_of_their_cuts<Structure>()
    ensures marks { Making.ItemsHaveMarks Structure }
    ensures frames { Making.FramesAreCuts Structure }
    ensures cuts { Making.CutsAreFrames Structure }
{}

/// The frames that items make are frames of one track (`IsTrack`). Each of these frames is complete. Each was read with a structure that a descriptor
/// carried. Later items only add frames. If the oldest frames of a track are left out, the remaining frames are still frames of one track.
pub fn frames_of_items_are_one_track<Structure>()
    ensures track { Laws.FramesAreTrack Structure }
    ensures read { Laws.FramesAreRead Structure }
    ensures added { Laws.FramesAreAdded Structure }
    ensures newest { Laws.NewestAreTrack Structure }
{}

/// The structure, the mask and the epoch in force follow from the descriptors that were read. The number of the first key start is the frame number in its
/// descriptor. The number of each later key start is unwrapped: the least number above the newest frame number that equals the descriptor's frame number
/// modulo 65,536.
pub fn what_was_read_is_in_force<Structure>()
    ensures in_force { Making.WhatWasReadIsInForce Structure }
    ensures numbers { Making.KeyStartsAreNumbered Structure }
{}

/// The newest frame number is that of the last complete frame or key start, whichever came later. Nothing else changes the newest frame number.
pub fn the_newest_number_is_that_of_what_came_last<Structure>()
    ensures { Making.TheNewestIsTheLast Structure }
{}

/// The newest descriptor that has a mask or carries a structure determines the mask in force. If this descriptor has a mask, that mask is in force.
/// Otherwise, all decode targets of its structure are active.
pub fn masks_are_what_was_said_last<Structure>()
    ensures said { Making.MasksAreSaid Structure }
    ensures all { Making.AllTargetsAreActive }
{}
