// Examples of frames.

ghost use Rattle.forwarding_examples.specs.TrackRows;
ghost use Rattle.forwarding_examples.specs.WorkedFormat;
ghost use Rattle.forwarding_examples.specs.WorkedPackets;
ghost use Rattle.forwarding_model.specs.frames.Reading.{IsFormat};

/// The format of the examples' packets fulfils every assumption that the laws make about formats.
pub fn worked_packets_have_a_format()
    ensures { IsFormat WorkedFormat.worked_format }
{}

/// Packets and the frames that are assembled from them. The results were worked out by hand.
pub fn worked_frames()
    ensures padded_frame { WorkedPackets.PaddedFrame }
    ensures torn_frame { WorkedPackets.TornFrame }
    ensures early_start { WorkedPackets.EarlyStart }
    ensures wrapped_numbers { WorkedPackets.WrappedNumbers }
    ensures stale_number { WorkedPackets.StaleNumber }
    ensures new_mask { WorkedPackets.NewMask }
    ensures other_structure { WorkedPackets.OtherStructure }
    ensures unread_inside { WorkedPackets.UnreadInside }
    ensures broken_inside { WorkedPackets.BrokenInside }
    ensures other_structure_inside { WorkedPackets.OtherStructureInside }
    ensures broken_key_start { WorkedPackets.BrokenKeyStart }
    ensures torn_key_frame { WorkedPackets.TornKeyFrame }
    ensures broken_mask { WorkedPackets.BrokenMask }
    ensures padding_says_nothing { WorkedPackets.PaddingSaysNothing }
    ensures last_mask { WorkedPackets.LastMask }
    ensures mask_again { WorkedPackets.MaskAgain }
    ensures first_number_zero { WorkedPackets.FirstNumberZero }
    ensures farthest_above { WorkedPackets.FarthestAbove }
    ensures nearest_behind { WorkedPackets.NearestBehind }
    ensures long_frame { WorkedPackets.LongFrame }
    ensures too_long_frame { WorkedPackets.TooLongFrame }
{}

/// More packets and histories with their results. The results were worked out by hand.
pub fn worked_tracks()
    ensures torn_number { TrackRows.TornNumber }
    ensures equal_number { TrackRows.EqualNumber }
    ensures own_mask { TrackRows.OwnMask }
    ensures three_targets { TrackRows.ThreeTargets }
    ensures long_key_frame { TrackRows.LongKeyFrame }
    ensures epochs_and_starts { TrackRows.EpochsAndStarts }
    ensures structure_inside { TrackRows.StructureInside }
    ensures structure_first { TrackRows.StructureFirst }
    ensures gap_tears { TrackRows.GapTears }
    ensures padding_is_passed_over { TrackRows.PaddingIsPassedOver }
    ensures start_begins_anew { TrackRows.StartBeginsAnew }
    ensures padding_first { TrackRows.PaddingFirst }
    ensures parts_of_a_frame { TrackRows.PartsOfAFrame }
    ensures third_subscriber_markers { TrackRows.ThirdSubscriberMarkers }
    ensures only_the_second_took { TrackRows.OnlyTheSecondTook }
    ensures one_call_numbers { TrackRows.OneCallNumbers }
    ensures one_call_causes { TrackRows.OneCallCauses }
    ensures plain_contents { TrackRows.PlainContents }
    ensures plain_queue { TrackRows.PlainQueue }
    ensures plain_history { TrackRows.PlainHistory }
    ensures plain_taken { TrackRows.PlainTaken }
    ensures long_store { TrackRows.LongStore }
    ensures long_store_resends { TrackRows.LongStoreResends }
{}
