// Examples of timelines.

ghost use Rattle.forwarding_examples.specs.Rows;
ghost use Rattle.forwarding_examples.specs.SelectionRows;

/// Timelines with their verdicts and outgoing packets. The results were worked out by hand.
pub fn worked_timelines()
    ensures broken_chain { Rows.BrokenChainCauses }
    ensures broken_chain_numbers { Rows.BrokenChainNumbers }
    ensures broken_link { Rows.BrokenLinkCauses }
    ensures unlinked { Rows.UnlinkedCause }
    ensures early_link { Rows.EarlyLinkCauses }
    ensures upper_lost { Rows.UpperLostCauses }
    ensures upper_lost_markers { Rows.UpperLostMarkers }
    ensures mask { Rows.MaskMarkers }
    ensures masked { Rows.MaskedCauses }
    ensures intact_upper { Rows.IntactUpperMarkers }
    ensures lowered_wish { Rows.LoweredWishCause }
    ensures wish { Rows.WishCauses }
    ensures wish_markers { Rows.WishMarkers }
    ensures wish_unpassed { Rows.WishCauseUnpassed }
    ensures full { Rows.FullCauses }
    ensures full_taken { Rows.FullTakenCauses }
    ensures late_join { Rows.LateJoinCauses }
    ensures behind { Rows.BehindCause }
    ensures hold { Rows.HoldCauses }
    ensures plain_resend { Rows.PlainResend }
    ensures three_packet_markers { Rows.ThreePacketMarkers }
    ensures kept_markers { Rows.KeptMarkers }
    ensures asked_numbers { Rows.AskedNumbers }
    ensures hole_bounds { Rows.HoleBounds }
{}

/// Timelines, each of which shows one rule of selection, of causes or of markers. The results were worked out by hand.
pub fn worked_selection()
    ensures passing_opens_nothing { SelectionRows.PassingOpensNothing }
    ensures new_epoch { SelectionRows.NewEpochGivesTheReason }
    ensures withheld_frames { SelectionRows.WithheldFramesBeginEpochs }
    ensures temporal_wish { SelectionRows.TemporalWishIsKept }
    ensures discardable_passes { SelectionRows.DiscardableFramesPass }
    ensures discardable_opens_nothing { SelectionRows.DiscardableFramesOpenNothing }
    ensures fourth_bit { SelectionRows.FourthBitIsTargetThree }
    ensures absence_first { SelectionRows.AbsenceComesFirst }
    ensures no_target_first { SelectionRows.NoTargetComesFirst }
    ensures greatest_below { SelectionRows.GreatestBelowIsReported }
    ensures old_frames { SelectionRows.OldFramesKeepTheirCauses }
    ensures key_frame_far_back { SelectionRows.KeyFramesArentForgotten }
    ensures lower_marker { SelectionRows.LowerMarkersAreKept }
    ensures first_numbers { SelectionRows.FirstNumbers }
    ensures spatial_first { SelectionRows.SpatialComesFirst }
    ensures first_of_equals { SelectionRows.FirstOfEquals }
    ensures broken_chain_path { SelectionRows.BrokenChainPath }
    ensures greater_layers_first { SelectionRows.GreaterLayersFirst }
{}
