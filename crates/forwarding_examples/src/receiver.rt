// Examples of packets at a strict receiver.

ghost use Rattle.forwarding_examples.specs.ReceptionRows;
ghost use Rattle.forwarding_examples.specs.WorkedPackets;

/// Packets, and the complaint, if any, that a strict receiver has about them. The results were worked out by hand.
pub fn worked_complaints()
    ensures accepted { WorkedPackets.Accepted }
    ensures accepted_counts { WorkedPackets.AcceptedCounts }
    ensures not_rtp { WorkedPackets.NotRtp }
    ensures other_source { WorkedPackets.OtherSource }
    ensures repeated_number { WorkedPackets.RepeatedNumber }
    ensures wrapped_sequence { WorkedPackets.WrappedSequence }
    ensures lacks_key_frame { WorkedPackets.LacksKeyFrame }
    ensures empty_payload { WorkedPackets.EmptyPayload }
    ensures lacks_start { WorkedPackets.LacksStart }
    ensures second_start { WorkedPackets.SecondStart }
    ensures broken_join { WorkedPackets.BrokenJoin }
    ensures lacks_reference { WorkedPackets.LacksReference }
    ensures lost_reference { WorkedPackets.LostReference }
    ensures other_number { WorkedPackets.OtherNumber }
    ensures end_carries { WorkedPackets.EndCarries }
    ensures start_continues { WorkedPackets.StartContinues }
    ensures longest_frame { WorkedPackets.LongestFrame }
    ensures too_many_packets { WorkedPackets.TooManyPackets }
    ensures faulty_descriptor { WorkedPackets.FaultyDescriptor }
    ensures broken_payload { WorkedPackets.BrokenPayload }
    ensures structure_rule { WorkedPackets.StructureRule }
    ensures same_structure { WorkedPackets.SameStructure }
    ensures no_structure_first { WorkedPackets.NoStructureFirst }
    ensures source_first { WorkedPackets.SourceFirst }
    ensures number_before_content { WorkedPackets.NumberBeforeContent }
    ensures first_complaint_stays { WorkedPackets.FirstComplaintStays }
    ensures stale_empties { WorkedPackets.StaleEmpties }
    ensures stale_counts { WorkedPackets.StaleCounts }
{}

/// More packets, and the complaint, if any, that a strict receiver has about them. The rows also say how many packets the receiver accepts before it complains.
/// The results were worked out by hand.
pub fn worked_receptions()
    ensures other_number_at_once { ReceptionRows.OtherNumberAtOnce }
    ensures broken_join_at_once { ReceptionRows.BrokenJoinAtOnce }
    ensures second_start_at_once { ReceptionRows.SecondStartAtOnce }
    ensures broken_payload_at_once { ReceptionRows.BrokenPayloadAtOnce }
    ensures too_many_at_once { ReceptionRows.TooManyAtOnce }
    ensures reference_at_the_end { ReceptionRows.ReferenceAtTheEnd }
    ensures first_reference { ReceptionRows.FirstReference }
    ensures farthest_reference { ReceptionRows.FarthestReference }
    ensures not_rtp_first { ReceptionRows.NotRtpFirst }
    ensures no_descriptor { ReceptionRows.NoDescriptor }
    ensures long_key_frame_accepted { ReceptionRows.LongKeyFrameAccepted }
    ensures open_end_first { ReceptionRows.OpenEndFirst }
    ensures broken_payload_first { ReceptionRows.BrokenPayloadFirst }
    ensures other_structure_first { ReceptionRows.OtherStructureFirst }
    ensures structure_without_key { ReceptionRows.StructureWithoutKey }
    ensures wrapped_frame_number { ReceptionRows.WrappedFrameNumber }
    ensures no_structure_before_broken { ReceptionRows.NoStructureBeforeBroken }
{}
