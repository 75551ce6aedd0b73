// Examples of histories.

ghost use Rattle.forwarding_examples.specs.LayeredFormat;
ghost use Rattle.forwarding_examples.specs.LayeredRows;
ghost use Rattle.forwarding_examples.specs.WorkedPackets;
ghost use Rattle.forwarding_model.specs.frames.Reading.{IsFormat};

/// Histories with joins, packets and a change of wish. The results were worked out by hand: what is forwarded, taken and withheld.
pub fn worked_history()
    ensures numbers { WorkedPackets.HistoryNumbers }
    ensures taken { WorkedPackets.HistoryTaken }
    ensures causes { WorkedPackets.HistoryCauses }
    ensures first_subscriber { WorkedPackets.FirstSubscriber }
    ensures first_subscriber_markers { WorkedPackets.FirstSubscriberMarkers }
    ensures second_subscriber { WorkedPackets.SecondSubscriber }
    ensures second_subscriber_taken { WorkedPackets.SecondSubscriberTaken }
    ensures third_subscriber { WorkedPackets.ThirdSubscriber }
    ensures third_subscriber_causes { WorkedPackets.ThirdSubscriberCauses }
{}

/// Histories of layered tracks with chains, and the causes and forwarded packets that result from them. The format of these histories' packets fulfils every
/// assumption that the laws make about formats.
pub fn worked_layers()
    ensures format { IsFormat LayeredFormat.layered_format }
    ensures broken_chain { LayeredRows.BrokenChain }
    ensures broken_chain_sent { LayeredRows.BrokenChainSent }
    ensures upper_lost { LayeredRows.UpperLost }
    ensures upper_lost_sent { LayeredRows.UpperLostSent }
    ensures mask_sent { LayeredRows.MaskSent }
    ensures wished_causes { LayeredRows.WishedCauses }
    ensures wished_sent { LayeredRows.WishedSent }
    ensures wished_unmet { LayeredRows.WishedUnmet }
    ensures other_template { LayeredRows.OtherTemplate }
    ensures new_structure_sent { LayeredRows.NewStructureSent }
    ensures late_join_causes_of_two { LayeredRows.LateJoinCausesOfTwo }
    ensures late_join_causes_of_one { LayeredRows.LateJoinCausesOfOne }
{}
