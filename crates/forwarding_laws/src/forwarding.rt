// The laws of forwarding: which frames are forwarded to a subscriber, why others are withheld, and which packets are forwarded.

ghost use Rattle.forwarding_laws.specs.forwarding.CauseWords;
ghost use Rattle.forwarding_laws.specs.forwarding.Decisions;
ghost use Rattle.forwarding_laws.specs.forwarding.Laws;
ghost use Rattle.forwarding_laws.specs.forwarding.Openings;
ghost use Rattle.forwarding_laws.specs.forwarding.OutgoingWords;
ghost use Rattle.forwarding_laws.specs.forwarding.PassedFrames;
ghost use Rattle.forwarding_laws.specs.forwarding.Plain;
ghost use Rattle.forwarding_laws.specs.forwarding.StandingSteps;
ghost use Rattle.forwarding_laws.specs.forwarding.Taken;
ghost use Rattle.forwarding_laws.specs.forwarding.TargetWords;
ghost use Rattle.forwarding_laws.specs.forwarding.VerdictWords;
ghost use Rattle.forwarding_laws.specs.histories.Laws as HistoryLaws;

// ---- targets

/// A decode target is active exactly if its bit is set in the frame's mask. A frame's indication for a target says two things: whether the frame is
/// a switch for the target, and whether the frame is present in the target. A wish allows an active target if the target's highest spatial id and
/// highest temporal id are at most those of the wish.
pub fn tests_on_targets_mean_what_they_say()
    ensures active { TargetWords.ActiveInWords }
    ensures switch { TargetWords.SwitchInWords }
    ensures present { TargetWords.PresentInWords }
    ensures allowed { TargetWords.AllowedInWords }
{}

/// The aim is the best of the targets that the wish allows. If there are targets that a frame can open, the frame opens the best of them.
pub fn chosen_targets_are_the_best()
    ensures aim { Laws.AimIsBest }
    ensures opening { Laws.OpeningIsBest }
{}

// ---- how a subscriber's standing changes

/// A frame closes the open target in three cases: the frame is of another epoch, the frame's mask lacks the target, or the frame's link in the
/// target's chain is broken. The recorded reason is `NotOpened` in the first two cases, and `BrokenLink` in the third. Nothing else closes the
/// target. If no target is open, these rules leave the recorded reason unchanged at each frame of the same epoch.
pub fn frames_leave_the_target_or_close_it()
    ensures other_epoch { StandingSteps.OtherEpochsBeginAnew }
    ensures same_epoch { StandingSteps.EpochsGoOn }
    ensures mask { StandingSteps.MasksClose }
    ensures link { StandingSteps.LinksClose }
    ensures stays_open { StandingSteps.OtherTargetsStay }
    ensures stays_closed { StandingSteps.ClosedTargetsStay }
    ensures closing { StandingSteps.ClosingFramesClose }
    ensures keeping { StandingSteps.OtherFramesKeep }
{}

/// If a frame's link in the open target's chain is broken, the frame closes the target. A link that isn't broken leaves the target open. Suppose
/// that at least one frame has arrived, and that no target is open. Then a frame of the timeline closed the target, for the recorded reason. Since
/// then, no frame has closed a target, and no frame has been forwarded.
pub fn targets_are_closed_for_their_reasons<Structure>()
    ensures broken { Decisions.BrokenLinksClose }
    ensures other { Decisions.OtherLinksKeep }
    ensures breaks { Decisions.BrokenLinksBreak }
    ensures reasons { Decisions.ReasonsHold Structure }
{}

/// If there are targets that a frame can open, the frame opens the best of them.
pub fn frames_open_the_best_that_they_can()
    ensures best { Decisions.OpensTheBest }
    ensures any { Decisions.OpensWhatItCan }
{}

/// If a frame opens a target, the frame becomes the target's opening frame. If a frame opens no target, and the open target stays open, this target
/// keeps its opening frame. The opening frame of an open target was forwarded. Since then, no frame has closed the target or opened another target.
pub fn open_targets_were_opened_by_their_frame<Structure>()
    ensures kept { Openings.NothingOpenedIsKept }
    ensures opened { Openings.OpenedTargetsAreCandidates }
    ensures frame { Openings.OpeningsHold Structure }
{}

/// A forwarded frame is present in the target that it opens or leaves open. This target's bit is set in the frame's mask.
pub fn passed_frames_are_in_their_target()
    ensures { Decisions.PassesInTarget }
{}

/// A forwarded frame opens a target, or a target was open before and stays open. In the second case, the frame's link in the target's chain isn't
/// broken. If this link names the target's opening frame or a later frame, the named frame was forwarded.
pub fn passed_frames_are_linked()
    ensures { Laws.PassesLinked }
{}

/// These laws say how each event changes a subscriber's standing. The standing consists of the wish, the target, the number of queued packets, the
/// forwarded frames and the epoch. The epoch is that of the newest frame, even if the newest frame wasn't forwarded.
pub fn each_event_changes_the_standing<Structure>()
    ensures passing { StandingSteps.PassingFramesAreTakenIn Structure }
    ensures withheld { StandingSteps.OtherFramesAreWithheld Structure }
    ensures plain { StandingSteps.PlainPacketsAreQueued Structure }
    ensures wish { StandingSteps.WishesChangeAlone Structure }
    ensures take { StandingSteps.TakesChangeTheQueue Structure }
    ensures epoch { StandingSteps.NewestFramesHaveTheEpoch Structure }
{}

/// When a frame arrives, the rules look up which of its referenced and linked frames were forwarded, and whether its epoch's key frame was
/// forwarded. Only forwarded frames of the arriving frame's epoch count as forwarded, and all of these count.
pub fn passed_frames_of_the_epoch_count<Structure>()
    ensures frames { PassedFrames.EpochsFramesCount Structure }
    ensures number { PassedFrames.HasPassedInWords Structure }
    ensures key { PassedFrames.KeyPassedInWords Structure }
{}

/// The decision on a frame depends on the frame itself, the wish, the target and the queue. Beyond that, it depends only on which earlier frames of
/// three kinds were forwarded: the frame's references, its linked frames, and the epoch's key frame.
pub fn decisions_rest_on_named_frames()
    ensures kept { Laws.KeepAlike }
    ensures candidate { Laws.OpenAlike }
    ensures passes { Laws.PassAlike }
    ensures verdict { Laws.JudgeAlike }
{}

// ---- which frames are forwarded

/// Each forwarded frame is decodable from the forwarded frames of its epoch.
pub fn passed_frames_are_decodable<Structure>()
    ensures { Laws.AreDecodable Structure }
{}

/// After a broken chain link, the next forwarded frame is either a key frame, or a frame that opens a target and is a switch for this target. All
/// frames that this next frame refers to were forwarded.
pub fn broken_links_end_at_a_restart<Structure>()
    ensures at_once { Laws.RestartsAtOnce Structure }
    ensures later { Laws.RestartsLater Structure }
{}

// ---- verdicts and causes

/// The verdict on a frame is `Passed` exactly when the frame is forwarded.
pub fn verdicts_are_passed_where_frames_pass()
    ensures passes { Laws.PassedWherePasses }
    ensures passed { Laws.PassesWherePassed }
{}

/// If the verdict on a frame isn't `Passed`, everything that the verdict says about the frame is true. The verdict on a frame is never `Hole`.
pub fn verdicts_are_true()
    ensures full { Decisions.FullClaims }
    ensures behind { Decisions.BehindClaims }
    ensures reference { Decisions.ReferenceClaims }
    ensures other_target { Decisions.OtherTargetClaims }
    ensures no_target { Decisions.NoTargetClaims }
    ensures link { Decisions.LinkClaims }
    ensures unopened { Decisions.UnopenedClaims }
    ensures hole { Decisions.NoFrameIsAHole }
{}

/// The verdict on a frame is true, and every other verdict on this frame would be false. A frame's target is the best target that the frame can
/// open. If it can open none, its target is the open target. A frame is forwarded exactly when three conditions hold: it is present in its target,
/// all its references were forwarded, and the queue has space for its packets.
pub fn the_verdict_says_what_is_so()
    ensures verdict { VerdictWords.VerdictsSayWhatIsSo }
    ensures passes { VerdictWords.PassingInWords }
{}

/// If a frame with a given number has arrived, the number's cause is the verdict on this frame at its arrival. This verdict is never `Hole`. Each
/// other number below the newest frame's number has the cause `Hole`. The hole names the next higher number that a frame has. It also names the
/// next lower number that a frame has, if this lower number is less than 4,096 below the newest frame's number.
pub fn causes_are_verdicts_and_holes<Structure>()
    ensures frames { CauseWords.FramesHaveTheirVerdicts Structure }
    ensures others { CauseWords.OtherNumbersAreHoles Structure }
    ensures holes { CauseWords.HolesAreNoFrames Structure }
{}

/// Causes are known for the newest frame's number and the 4,095 numbers below it.
pub fn causes_are_known_up_to_the_newest()
    ensures too_old { Laws.TooOldIsBelow }
    ensures ahead { Laws.AheadIsAbove }
{}

/// Each frame that arrived and wasn't forwarded is withheld. The path of a withheld frame leads from cause to cause. Its first step is the frame
/// itself, and its last step is a root cause. Each step has a frame number and the cause of this number. The numbers strictly decrease along the
/// path.
pub fn withheld_frames_have_a_path_to_a_root<Structure>()
    ensures root { Laws.EndsAtRoot Structure }
    ensures unpassed { Laws.EndsAtRootUnpassed Structure }
    ensures withheld { Laws.UnpassedAreWithheld Structure }
    ensures begins { Laws.PathsBegin Structure }
    ensures causes { Laws.PathsHaveCauses Structure }
    ensures history { HistoryLaws.EndsAtRootInHistories Structure }
{}

// ---- which packets are forwarded

/// A frame of the open target's highest spatial layer is forwarded with the marker bit set on its last packet. Any other frame is forwarded with
/// its marker bits unchanged.
pub fn markers_end_the_target_layer<Structure>()
    ensures top_layer { OutgoingWords.TopLayerInWords }
    ensures last { OutgoingWords.LastPacketsAreMarked Structure }
    ensures kept { OutgoingWords.OtherMarkersAreKept Structure }
{}

/// If the marker bit of a frame's last packet is set, the frame stays complete, and keeps the same number of packets.
pub fn marking_keeps_frames_whole<Structure>()
    ensures whole { Laws.MarkingKeepsWhole Structure }
    ensures sender { Laws.MarkingIsASender Structure }
    ensures count { Laws.MarkingKeepsCount Structure }
{}

/// The packets of a forwarded frame come after all packets that were forwarded before. They have the next sequence numbers and the subscriber's
/// SSRC. They are sent for the target that the frame opens or leaves open. No packet is added by a frame that isn't forwarded, by a change of the
/// wish, or by a take.
pub fn packets_of_passing_frames_go_out<Structure>()
    ensures passing { OutgoingWords.PassingFramesGoOut Structure }
    ensures others { OutgoingWords.NothingElseGoesOut Structure }
    ensures numbers { OutgoingWords.PacketsAreRenumbered }
{}

/// A packet of a plain track is forwarded exactly if fewer than 512 packets are queued when the packet arrives. Only its sequence number and its
/// SSRC are rewritten. In every history of a plain track, each take found a queued packet.
pub fn plain_packets_go_out_as_they_came<Structure>()
    ensures passes { Plain.PlainPacketsGoOut Structure }
    ensures full { Plain.FullQueuesTakeNone Structure }
    ensures history { Plain.PlainTakesFindPackets Structure }
{}

/// Packets that were forwarded never change. Packets that are forwarded later are appended to them.
pub fn outgoing_packets_only_grow<Structure>()
    ensures { Laws.OnlyGrows Structure }
{}

/// Outgoing sequence numbers are consecutive modulo 65,536.
pub fn outgoing_numbers_are_consecutive<Structure>()
    ensures { Laws.AreNumberedInOrder Structure }
{}

/// Suppose that each take found a packet. Then the next sequence number is the subscriber's first sequence number plus the number of takes, modulo
/// 65,536.
pub fn next_numbers_count_the_takes<Structure>()
    ensures { OutgoingWords.NextNumbersCountTakes Structure }
{}

/// Suppose that each take found a packet. Then the number of queued packets is the number of packets that were forwarded but not yet taken. This
/// condition holds in every history.
pub fn queued_packets_are_those_not_taken<Structure>()
    ensures queued { Laws.QueuesTheRest Structure }
    ensures history { HistoryLaws.TakesFindPackets Structure }
{}

/// No more than 512 packets are ever queued.
pub fn queues_are_short<Structure>()
    ensures { Plain.QueuesAreShort Structure }
{}

/// Suppose that each take found a packet. Then n takes returned exactly the first n forwarded packets, in order. The packet that the next take
/// returns has the next sequence number.
pub fn takes_give_what_was_taken<Structure>()
    ensures given { Taken.TakesGiveWhatWasTaken Structure }
    ensures next { Taken.NextHasNextNumber Structure }
{}

/// The last 1,024 taken packets are kept. If fewer were taken, all of them are kept. A retransmission succeeds exactly if its sequence number is
/// that of a kept packet.
pub fn the_last_that_were_taken_are_kept<Structure>()
    ensures last { Taken.KeepsTheLast Structure }
    ensures oldest { Taken.OldestIsKept Structure }
    ensures reported { Taken.OldestIsReported Structure }
    ensures numbers { Taken.ResendsTheKeptNumbers Structure }
{}

/// If a kept packet is retransmitted, the retransmission has the same bytes as the packet had when it was taken.
pub fn resends_give_first_bytes<Structure>()
    ensures first { Laws.ResendsFirstBytes Structure }
    ensures kept { Laws.ResendsKept Structure }
{}
