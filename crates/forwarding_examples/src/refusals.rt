// Examples that the definitions in the laws reject.

ghost use Rattle.forwarding_examples.specs.Refusals;

/// Some definitions occur only in conclusions of laws. The examples show what these definitions reject. A path is rejected if it is empty, continues after a
/// root, doesn't end at a root, or has frame numbers that don't decrease. A path is also rejected if one of its verdicts names a frame other than the next
/// step's frame, or isn't the cause of its own step's frame. Frames that aren't decodable, frames that aren't restarts, lost links and closed targets are
/// rejected too. Other examples show that `NoneJoins` and `EachFrameSince` are neither too narrow nor too wide.
pub fn words_refuse_what_they_should()
    ensures empty_is_no_path { Refusals.EmptyIsNoPath }
    ensures passed_is_no_root { Refusals.PassedIsNoRoot }
    ensures reference_is_no_root { Refusals.ReferenceIsNoRoot }
    ensures link_is_no_root { Refusals.LinkIsNoRoot }
    ensures late_passed_is_no_root { Refusals.LatePassedIsNoRoot }
    ensures roots_end_paths { Refusals.RootsEndPaths }
    ensures passed_leads_nowhere { Refusals.PassedLeadsNowhere }
    ensures paths_name_the_next { Refusals.PathsNameTheNext }
    ensures later_steps_name_the_next { Refusals.LaterStepsNameTheNext }
    ensures later_steps_fall { Refusals.LaterStepsFall }
    ensures equal_numbers_dont_fall { Refusals.EqualNumbersDontFall }
    ensures paths_fall { Refusals.PathsFall }
    ensures others_are_no_causes { Refusals.OthersAreNoCauses }
    ensures later_others_are_no_causes { Refusals.LaterOthersAreNoCauses }
    ensures causes_of_others_dont_count { Refusals.CausesOfOthersDontCount }
    ensures lacks_reference { Refusals.LacksReference }
    ensures lacks_farther_reference { Refusals.LacksFartherReference }
    ensures lacks_middle_reference { Refusals.LacksMiddleReference }
    ensures lacks_key_frame { Refusals.LacksKeyFrame }
    ensures is_not_there { Refusals.IsNotThere }
    ensures others_are_no_restart { Refusals.OthersAreNoRestart }
    ensures incomplete_is_no_restart { Refusals.IncompleteIsNoRestart }
    ensures switches_must_open { Refusals.SwitchesMustOpen }
    ensures lost_link_is_no_link { Refusals.LostLinkIsNoLink }
    ensures link_to_the_opening_counts { Refusals.LinkToTheOpeningCounts }
    ensures lost_link_is_not_kept { Refusals.LostLinkIsNotKept }
    ensures nothing_opens_unless_opened { Refusals.NothingOpensUnlessOpened }
    ensures opened_is_open_from_there { Refusals.OpenedIsOpenFromThere }
    ensures closed_is_not_open { Refusals.ClosedIsNotOpen }
    ensures frames_since_count { Refusals.FramesSinceCount }
    ensures older_frames_since_count { Refusals.OlderFramesSinceCount }
    ensures frames_behind_events_count { Refusals.FramesBehindEventsCount }
    ensures since_looks_before { Refusals.SinceLooksBefore }
    ensures others_may_join { Refusals.OthersMayJoin }
    ensures joining_is_noted { Refusals.JoiningIsNoted }
{}
