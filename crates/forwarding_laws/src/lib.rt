//! The laws of forwarding, and the terms in which they are stated. The definitions of forwarding are in the crate `forwarding_model`.
//!
//! Each law is the contract of a function that does nothing. Another crate uses a law by calling that function, or by naming the law's lemma, which is in
//! `proofs/`. For each module, `specs/` defines the terms and states the laws. `Structure` is the type of template dependency structures. There is no other
//! code here.
#![tactic(auto)]

mod forwarding;
mod frames;
mod histories;
mod receiver;

pub use forwarding::{
    broken_links_end_at_a_restart, causes_are_known_up_to_the_newest,
    causes_are_verdicts_and_holes, chosen_targets_are_the_best, decisions_rest_on_named_frames,
    each_event_changes_the_standing, frames_leave_the_target_or_close_it,
    frames_open_the_best_that_they_can, markers_end_the_target_layer, marking_keeps_frames_whole,
    next_numbers_count_the_takes, open_targets_were_opened_by_their_frame,
    outgoing_numbers_are_consecutive, outgoing_packets_only_grow, packets_of_passing_frames_go_out,
    passed_frames_are_decodable, passed_frames_are_in_their_target, passed_frames_are_linked,
    passed_frames_of_the_epoch_count, plain_packets_go_out_as_they_came,
    queued_packets_are_those_not_taken, queues_are_short, resends_give_first_bytes,
    takes_give_what_was_taken, targets_are_closed_for_their_reasons,
    tests_on_targets_mean_what_they_say, the_last_that_were_taken_are_kept,
    the_verdict_says_what_is_so, verdicts_are_passed_where_frames_pass, verdicts_are_true,
    withheld_frames_have_a_path_to_a_root,
};
pub use frames::{
    ended_runs_are_the_whole_cuts, frames_of_items_are_one_track,
    items_make_the_frames_of_their_cuts, masks_are_what_was_said_last, outcomes_are_those_of_runs,
    partial_frames_are_the_unfinished_cuts, the_newest_number_is_that_of_what_came_last,
    what_was_read_is_in_force,
};
pub use histories::{
    entries_add_what_they_say, subscribers_are_known_as_they_joined, timelines_have_all_frames,
};
pub use receiver::{
    accepted_packets_are_whole_frames, complaints_come_in_their_place,
    strict_receiver_never_complains,
};
