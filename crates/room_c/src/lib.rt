//! The C interface of the room. C stores one handle for each room, for each session of a publisher or a subscriber, and for each recorder. A room may have
//! bundles. A session makes calls on a room. A recorder turns packets into a file. Whatever numbers C passes, each call is either served or returns an error
//! code. The header is `libzoftemar/zoftemar.h`.
#![tactic(auto)]

mod answers;
mod attended;
mod bundle_calls;
mod code;
mod count_questions;
mod file_rest;
mod handle;
mod held;
mod held_recorder;
mod held_session;
mod home;
mod opening;
mod parts;
mod plain_counts;
mod plain_reply;
mod plain_target;
mod questions;
mod ready_question;
mod recorder_calls;
mod recorder_handle;
mod rtx_calls;
mod session_calls;
mod session_handle;
mod session_opening;
mod subscriber_calls;
mod tape;
mod track_calls;
mod version;
mod working;
