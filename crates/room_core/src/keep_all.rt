// A recorder that stores all calls.
ghost use Rattle.std.specs.Prelude.{◌≡◌, ◌==◌, ◌<◌, Some, [], length, slice_get};
ghost use Rattle.std.specs.Option.{option_map};
ghost use Rattle.room_core.specs.Kept.{call_by, seat_by};

use crate::note::Note;
use crate::recorder::Recorder;
use sfu_base::{Call, NoMemory};
use std::alloc::Global;
use std::marker::Model;

/// A recorder that stores the calls on a room, each with its seat. The oldest call comes first. A call that runs out of memory isn't stored. Contracts see
/// the recorder as the list of the stored calls with their seats.
#[derive(Drop)]
pub struct KeepAll {
    notes: Vec<Note>,
}

impl Model for KeepAll {
    ghost use Rattle.std.specs.Prelude.{List, map};
    ghost use Rattle.room_core.specs.Noted.{Noted};
    ghost use Rattle.room_core.specs.Kept.{noted_by};

    ghost Value = { List Noted };

    ghost view = { λ k. map noted_by k.notes.items };
}

impl KeepAll {
    /// Creates a recorder without stored calls. Allocates no memory.
    pub fn new(alloc: Global) -> KeepAll
        ensures empty { result ≡ [] }
        ensures noted { ⟦<KeepAll as Recorder>⟧.noted result ≡ Some [] }
    {
        KeepAll {
            notes: Vec::new(alloc),
        }
    }

    /// Returns the number of stored calls.
    pub fn len(&self) -> usize
        ensures { result ≡ length self.now }
    {
        self.notes.len()
    }

    /// Returns whether no call is stored.
    pub fn is_empty(&self) -> bool
        ensures { result ≡ (length self.now == 0) }
    {
        self.notes.is_empty()
    }

    /// Returns the seat of the stored call at this place. Places count from 0 at the oldest call.
    pub fn seat(&self, place: usize) -> u32
        requires { place < length self.now }
        ensures { Some result ≡ option_map seat_by (slice_get self.now place) }
    {
        self.notes[place].seat
    }

    /// Returns the stored call at this place. Places count from 0 at the oldest call.
    pub fn call(&self, place: usize) -> &Call
        requires { place < length self.now }
        ensures { Some result.now ≡ option_map call_by (slice_get self.now place) }
    {
        &self.notes[place].call
    }
}

impl Recorder for KeepAll {
    ghost use Rattle.std.specs.Prelude.{true, Some};

    ghost may_refuse = { λ _. true };

    ghost noted = { λ k. Some k };

    fn note(&mut self, seat: u32, call: &Call) -> Result<(), NoMemory> {
        match self.notes.push(Note::of(seat, call)) {
            Ok(()) => Ok(()),
            Err(_) => Err(NoMemory),
        }
    }
}
