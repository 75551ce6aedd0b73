// The calls that actors on threads make, and the journal of these calls.
ghost use Rattle.std.specs.Prelude.{◌≡◌};

use sfu_base::{Blob, Call};
use std::marker::Model;

/// One call of a journal, with the actor that made the call and the text of the reply.
#[derive(Debug, Drop)]
pub struct Entry {
    /// The number of the actor that made the call, from 1 to 8. If the call is in the opening or closing part, the number is 0.
    pub actor: u8,
    pub call: Call,
    /// The text of the reply, without a line end.
    pub reply: Blob,
}

/// Calls in order. Contracts see a `Calls` as the list of its calls.
#[derive(Debug, Drop)]
pub struct Calls {
    calls: Vec<Call>,
}

impl Model for Calls {
    ghost use Rattle.std.specs.Prelude.{List};
    ghost use Rattle.sfu_base.specs.declared.call.Call.{Call};

    ghost Value = { List Call };

    ghost view = { λ c. c.calls.items };
}

impl Calls {
    /// Creates the list of these calls.
    pub fn of(calls: Vec<Call>) -> Calls
        ensures { result ≡ calls.items }
    {
        Calls { calls }
    }

    /// Returns the calls, in order.
    pub fn calls(&self) -> &[Call]
        ensures { result.now ≡ self.now }
    {
        &self.calls
    }
}

/// The calls before the actors start, the calls of up to eight actors, and the calls after all actors have ended.
#[derive(Debug, Drop)]
pub struct Actors {
    pub opening: Calls,
    /// The calls of each actor. The calls of actor K are at index K - 1.
    pub actors: [Calls; 8],
    pub closing: Calls,
}

/// All calls of a run, in the order in which the room served them. The calls of the opening and closing parts are included. Contracts see a `Journal` as
/// the list of its entries.
#[derive(Debug, Drop)]
pub struct Journal {
    entries: Vec<Entry>,
}

impl Model for Journal {
    ghost use Rattle.std.specs.Prelude.{List};
    ghost use Rattle.script_texts.specs.declared.journal.Entry.{Entry};

    ghost Value = { List Entry };

    ghost view = { λ j. j.entries.items };
}

impl Journal {
    /// Returns the journal with these entries.
    pub fn of(entries: Vec<Entry>) -> Journal
        ensures { result ≡ entries.items }
    {
        Journal { entries }
    }

    /// Returns the entries, in order.
    pub fn entries(&self) -> &[Entry]
        ensures { result.now ≡ self.now }
    {
        &self.entries
    }
}
