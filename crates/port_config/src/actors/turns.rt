// The turns of actors, and the journal made of them.
ghost use Rattle.std.specs.Prelude.{◌≡◌, IfOk, List, map, IsPermutation, false};
ghost use Rattle.sfu_base.specs.Answer.{answer_of, is_starved};
ghost use Rattle.script_texts.specs.Replies.{answer_text};
ghost use Rattle.port_config.specs.declared.actors.turns.Placed.{Placed};
ghost use Rattle.port_config.specs.actors.Places.{AtPlaces};

use super::lists::put_last;
use script_texts::{Entry, Journal, wants_memory, write_reply};
use sfu_base::{Blob, Call, NoMemory, Reply, Scratch};
use std::alloc::Global;

/// A turn of an actor: the turn's place in the history, and the turn's entry in the journal.
#[derive(Drop)]
pub struct Placed {
    pub place: u64,
    pub entry: Entry,
}

/// Returns the journal's entry for this call and its reply. Returns `NoMemory` in two cases: the reply says that memory ran out, or this function runs out
/// of memory.
pub fn journal_entry(
    alloc: Global,
    actor: u8,
    call: &Call,
    reply: &Reply,
    scratch: &Scratch,
) -> Result<Entry, NoMemory>
    ensures entry { IfOk result (λ entry. entry
        ≡ record { actor = actor; call = call.now; reply = answer_text (answer_of reply.now scratch.now.packet scratch.now.names) }) }
    ensures fed { IfOk result (λ entry. is_starved reply.now ≡ false) }
{
    if wants_memory(reply) {
        return Err(NoMemory);
    }
    let mut text = Blob::new(alloc);
    write_reply(reply, scratch, &mut text)?;
    Ok(Entry {
        actor,
        call: call.copied(),
        reply: text,
    })
}

// Returns the journal's entries of these turns, in the same order.
fn entries(alloc: Global, kept: Vec<Placed>) -> Result<Vec<Entry>, NoMemory>
    ensures { IfOk result (λ entries. entries.items ≡ map (λ turn. turn.entry) kept.items) }
{
    let mut entries = Vec::new(alloc);
    for turn in kept {
        let Placed { place: _, entry } = turn;
        put_last(&mut entries, entry)?;
    }
    Ok(entries)
}

/// Returns the journal of the collected turns. The entries are in the order of the turns' places.
pub fn in_order(alloc: Global, mut kept: Vec<Placed>) -> Result<Journal, NoMemory>
    ensures { IfOk result (λ journal. (all : List Placed) → IsPermutation all kept.items → AtPlaces 0 all → journal ≡ map (λ turn. turn.entry) all) }
{
    let Ok(()) = kept.sort_by_key(|turn| turn.place) else {
        return Err(NoMemory);
    };
    let entries = entries(alloc, kept)?;
    Ok(Journal::of(entries))
}
