// The summary of a trial or a cascade.
ghost use Rattle.std.specs.Prelude.{◌≡◌, ◌++◌, List, ℕ, IfOk};
ghost use Rattle.std.specs.String.{string_bytes};
ghost use Rattle.sfu_base.specs.Bytes.{bit};
ghost use Rattle.stream_maker.specs.Summary.{made_text};
ghost use Rattle.cascade.specs.Standing.{WasFed};
ghost use Rattle.cascade.specs.Summary.{subscriber_text};

use crate::endpoint::Endpoint;
use sfu_base::NoMemory;
use std::alloc::{AllocError, Global};
use stream_maker::{Counts, counts_text, made_text};

fn bit(set: bool) -> u8
    ensures { result ≡ bit set }
{
    u8::from(set)
}

// Returns a subscriber's line: what its receiver counted.
fn subscriber_text(alloc: Global, number: u32, endpoint: &Endpoint) -> Result<String, AllocError>
    ensures { IfOk result (λ text. (taken : List (List ℕ)) → WasFed endpoint.now taken → string_bytes text ≡ subscriber_text number taken) }
{
    let frames = endpoint.receiver.frames();
    let packets = endpoint.receiver.packets();
    let complaints = bit(endpoint.complains);
    let text = counts_text(alloc, number, frames, packets, complaints)?;
    Ok(text)
}

fn whole_text(
    alloc: Global,
    counts: Counts,
    one: &Endpoint,
    two: &Endpoint,
    three: &Endpoint,
) -> Result<String, AllocError>
    ensures { IfOk result (λ text. (first second third : List (List ℕ)) → WasFed one.now first → WasFed two.now second → WasFed three.now third
        → string_bytes text ≡ made_text counts ++ (subscriber_text 1 first ++ (subscriber_text 2 second ++ subscriber_text 3 third))) }
{
    let mut text = made_text(alloc, counts)?;
    text.push_str(subscriber_text(alloc, 1, one)?.as_str())?;
    text.push_str(subscriber_text(alloc, 2, two)?.as_str())?;
    text.push_str(subscriber_text(alloc, 3, three)?.as_str())?;
    Ok(text)
}

/// Returns five lines: two about the stream, and one for each subscriber, with the counts of its strict receiver. Returns `NoMemory` if memory runs
/// out.
pub fn summary(
    alloc: Global,
    counts: Counts,
    one: &Endpoint,
    two: &Endpoint,
    three: &Endpoint,
) -> Result<String, NoMemory>
    ensures { IfOk result (λ text. (first second third : List (List ℕ)) → WasFed one.now first → WasFed two.now second → WasFed three.now third
        → string_bytes text ≡ made_text counts ++ (subscriber_text 1 first ++ (subscriber_text 2 second ++ subscriber_text 3 third))) }
{
    match whole_text(alloc, counts, one, two, three) {
        Ok(text) => Ok(text),
        Err(_) => Err(NoMemory),
    }
}
