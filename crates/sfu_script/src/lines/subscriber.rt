// The lines about a subscriber; their first word has been read.
ghost use Rattle.std.specs.Prelude.{◌≡◌};
ghost use Rattle.std.specs.Result.{result_ok};
ghost use Rattle.sfu_script.specs.ReadLines.{subscriber_call_of};

use crate::NoLine;
use crate::commands::SubscriberCommand;
use crate::fields::Field::{Number8, Number16, Number32, Number64, Ssrc};
use crate::fields::read_fields;
use sfu_base::{Call, Wish};

#[inline(always)]
fn join(rest: &[u8]) -> Result<Call, NoLine>
    ensures { result_ok result ≡ subscriber_call_of SubscriberCommand.Join rest.now }
{
    let fields = [Number32, Number32, Ssrc, Number16, Number8, Number8];
    let [subscriber, track, ssrc, first, spatial, temporal] = read_fields(&fields, rest)?;
    let wish = Wish {
        spatial: spatial as u8,
        temporal: temporal as u8,
    };
    Ok(Call::Join {
        subscriber: subscriber as u32,
        track: track as u32,
        ssrc: ssrc as u32,
        first: first as u16,
        wish,
    })
}

#[inline(always)]
fn aim(rest: &[u8]) -> Result<Call, NoLine>
    ensures { result_ok result ≡ subscriber_call_of SubscriberCommand.Aim rest.now }
{
    let [subscriber, spatial, temporal] = read_fields(&[Number32, Number8, Number8], rest)?;
    let wish = Wish {
        spatial: spatial as u8,
        temporal: temporal as u8,
    };
    Ok(Call::Aim {
        subscriber: subscriber as u32,
        wish,
    })
}

#[inline(always)]
fn resend(rest: &[u8]) -> Result<Call, NoLine>
    ensures { result_ok result ≡ subscriber_call_of SubscriberCommand.Resend rest.now }
{
    let [subscriber, seq] = read_fields(&[Number32, Number16], rest)?;
    Ok(Call::Resend {
        subscriber: subscriber as u32,
        seq: seq as u16,
    })
}

#[inline(always)]
fn why(rest: &[u8]) -> Result<Call, NoLine>
    ensures { result_ok result ≡ subscriber_call_of SubscriberCommand.Why rest.now }
{
    let [subscriber, number] = read_fields(&[Number32, Number64], rest)?;
    Ok(Call::Why {
        subscriber: subscriber as u32,
        number,
    })
}

/// Returns the call in a line. `command` is the line's first word, and `rest` is the text after it.
#[inline(always)]
pub fn read(command: SubscriberCommand, rest: &[u8]) -> Result<Call, NoLine>
    ensures { result_ok result ≡ subscriber_call_of command rest.now }
{
    match command {
        SubscriberCommand::Join => join(rest),
        SubscriberCommand::Leave => {
            let [subscriber] = read_fields(&[Number32], rest)?;
            Ok(Call::Leave {
                subscriber: subscriber as u32,
            })
        }
        SubscriberCommand::Aim => aim(rest),
        SubscriberCommand::Take => {
            let [subscriber] = read_fields(&[Number32], rest)?;
            Ok(Call::Take {
                subscriber: subscriber as u32,
            })
        }
        SubscriberCommand::Resend => resend(rest),
        SubscriberCommand::Plead => {
            let [subscriber] = read_fields(&[Number32], rest)?;
            Ok(Call::Plead {
                subscriber: subscriber as u32,
            })
        }
        SubscriberCommand::Why => why(rest),
    }
}
