// A reply in the form that C reads.
ghost use Rattle.std.specs.Prelude.{◌≡◌, ◌<◌, ◌≤◌, Err, IfErr, Ok, false, true};
ghost use Rattle.sfu_base.specs.declared.call.Reply.TheVariants as reply;
ghost use Rattle.simulcast.specs.Bundles.{IsBound};
ghost use Rattle.room_c.specs.Reading.{answer_in, fault_in, refusal_in, reply_in};
ghost use Rattle.room_c.specs.Numbers.{answer_reply, bare_of, done_reply, flag_of, number_of_fault, one_of, plain_fault, plain_of, plain_refusal, plain_verdict, pumped_reply, two_of};

use crate::code::Code;
use sfu_base::{Refusal, Reply, RtpFault, Scratch, Verdict};
use simulcast::{BundleFault, Pumped};

/// A reply as numbers: a code, a flag and two numbers. For each code, [`Code`] says what the flag and the numbers mean. A number without a meaning is 0. The
/// flag either answers a yes-or-no question, or says whether an optional number is present.
#[repr(C)]
#[derive(Clone, Copy, Debug)]
pub struct PlainReply {
    pub code: u32,
    pub has: bool,
    pub first: u64,
    pub second: u64,
}

impl PlainReply {
    /// Returns a reply with this code. The flag is false, and both numbers are 0.
    pub fn bare(code: Code) -> PlainReply
        ensures { result ≡ bare_of code }
    {
        PlainReply {
            code: code as u32,
            has: false,
            first: 0,
            second: 0,
        }
    }

    /// Returns a reply with this code and this flag. Both numbers are 0.
    pub fn with_flag(code: Code, has: bool) -> PlainReply
        ensures { result ≡ flag_of code has }
    {
        PlainReply {
            code: code as u32,
            has,
            first: 0,
            second: 0,
        }
    }

    /// Returns a reply with this code and one number. The flag is true, and the second number is 0.
    pub fn with(code: Code, first: u64) -> PlainReply
        ensures { result ≡ one_of code first }
    {
        PlainReply {
            code: code as u32,
            has: true,
            first,
            second: 0,
        }
    }

    /// Returns a reply with this code and two numbers. The flag is true.
    pub fn with_two(code: Code, first: u64, second: u64) -> PlainReply
        ensures { result ≡ two_of code first second }
    {
        PlainReply {
            code: code as u32,
            has: true,
            first,
            second,
        }
    }

    /// Returns a room's reply as numbers. If the reply has bytes or sequence numbers in `scratch`, `first` is their count.
    #[tactic(auto, unfolding(crate::specs::Numbers::plain_of))]
    pub fn of(reply: &Reply, scratch: &Scratch) -> PlainReply
        ensures read_back { reply_in result ≡ reply.now }
        ensures code { result.code < 49 }
        ensures exact { result ≡ plain_of scratch.now reply.now }
    {
        match reply {
            Reply::Done => PlainReply::bare(Code::Done),
            Reply::Packet => PlainReply::with(Code::Packet, scratch.packet.bytes().len() as u64),
            Reply::Names => PlainReply::with(Code::Names, scratch.names.numbers().len() as u64),
            Reply::Key { wanted } => PlainReply::with_flag(Code::Key, *wanted),
            Reply::Cause(verdict) => of_verdict(*verdict),
            Reply::Refused(why) => PlainReply::of_refusal(*why),
        }
    }

    /// Returns, as numbers, the reply to a call that no bundle forbids.
    #[inline(always)]
    #[tactic(auto, unfolding(crate::specs::Numbers::plain_of))]
    pub fn of_reply(reply: &Reply, scratch: &Scratch) -> PlainReply
        ensures read_back { answer_in result ≡ Ok reply.now }
        ensures exact { result ≡ answer_reply scratch.now (Ok reply.now) }
    {
        match reply {
            // Most of these replies are `Done`.
            Reply::Done => PlainReply::bare(Code::Done),
            _ => PlainReply::of(reply, scratch),
        }
    }

    /// Returns, as numbers, the answer of a room with bundles.
    pub fn of_answer(answer: Result<Reply, BundleFault>, scratch: &Scratch) -> PlainReply
        requires { IfErr answer IsBound }
        ensures read_back { answer_in result ≡ answer }
        ensures exact { result ≡ answer_reply scratch.now answer }
    {
        match answer {
            Ok(reply) => PlainReply::of(&reply, scratch),
            Err(why) => PlainReply::of_fault(why),
        }
    }

    /// Returns, as numbers, the result of a call that creates a bundle or chooses a leg.
    pub fn of_done(answer: Result<(), BundleFault>) -> PlainReply
        ensures { result ≡ done_reply answer }
    {
        match answer {
            Ok(()) => PlainReply::bare(Code::Done),
            Err(why) => PlainReply::of_fault(why),
        }
    }

    /// Returns, as numbers, the result of `Bundles::pump`.
    pub fn of_pumped(answer: Result<Pumped, BundleFault>) -> PlainReply
        ensures { result ≡ pumped_reply answer }
    {
        match answer {
            Ok(pumped) => PlainReply::with_two(
                Code::Pumped,
                u64::from(pumped.forwarded),
                u64::from(pumped.dropped),
            ),
            Err(why) => PlainReply::of_fault(why),
        }
    }

    /// Returns, as numbers, why a room with bundles refused a call.
    pub fn of_fault(why: BundleFault) -> PlainReply
        ensures read_back { IsBound why → answer_in result ≡ Err why }
        ensures code { 32 ≤ result.code }
        ensures exact { result ≡ plain_fault why }
    {
        match why {
            BundleFault::NoBundle => PlainReply::bare(Code::NoBundle),
            BundleFault::NumberUsed { highest } => PlainReply::with(
                Code::NumberUsed,
                u64::from(highest),
            ),
            BundleFault::TooMany { live } => PlainReply::with(Code::TooMany, u64::from(live)),
            BundleFault::NoLeg { legs } => PlainReply::with(Code::NoLeg, u64::from(legs)),
            BundleFault::WrongKind => PlainReply::bare(Code::WrongKind),
            BundleFault::Bound { bundle } => PlainReply::with(Code::Bound, u64::from(bundle)),
            BundleFault::Room(why) => PlainReply::of_refusal(why),
            BundleFault::NoMemory => PlainReply::bare(Code::NoMemory),
        }
    }

    /// Returns, as numbers, why a room refused a call.
    pub fn of_refusal(why: Refusal) -> PlainReply
        ensures read_back { reply_in result ≡ reply.Refused why }
        ensures refusal { refusal_in result ≡ why }
        ensures code { 32 ≤ result.code }
        ensures below { result.code < 49 }
        ensures exact { result ≡ plain_refusal why }
    {
        match why {
            Refusal::NoTrack => PlainReply::bare(Code::NoTrack),
            Refusal::NoSubscriber => PlainReply::bare(Code::NoSubscriber),
            Refusal::NumberUsed { highest } => PlainReply::with(
                Code::NumberUsed,
                u64::from(highest),
            ),
            Refusal::TooMany { live } => PlainReply::with(Code::TooMany, u64::from(live)),
            Refusal::BadExtensionId => PlainReply::bare(Code::BadExtensionId),
            Refusal::TooBig { len } => PlainReply::with(Code::TooBig, u64::from(len)),
            Refusal::Unreadable(fault) => PlainReply::with(Code::Unreadable, fault_number(fault)),
            Refusal::WrongSsrc { got, wanted } => PlainReply::with_two(
                Code::WrongSsrc,
                u64::from(got),
                u64::from(wanted),
            ),
            Refusal::Spent => PlainReply::bare(Code::Spent),
            Refusal::Late { next } => PlainReply::with(Code::Late, next),
            Refusal::Repeat => PlainReply::bare(Code::Repeat),
            Refusal::Empty => PlainReply::bare(Code::Empty),
            Refusal::NotKept { oldest, next } => PlainReply::with_two(
                Code::NotKept,
                u64::from(oldest),
                u64::from(next),
            ),
            Refusal::Ahead {
                newest: Some(newest),
            } => PlainReply::with(Code::Ahead, newest),
            Refusal::Ahead { newest: None } => PlainReply::bare(Code::Ahead),
            Refusal::TooOld { oldest } => PlainReply::with(Code::TooOld, oldest),
            Refusal::Plain => PlainReply::bare(Code::Plain),
            Refusal::NoMemory => PlainReply::bare(Code::NoMemory),
        }
    }
}

// Returns a verdict on a frame, as numbers.
fn of_verdict(verdict: Verdict) -> PlainReply
    ensures read_back { reply_in result ≡ reply.Cause verdict }
    ensures code { result.code < 32 }
    ensures exact { result ≡ plain_verdict verdict }
{
    match verdict {
        Verdict::Passed => PlainReply::bare(Code::Passed),
        Verdict::NotOfTarget {
            target: Some(target),
        } => PlainReply::with(Code::NotOfTarget, u64::from(target)),
        Verdict::NotOfTarget { target: None } => PlainReply::bare(Code::NotOfTarget),
        Verdict::Behind { fdiff, start } => PlainReply::with_two(
            Code::Behind,
            u64::from(fdiff),
            start,
        ),
        Verdict::Reference { number } => PlainReply::with(Code::Reference, number),
        Verdict::Full { queued, needed } => PlainReply::with_two(
            Code::Full,
            u64::from(queued),
            u64::from(needed),
        ),
        Verdict::Link { at, number } => PlainReply::with_two(Code::Link, at, number),
        Verdict::Unopened { since } => PlainReply::with(Code::Unopened, since),
        Verdict::Hole {
            below: Some(below),
            above,
        } => PlainReply::with_two(Code::Hole, above, below),
        Verdict::Hole { below: None, above } => PlainReply {
            code: Code::Hole as u32,
            has: false,
            first: above,
            second: 0,
        },
    }
}

fn fault_number(fault: RtpFault) -> u64
    ensures read_back { fault_in result ≡ fault }
    ensures exact { result ≡ number_of_fault fault }
{
    match fault {
        RtpFault::Short => 0,
        RtpFault::Version => 1,
        RtpFault::Csrc => 2,
        RtpFault::Extension => 3,
        RtpFault::Padding => 4,
    }
}
