// The heap value behind a recorder's handle.
use crate::code::Code;
use crate::file_rest::FileRest;
use crate::plain_reply::PlainReply;
use forwarding_model::Complaint;
use ivf_recorder::{IvfRecorder, RecordFault};
use sfu_base::Blob;
use std::alloc::Global;
use std::mem::replace;

/// A recorder that takes packets, or the remaining bytes of a finished recorder's file.
#[derive(Drop)]
pub enum Tape {
    /// The recorder takes packets.
    Taking(IvfRecorder),
    /// The recorder is finished. The value holds the bytes of the file that C hasn't fetched yet.
    Giving(FileRest),
}

impl Tape {
    ghost use Rattle.std.specs.Prelude.{◌≡◌, ◌≤◌, ◌<◌, ℕ, List, drop, length};
    ghost use Rattle.room_c.specs.Taping.{FeedsTape, GivesPiece, HasLeft, file_bytes_written};

    /// Feeds a packet to the recorder. If the recorder is finished, returns `Finished` and changes nothing.
    pub fn feed(&mut self, bytes: &[u8]) -> PlainReply
        requires { length bytes.now ≤ 2048 }
        ensures { FeedsTape self.old self.new bytes.now result }
    {
        match self {
            Tape::Taking(recorder) => feed_reply(recorder.feed(bytes)),
            Tape::Giving(_) => PlainReply::bare(Code::Finished),
        }
    }

    // Returns the bytes that C hasn't fetched yet. If the recorder isn't finished, these are all bytes of the file.
    fn into_rest(self) -> FileRest
        ensures { (left : List ℕ) → HasLeft self left → result ≡ left }
    {
        match self {
            Tape::Taking(recorder) => FileRest::of(recorder.finish()),
            Tape::Giving(rest) => rest,
        }
    }

    /// Finishes the recorder, unless it's finished already. Then moves the next bytes of the recorder's file to the start of `out`.
    pub fn finish(&mut self, alloc: Global, out: &mut [u8]) -> PlainReply
        requires { 0 < length out.old }
        ensures gives { GivesPiece self.old self.new (length out.old) result out.new }
        ensures rest { drop (file_bytes_written result) out.new ≡ drop (file_bytes_written result) out.old }
    {
        let finished = Tape::Giving(FileRest::of(Blob::new(alloc)));
        let mut rest = replace(self, finished).into_rest();
        let count = rest.give(out);
        let left = rest.len();
        *self = Tape::Giving(rest);
        if count == 0 {
            PlainReply::bare(Code::Done)
        } else {
            PlainReply::with_two(Code::FilePiece, count as u64, left as u64)
        }
    }
}

ghost use Rattle.std.specs.Prelude.{◌≡◌};
ghost use Rattle.room_c.specs.Taping.{complaint_reply, fed_reply};

// Returns the result of feeding a packet, as numbers.
fn feed_reply(answer: Result<(), RecordFault>) -> PlainReply
    ensures { result ≡ fed_reply answer }
{
    match answer {
        Ok(()) => PlainReply::bare(Code::Done),
        Err(RecordFault::Complaint(complaint)) => of_complaint(complaint),
        Err(RecordFault::Obu) => PlainReply::bare(Code::NotObu),
        Err(RecordFault::NoMemory) => PlainReply::bare(Code::NoMemory),
    }
}

// Returns a complaint of the strict receiver, as numbers.
fn of_complaint(complaint: Complaint) -> PlainReply
    ensures { result ≡ complaint_reply complaint }
{
    match complaint {
        Complaint::Unread => PlainReply::bare(Code::Unread),
        Complaint::OtherSource { had, got } => PlainReply::with_two(
            Code::OtherSource,
            u64::from(got),
            u64::from(had),
        ),
        Complaint::Sequence { had, got } => PlainReply::with_two(
            Code::OutOfSequence,
            u64::from(got),
            u64::from(had),
        ),
        Complaint::NoStructure => PlainReply::bare(Code::NoStructure),
        Complaint::NotWhole => PlainReply::bare(Code::NotWhole),
        Complaint::MissingReference { frame, fdiff } => PlainReply::with_two(
            Code::MissingReference,
            u64::from(frame),
            u64::from(fdiff),
        ),
    }
}
