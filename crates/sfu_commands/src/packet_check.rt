// The command `check`.
ghost use Rattle.std.specs.Prelude.{◌≡◌, ◌++◌, ℕ, [], IfOk, OnErr, OnOk};
ghost use Rattle.script_texts.specs.Texts.{GoesOn};
ghost use Rattle.sfu_commands.specs.Check.{Checks, HasReceived, IsCheckStatus, Reception, checked, complaint_line, counted, nothing_received, ok_line};
ghost use Rattle.script_texts.specs.WholeLines.{fault_line};
ghost use Rattle.sfu_driver.specs.Statuses.{number_of};
ghost use Rattle.sfu_driver.specs.Exchange.{exchange_of};

use itoa::Buffer;
use script_texts::{add_fault, end_line, write_complaint};
use sfu_base::{Blob, NoMemory, PacketBuf, Sink, Source};
use sfu_driver::{Ending, Halt, Judge, Lines, Status, Units, answer};
use sfu_script::{PacketReader, is_skipped};
use std::alloc::Global;
use strict_receiver::{Complaint, Receiver};

/// Feeds the packet of each line to a strict receiver.
#[derive(Drop)]
pub struct PacketJudge {
    pub receiver: Receiver,
    pub reader: PacketReader,
    pub packet: PacketBuf,
}

/// Appends a complaint's line to `ready`, the output so far. After `NoMemory` the output is unchanged.
pub fn add_complaint(number: u32, complaint: &Complaint, ready: &mut Blob) -> Result<(), NoMemory>
    ensures ok { OnOk result (ready.new ≡ ready.old ++ complaint_line number complaint.now) }
    ensures err { OnErr result (ready.new ≡ ready.old) }
{
    let start = ready.bytes().len();
    write_complaint(number, complaint, ready)?;
    end_line(start, ready)
}

fn append_counts(packets: u64, frames: u64, ready: &mut Blob) -> Result<(), NoMemory>
    ensures ok { OnOk result (ready.new ≡ ready.old ++ ok_line packets frames) }
    ensures begun { GoesOn ready.old ready.new }
{
    let mut digits = Buffer::new();
    ready.append(b"ok ")?;
    ready.append(digits.format(packets).as_bytes())?;
    ready.append(b" packets ")?;
    ready.append(digits.format(frames).as_bytes())?;
    ready.append(b" frames\n")
}

// Appends the line of the counts to `ready`, the output so far. After `NoMemory` the output is unchanged.
fn add_counts(packets: u64, frames: u64, ready: &mut Blob) -> Result<(), NoMemory>
    ensures ok { OnOk result (ready.new ≡ ready.old ++ ok_line packets frames) }
    ensures err { OnErr result (ready.new ≡ ready.old) }
{
    let start = ready.bytes().len();
    if append_counts(packets, frames, ready).is_err() {
        ready.truncate(start);
        return Err(NoMemory);
    }
    Ok(())
}

impl PacketJudge {
    /// Returns a judge that has received no packet yet. `id` is the header extension id of the dependency descriptors.
    pub fn new(alloc: Global, id: u8) -> Result<PacketJudge, NoMemory>
        ensures { IfOk result (λ judge. HasReceived judge.receiver (nothing_received id)) }
    {
        Ok(PacketJudge {
            receiver: Receiver::new(alloc, id)?,
            reader: PacketReader::new(),
            packet: PacketBuf::new(),
        })
    }
}

impl Judge for PacketJudge {
    ghost State = { Reception };

    ghost stands = { λ judge reception. HasReceived judge.receiver reception };

    ghost step = { checked };

    ghost outside = { fault_line };

    ghost closing = { counted };

    fn judge(&mut self, number: u32, line: &[u8], ready: &mut Blob) -> Result<(), Halt> {
        if is_skipped(line) {
            return Ok(());
        }
        if self.reader.read(line, &mut self.packet).is_err() {
            add_fault(u64::from(number), ready)?;
            return Err(Halt::Ended(Ending::Outside));
        }
        match self.receiver.feed(self.packet.bytes()) {
            Ok(()) => Ok(()),
            Err(complaint) => {
                add_complaint(number, &complaint, ready)?;
                Err(Halt::Ended(Ending::Complaint))
            }
        }
    }

    fn refuse(&self, number: u64, ready: &mut Blob) -> Result<(), NoMemory> {
        add_fault(number, ready)
    }

    fn close(&mut self, ready: &mut Blob) -> Result<(), NoMemory> {
        add_counts(self.receiver.packets(), self.receiver.frames(), ready)
    }
}

// Out of line: the loop of `run` then keeps its counts in registers.
/// Checks the packets of the source's lines with a strict receiver. `id` is the header extension id of the dependency descriptors. Returns the
/// command's status.
#[inline(never)]
pub fn check<S: Source, K: Sink>(alloc: Global, id: u8, source: &mut S, sink: &mut K) -> Status
    ensures checks { Checks id (exchange_of S.left S.faults K.written K.faults source.old source.new sink.old sink.new) (number_of result) }
    ensures only { IsCheckStatus (number_of result) }
{
    let Ok(judge) = PacketJudge::new(alloc, id) else {
        return Status::NoMemory;
    };
    let mut units = Units::new(Lines, judge, 1);
    answer(alloc, &mut units, source, sink)
}
