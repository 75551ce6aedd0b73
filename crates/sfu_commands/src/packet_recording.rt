// The command `record`.
ghost use Rattle.std.specs.Prelude.{◌≡◌, ◌++◌, ℕ, [], IfOk, OnErr, OnOk};
ghost use Rattle.sfu_commands.specs.Check.{Reception, nothing_received};
ghost use Rattle.sfu_commands.specs.Record.{HasRecorded, IsRecordStatus, Records, file_of, obu_line, recorded};
ghost use Rattle.script_texts.specs.WholeLines.{fault_line};
ghost use Rattle.sfu_driver.specs.Statuses.{number_of};
ghost use Rattle.sfu_driver.specs.Exchange.{exchange_of};

use crate::packet_check::add_complaint;
use ivf_recorder::{IvfRecorder, RecordFault};
use script_texts::{add_fault, end_line, write_obu};
use sfu_base::{Blob, NoMemory, PacketBuf, Sink, Source};
use sfu_driver::{Ending, Halt, Judge, Lines, Status, Units, answer};
use sfu_script::{PacketReader, is_skipped};
use std::alloc::Global;

/// Feeds the packet of each line to a recorder, and takes the recorder's file at the end.
#[derive(Drop)]
pub struct PacketRecorder {
    pub recorder: Option<IvfRecorder>,
    pub reader: PacketReader,
    pub packet: PacketBuf,
}

// Appends the line `line N obu` (N is `number`) to `ready`, the output so far: in the frame that ends at line N an element isn't an OBU. After
// `NoMemory` the output is unchanged.
fn add_obu(number: u32, ready: &mut Blob) -> Result<(), NoMemory>
    ensures ok { OnOk result (ready.new ≡ ready.old ++ obu_line number) }
    ensures err { OnErr result (ready.new ≡ ready.old) }
{
    let start = ready.bytes().len();
    write_obu(number, ready)?;
    end_line(start, ready)
}

impl PacketRecorder {
    /// Returns a recorder that has received no packet yet. `id` is the header extension id of the dependency descriptors.
    pub fn new(alloc: Global, id: u8) -> Result<PacketRecorder, NoMemory>
        ensures { IfOk result (λ judge. HasRecorded judge.recorder (nothing_received id)) }
    {
        Ok(PacketRecorder {
            recorder: Some(IvfRecorder::new(alloc, id)?),
            reader: PacketReader::new(),
            packet: PacketBuf::new(),
        })
    }
}

impl Judge for PacketRecorder {
    ghost State = { Reception };

    ghost stands = { λ judge reception. HasRecorded judge.recorder reception };

    ghost step = { recorded };

    ghost outside = { fault_line };

    ghost closing = { file_of };

    fn judge(&mut self, number: u32, line: &[u8], ready: &mut Blob) -> Result<(), Halt> {
        if is_skipped(line) {
            return Ok(());
        }
        if self.reader.read(line, &mut self.packet).is_err() {
            add_fault(u64::from(number), ready)?;
            return Err(Halt::Ended(Ending::Outside));
        }
        let Some(recorder) = &mut self.recorder else {
            return Err(Halt::Starved);
        };
        match recorder.feed(self.packet.bytes()) {
            Ok(()) => Ok(()),
            Err(RecordFault::NoMemory) => Err(Halt::Starved),
            Err(RecordFault::Complaint(complaint)) => {
                add_complaint(number, &complaint, ready)?;
                Err(Halt::Ended(Ending::Complaint))
            }
            Err(RecordFault::Obu) => {
                add_obu(number, ready)?;
                Err(Halt::Ended(Ending::Obu))
            }
        }
    }

    fn refuse(&self, number: u64, ready: &mut Blob) -> Result<(), NoMemory> {
        add_fault(number, ready)
    }

    // If `ready` is empty, the file is moved into it instead of copied.
    fn close(&mut self, ready: &mut Blob) -> Result<(), NoMemory> {
        let Some(recorder) = self.recorder.take() else {
            return Err(NoMemory);
        };
        let file = recorder.finish();
        if ready.bytes().is_empty() {
            *ready = file;
            return Ok(());
        }
        ready.append(file.bytes())
    }
}

/// Records the packets of the source's lines as an IVF file. `id` is the header extension id of the dependency descriptors. Returns the command's
/// status.
#[inline(never)]
pub fn record<S: Source, K: Sink>(alloc: Global, id: u8, source: &mut S, sink: &mut K) -> Status
    ensures records { Records id (exchange_of S.left S.faults K.written K.faults source.old source.new sink.old sink.new) (number_of result) }
    ensures only { IsRecordStatus (number_of result) }
{
    let Ok(judge) = PacketRecorder::new(alloc, id) else {
        return Status::NoMemory;
    };
    let mut units = Units::new(Lines, judge, 1);
    answer(alloc, &mut units, source, sink)
}
