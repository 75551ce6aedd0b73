// Records packets as an IVF file.
ghost use Rattle.std.specs.Prelude.{◌≡◌, ◌<◌, ◌≤◌, None, drop, length};
ghost use Rattle.room_c.specs.declared.code.Code.TheVariants.{BadExtensionId, NoSpace, TooLong};
ghost use Rattle.room_c.specs.Codes.{code_number};
ghost use Rattle.room_c.specs.Taping.{Feeds, Gives, OpensRecorder, file_bytes_written};
ghost use Rattle.room_c.specs.Numbers.{bare_of};

use crate::answers::PACKET_ROOM;
use crate::code::Code;
use crate::plain_reply::PlainReply;
use crate::recorder_handle::RecorderHandle;
use crate::tape::Tape;
use ivf_recorder::IvfRecorder;
use std::alloc::Global;

/// Opens a recorder, as `IvfRecorder::new` does, and puts it into a handle that has no recorder. Returns `Done`. Each recorded packet has its dependency
/// descriptor in the header extension element with the id `id` (RFC 8285). `HasRecorder`: the handle already has a recorder; nothing changes. `NoMemory`:
/// memory ran out, and the handle still has no recorder. `BadExtensionId`: `id` is 0; nothing changes.
#[unsafe(no_mangle)]
pub extern "C" fn zoftemar_recorder_open(
    alloc: Global,
    recorder: &mut RecorderHandle,
    id: u8,
) -> u32
    ensures opens { 0 < id → OpensRecorder id recorder.old.held.tape recorder.new.held.tape result }
    ensures bad { id ≡ 0 → (result ≡ code_number BadExtensionId) × (recorder.new.held.tape ≡ recorder.old.held.tape) }
{
    if id == 0 {
        return Code::BadExtensionId as u32;
    }
    match recorder.take(alloc) {
        Some(tape) => {
            recorder.put(tape);
            Code::HasRecorder as u32
        }
        None => start(alloc, recorder, id),
    }
}

/// Feeds the next packet to a recorder, as `IvfRecorder::feed` does. Returns `Done`. Faults of the packet: `Unread`, `OtherSource`, `OutOfSequence`,
/// `NoStructure`, `NotWhole`, `MissingReference`, `NotObu`. After such a fault, the file has the frames before the fault. Until the recorder is finished,
/// every later feed of at most 2,048 bytes returns the same fault. The following codes change nothing. `TooLong`: the packet has more than 2,048 bytes.
/// `NoRecorder`: the handle has no recorder. `Finished`: the recorder is finished. `NoMemory`: memory ran out.
#[unsafe(no_mangle)]
pub extern "C" fn zoftemar_recorder_feed(
    alloc: Global,
    recorder: &mut RecorderHandle,
    bytes: &[u8],
) -> PlainReply
    ensures feeds { length bytes.now ≤ 2048 → Feeds recorder.old.held.tape recorder.new.held.tape bytes.now result }
    ensures long { 2048 < length bytes.now → (result ≡ bare_of TooLong) × (recorder.new.held.tape ≡ recorder.old.held.tape) }
{
    if bytes.len() > PACKET_ROOM {
        return PlainReply::bare(Code::TooLong);
    }
    match recorder.take(alloc) {
        None => PlainReply::bare(Code::NoRecorder),
        Some(mut tape) => {
            let rc = tape.feed(bytes);
            recorder.put(tape);
            rc
        }
    }
}

/// Finishes a recorder, and writes the next bytes of its file to the start of `out`, as many as fit into `out`. `FilePiece`: `first` bytes were written,
/// and `second` bytes are left. `Done`: earlier calls wrote all bytes of the file. This call allocates no memory. `NoSpace`: `out` is empty; nothing
/// changes. `NoRecorder`: the handle has no recorder.
#[unsafe(no_mangle)]
pub extern "C" fn zoftemar_recorder_finish(
    alloc: Global,
    recorder: &mut RecorderHandle,
    out: &mut [u8],
) -> PlainReply
    ensures gives { 0 < length out.old → Gives recorder.old.held.tape recorder.new.held.tape (length out.old) result out.new }
    ensures rest { drop (file_bytes_written result) out.new ≡ drop (file_bytes_written result) out.old }
    ensures short { length out.old ≡ 0 → (result ≡ bare_of NoSpace) × (recorder.new.held.tape ≡ recorder.old.held.tape) × (out.new ≡ out.old) }
{
    if out.is_empty() {
        return PlainReply::bare(Code::NoSpace);
    }
    match recorder.take(alloc) {
        None => PlainReply::bare(Code::NoRecorder),
        Some(mut tape) => {
            let rc = tape.finish(alloc, out);
            recorder.put(tape);
            rc
        }
    }
}

/// Closes a recorder, finished or not. Afterwards the handle has no recorder, and another recorder may be put into the handle.
#[unsafe(no_mangle)]
pub extern "C" fn zoftemar_recorder_close(alloc: Global, recorder: &mut RecorderHandle)
    ensures { recorder.new.held.tape ≡ None }
{
    drop(recorder.take(alloc));
}

// Opens a recorder behind a handle that has no recorder.
fn start(alloc: Global, recorder: &mut RecorderHandle, id: u8) -> u32
    requires { recorder.old.held.tape ≡ None }
    ensures { OpensRecorder id None recorder.new.held.tape result }
{
    let Ok(opened) = IvfRecorder::new(alloc, id) else {
        return Code::NoMemory as u32;
    };
    match Box::new(alloc, Tape::Taking(opened)) {
        Ok(tape) => {
            recorder.put(tape);
            Code::Done as u32
        }
        Err(_) => Code::NoMemory as u32,
    }
}
