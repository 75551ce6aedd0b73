// Runs a session: passes received datagrams to the session, makes the session's calls, and returns the datagrams to send.
ghost use Rattle.std.specs.Prelude.{◌≡◌, ◌<◌, ◌≤◌, None, Ok, Some, drop, length, take};
ghost use Rattle.session_steps.specs.declared.session.Output.TheVariants as sends;
ghost use Rattle.room_c.specs.declared.code.Code.TheVariants.{NoSpace, TooLong};
ghost use Rattle.room_c.specs.Attending.{Hears, WorksBoth, WorksOn, output_reply};
ghost use Rattle.room_c.specs.Numbers.{bare_of, bytes_written};

use crate::answers::{PACKET_ROOM, give_packet};
use crate::attended::Attended;
use crate::code::Code;
use crate::handle::Handle;
use crate::home::Home;
use crate::plain_reply::PlainReply;
use crate::session_handle::SessionHandle;
use crate::working::work;
use session_steps::Output;
use sfu_base::PacketBuf;
use simulcast::BundleFault;
use std::alloc::Global;

/// Begins a turn of a session with a received datagram, as `Session::received` does. The datagram was received at `moment`, in milliseconds. Returns
/// `Done`. The following codes change nothing. `TooLong`: the datagram has more than 2,048 bytes. `NoSession`: the handle has no session. `Busy`: the
/// session still has a call to make.
#[unsafe(no_mangle)]
pub extern "C" fn zoftemar_session_received(
    alloc: Global,
    session: &mut SessionHandle,
    moment: u64,
    bytes: &[u8],
) -> PlainReply
    ensures hears { length bytes.now ≤ 2048 → Hears session.old.held.attended session.new.held.attended (Some bytes.now) moment result }
    ensures long { 2048 < length bytes.now → (result ≡ bare_of TooLong) × (session.new.held.attended ≡ session.old.held.attended) }
{
    if bytes.len() > PACKET_ROOM {
        return PlainReply::bare(Code::TooLong);
    }
    match session.take(alloc) {
        None => PlainReply::bare(Code::NoSession),
        Some(mut attended) => {
            let rc = attended.hear(true, moment, bytes);
            session.put(attended);
            rc
        }
    }
}

/// Begins a turn of a session without a datagram. The turn begins at `moment`, in milliseconds. Returns `Done`. The following codes change nothing.
/// `NoSession`: the handle has no session. `Busy`: the session still has a call to make.
#[unsafe(no_mangle)]
pub extern "C" fn zoftemar_session_waited(
    alloc: Global,
    session: &mut SessionHandle,
    moment: u64,
) -> PlainReply
    ensures { Hears session.old.held.attended session.new.held.attended None moment result }
{
    match session.take(alloc) {
        None => PlainReply::bare(Code::NoSession),
        Some(mut attended) => {
            let rc = attended.hear(false, moment, &[]);
            session.put(attended);
            rc
        }
    }
}

/// Makes a session's calls on a room. Stops when the session has a datagram to send, or when no call is left. `Packet`: the datagram to send is at the
/// start of `out`. `Done`: no call is left, and the session waits for the next datagram. `Bound`: the session's next call would take a packet from a leg of
/// bundle `first`. This next call wasn't made; the calls before it were made. The following codes change nothing. `NoSpace`: `out` has fewer than 2,048
/// bytes. `NoSession`: the handle has no session. `NoRoom`: the handle has no room.
#[unsafe(no_mangle)]
pub extern "C" fn zoftemar_session_work(
    alloc: Global,
    session: &mut SessionHandle,
    room: &mut Handle,
    seat: u32,
    out: &mut [u8],
) -> PlainReply
    ensures works { 2048 ≤ length out.old → WorksBoth room.old.held.home room.new.held.home session.old.held.attended session.new.held.attended seat result out.new }
    ensures rest { drop (bytes_written result) out.new ≡ drop (bytes_written result) out.old }
    ensures short { length out.old < 2048 → (result ≡ bare_of NoSpace) × (room.new.held.home ≡ room.old.held.home)
        × (session.new.held.attended ≡ session.old.held.attended) × (out.new ≡ out.old) }
{
    if out.len() < PACKET_ROOM {
        return PlainReply::bare(Code::NoSpace);
    }
    match session.take(alloc) {
        None => PlainReply::bare(Code::NoSession),
        Some(mut attended) => {
            let rc = work_on(alloc, room, seat, &mut attended, out);
            session.put(attended);
            rc
        }
    }
}

// Does the same as `zoftemar_session_work`, for an existing session and a buffer of at least 2,048 bytes.
fn work_on(
    alloc: Global,
    room: &mut Handle,
    seat: u32,
    attended: &mut Attended,
    out: &mut [u8],
) -> PlainReply
    requires { 2048 ≤ length out.old }
    ensures works { WorksOn room.old.held.home room.new.held.home attended.old attended.new seat result out.new }
    ensures rest { drop (bytes_written result) out.new ≡ drop (bytes_written result) out.old }
{
    match room.take(alloc) {
        None => PlainReply::bare(Code::NoRoom),
        Some(mut home) => {
            let Attended { session, scratch } = attended;
            let output = work(&mut home.bundles, seat, session, scratch);
            room.put(home);
            give_output(output, &scratch.packet, out)
        }
    }
}

// If the output is a packet, writes the packet to the start of `out`, which must have at least 2,048 bytes. Returns the output, or the fault that stopped the
// work, as a reply.
fn give_output(
    output: Result<Output, BundleFault>,
    packet: &PacketBuf,
    out: &mut [u8],
) -> PlainReply
    requires { 2048 ≤ length out.old }
    ensures reply_is { result ≡ output_reply output packet.now }
    ensures gives { output ≡ Ok sends.Packet → take result.first out.new ≡ packet.now }
    ensures rest { drop (bytes_written result) out.new ≡ drop (bytes_written result) out.old }
{
    match output {
        Ok(Output::Nothing) => PlainReply::bare(Code::Done),
        Ok(Output::Packet) => give_packet(packet, out),
        Err(why) => PlainReply::of_fault(why),
    }
}
