// Opens and closes sessions.
ghost use Rattle.std.specs.Prelude.{◌≡◌, ◌≢◌, ◌<◌, ◌≤◌, ◌⊎◌, ℕ, None};
ghost use Rattle.session_steps.specs.Sessions.{Doing, publisher_deed, outgoing_deed};
ghost use Rattle.room_sessions.specs.Either.{either_left};
ghost use Rattle.room_c.specs.declared.code.Code.TheVariants.{BadStream};
ghost use Rattle.room_c.specs.Codes.{code_number};
ghost use Rattle.room_c.specs.Attending.{Opens};
ghost use Rattle.rtx_stream.specs.declared.retransmission.Rtx.{Rtx as Stream};

use crate::attended::Attended;
use crate::code::Code;
use crate::session_handle::SessionHandle;
use room_sessions::EitherSession;
use rtx_stream::Rtx;
use session_steps::{PublisherSession, SubscriberSession};
use std::alloc::Global;

/// Opens a session of a track's publisher, as `PublisherSession::new` does, and puts it into a handle that has no session. Returns `Done`. `ssrc` is the
/// SSRC of the publisher's packets. `HasSession`: the handle already has a session; nothing changes. `NoMemory`: memory ran out, and the handle still has
/// no session.
#[unsafe(no_mangle)]
pub extern "C" fn zoftemar_open_publisher(
    alloc: Global,
    session: &mut SessionHandle,
    track: u32,
    ssrc: u32,
) -> u32
    ensures { Opens (λ turns. publisher_deed track ssrc turns None None) session.old.held.attended session.new.held.attended result }
{
    open(
        alloc,
        session,
        EitherSession::Publisher(PublisherSession::new(track, ssrc)),
    )
}

/// Opens a session of a subscriber, and puts it into a handle that has no session. Each retransmission in this session has the same bytes as the original
/// packet. `ssrc` is the SSRC of the media sent to the subscriber. The codes are those of `zoftemar_open_publisher`.
#[unsafe(no_mangle)]
pub extern "C" fn zoftemar_open_subscriber(
    alloc: Global,
    session: &mut SessionHandle,
    subscriber: u32,
    ssrc: u32,
) -> u32
    ensures { Opens (λ turns. outgoing_deed subscriber ssrc None turns 0) session.old.held.attended session.new.held.attended result }
{
    open(
        alloc,
        session,
        EitherSession::Subscriber(SubscriberSession::new(subscriber, ssrc, None)),
    )
}

/// Opens a session of a subscriber, as `zoftemar_open_subscriber` does. But this session sends retransmissions on a separate stream (RFC 4588). The
/// sequence numbers of this stream start at 0. `BadStream`: `rtx_payload_type` is 128 or more, or `rtx_ssrc` equals `ssrc`; nothing changes.
#[unsafe(no_mangle)]
pub extern "C" fn zoftemar_open_rtx_subscriber(
    alloc: Global,
    session: &mut SessionHandle,
    subscriber: u32,
    ssrc: u32,
    rtx_ssrc: u32,
    rtx_payload_type: u8,
) -> u32
    ensures opens { rtx_ssrc ≢ ssrc → rtx_payload_type < 128
        → Opens (λ turns. outgoing_deed subscriber ssrc (Some (record { ssrc = rtx_ssrc; payload_type = rtx_payload_type })) turns 0) session.old.held.attended session.new.held.attended result }
    ensures bad { (rtx_ssrc ≡ ssrc) ⊎ (128 ≤ rtx_payload_type) → (result ≡ code_number BadStream) × (session.new.held.attended ≡ session.old.held.attended) }
{
    if rtx_ssrc == ssrc {
        return Code::BadStream as u32;
    }
    if rtx_payload_type >= 128 {
        return Code::BadStream as u32;
    }
    let rtx = Rtx {
        ssrc: rtx_ssrc,
        payload_type: rtx_payload_type,
    };
    open(
        alloc,
        session,
        EitherSession::Subscriber(SubscriberSession::new(subscriber, ssrc, Some(rtx))),
    )
}

/// Closes a session. Afterwards the handle has no session, and another session may be put into the handle.
#[unsafe(no_mangle)]
pub extern "C" fn zoftemar_close_session(alloc: Global, session: &mut SessionHandle)
    ensures { session.new.held.attended ≡ None }
{
    drop(session.take(alloc));
}

fn open(alloc: Global, session: &mut SessionHandle, opened: EitherSession) -> u32
    ensures { (rule : ℕ → Doing) → ((turns : ℕ) → either_left opened turns ≡ rule turns) → Opens rule session.old.held.attended session.new.held.attended result }
{
    match session.take(alloc) {
        Some(attended) => {
            session.put(attended);
            Code::HasSession as u32
        }
        None => match Box::new(alloc, Attended::new(opened)) {
            Ok(attended) => {
                session.put(attended);
                Code::Done as u32
            }
            Err(_) => Code::NoMemory as u32,
        },
    }
}
