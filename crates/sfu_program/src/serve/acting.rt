// Executes a configuration: makes its calls, runs the sessions of its ports, and returns the status.
ghost use Rattle.std.specs.Prelude.{◌≡◌, ◌≤◌, ◌<◌, ◌^◌, IfOk, IsTrue, length, vec_len};
ghost use Rattle.turn_lock.specs.Known.{Fits};
ghost use Rattle.port_config.specs.ports.Script.{all_apart};
ghost use Rattle.sfu_program.specs.Serve.{Acts, Ends};
ghost use Rattle.sfu_program.specs.ServeOpening.{HasMade, first_text};
ghost use Rattle.sfu_program.specs.ServePorts.{seen_ports};
ghost use Rattle.sfu_driver.specs.Statuses.{number_of};

use super::opening::{Unmade, make_calls};
use super::ports::{Unbound, bind_all};
use super::running::{end_all, run_all};
use port_config::Served;
use room_core::{KeepNone, Room};
use sfu_base::{Blob, Call, Clock, NoMemory, Ports, Sink};
use sfu_driver::{Status, write_all};
use sfu_serve::SharedRoom;
use std::alloc::Global;
use std::sync::Wait;
use std::thread::Threads;
use turn_lock::{Seat, Turns};

/// Creates a room and a lock that guards it, and makes these calls on the room. Returns the lock, the seat that made the calls, and the lines of the
/// replies.
fn open<W: Wait + Sync>(
    rt: &W,
    alloc: Global,
    calls: &[Call],
) -> Result<
    (
        Turns<SharedRoom<KeepNone>>,
        Seat<SharedRoom<KeepNone>>,
        Blob,
    ),
    NoMemory,
>
    requires { length calls.now < 2 ^ 32 }
    ensures made { IfOk result (λ opened. HasMade opened.0 calls.now opened.1) }
    ensures fits { IfOk result (λ opened. Fits opened.1) }
    ensures text { IfOk result (λ opened. opened.2 ≡ first_text calls.now) }
{
    let room = SharedRoom {
        room: Room::new(alloc, KeepNone::new()),
    };
    let (turns, mut seat) = Turns::new(alloc, room, 0)?;
    let mut ready = Blob::new(alloc);
    match make_calls(rt, &turns, &mut seat, calls, &mut ready) {
        Ok(()) => Ok((turns, seat, ready)),
        Err(Unmade::Starved) => Err(NoMemory),
        Err(Unmade::Worn) => {
            let _room = turns.close(seat);
            unreachable!()
        }
    }
}

/// Binds the ports, runs their sessions, releases the ports, writes a line for each session, and returns the status.
fn serve_ports<P: Ports, K: Sink, C: Clock + Sync, W: Threads + Wait + Sync>(
    rt: &W,
    alloc: Global,
    turns: Turns<SharedRoom<KeepNone>>,
    seat: Seat<SharedRoom<KeepNone>>,
    served: &Served,
    ports: &mut P,
    clock: &C,
    limit: u64,
    sink: &mut K,
) -> Status
    requires made { HasMade turns served.now.calls seat }
    requires fits { Fits seat }
    requires calls { length served.now.calls < 2 ^ 32 }
    requires few { vec_len served.now.ports ≤ 64 }
    requires apart { IsTrue (all_apart served.now.ports.items) }
    requires limited { limit ≤ 1000000000000 }
    requires unbound { P.bound ports.old ≡ 0 }
    requires none_back { P.back_count ports.old ≡ 0 }
    ensures ports { P.faults ports.old ≤ P.faults ports.new }
    ensures sink { K.faults sink.old ≤ K.faults sink.new }
    ensures ends { Ends P.Port.traffic P.Port.faults P.Port.name limit served.now.calls served.now.ports.items (K.written sink.old) (K.written sink.new)
        (K.faults sink.old) (K.faults sink.new)
        (seen_ports (P.bound ports.old) (P.back_count ports.old) (P.returned ports.old) (P.faults ports.old))
        (seen_ports (P.bound ports.new) (P.back_count ports.new) (P.returned ports.new) (P.faults ports.new)) (number_of result) }
{
    let jobs = match bind_all(alloc, served.ports.as_slice(), ports) {
        Ok(jobs) => jobs,
        Err(Unbound::Starved) => return Status::NoMemory,
        Err(Unbound::PortFault) => return Status::PortFault,
    };
    let Ok(ended) = run_all(rt, alloc, turns, seat, jobs, clock, limit) else {
        return Status::NoMemory;
    };
    end_all(alloc, ended, ports, sink)
}

/// Executes a configuration, and returns the status: 0 if each session made all its turns, 4 if the sink failed, 6 if memory ran out, 7 if a port
/// wasn't bound or the link of a session failed.
pub fn act<P: Ports, K: Sink, C: Clock + Sync, W: Threads + Wait + Sync>(
    rt: &W,
    alloc: Global,
    limit: u64,
    served: &Served,
    sink: &mut K,
    ports: &mut P,
    clock: &C,
) -> Status
    requires calls { length served.now.calls < 2 ^ 32 }
    requires few { vec_len served.now.ports ≤ 64 }
    requires apart { IsTrue (all_apart served.now.ports.items) }
    requires limited { limit ≤ 1000000000000 }
    requires unbound { P.bound ports.old ≡ 0 }
    requires none_back { P.back_count ports.old ≡ 0 }
    ensures ports { P.faults ports.old ≤ P.faults ports.new }
    ensures sink { K.faults sink.old ≤ K.faults sink.new }
    ensures acts { Acts P.Port.traffic P.Port.faults P.Port.name limit served.now.calls served.now.ports.items (K.written sink.old) (K.written sink.new)
        (K.faults sink.old) (K.faults sink.new)
        (seen_ports (P.bound ports.old) (P.back_count ports.old) (P.returned ports.old) (P.faults ports.old))
        (seen_ports (P.bound ports.new) (P.back_count ports.new) (P.returned ports.new) (P.faults ports.new)) (number_of result) }
{
    let Ok((turns, seat, ready)) = open(rt, alloc, served.calls.calls()) else {
        return Status::NoMemory;
    };
    if write_all(sink, ready.bytes()).is_err() {
        return Status::SinkFault;
    }
    serve_ports(rt, alloc, turns, seat, served, ports, clock, limit, sink)
}
