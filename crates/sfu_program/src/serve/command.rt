// The command `serve`, from its source to its status.
ghost use Rattle.std.specs.Prelude.{◌≡◌, ◌≤◌};
ghost use Rattle.sfu_program.specs.Serve.{Serves};
ghost use Rattle.sfu_program.specs.ServePorts.{seen_ports};
ghost use Rattle.sfu_driver.specs.Statuses.{number_of};
ghost use Rattle.sfu_driver.specs.Exchange.{exchange_of};

use super::acting::act;
use port_config::read_served;
use sfu_base::{Clock, Ports, Sink, Source};
use sfu_driver::Status;
use std::alloc::Global;
use std::sync::Wait;
use std::thread::Threads;

/// Reads a configuration to its end, makes its calls, and writes their replies. Then binds the ports of the configuration in order. For each port,
/// runs a session of `limit` turns. Each session runs on its own thread. Then releases the ports in order, writes a line for each session, and
/// returns the status.
pub fn serve<S: Source, K: Sink, P: Ports, C: Clock + Sync, W: Threads + Wait + Sync>(
    rt: &W,
    alloc: Global,
    limit: u64,
    source: &mut S,
    sink: &mut K,
    ports: &mut P,
    clock: &C,
) -> Status
    requires limited { limit ≤ 1000000000000 }
    requires unbound { P.bound ports.old ≡ 0 }
    requires none_back { P.back_count ports.old ≡ 0 }
    ensures { Serves P.Port.traffic P.Port.faults P.Port.name limit (exchange_of S.left S.faults K.written K.faults source.old source.new sink.old sink.new)
        (seen_ports (P.bound ports.old) (P.back_count ports.old) (P.returned ports.old) (P.faults ports.old))
        (seen_ports (P.bound ports.new) (P.back_count ports.new) (P.returned ports.new) (P.faults ports.new)) (number_of result) }
{
    match read_served(alloc, source, sink) {
        Ok(served) => act(rt, alloc, limit, &served, sink, ports, clock),
        Err(status) => status,
    }
}
