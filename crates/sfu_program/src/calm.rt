// The top call over a source, a sink and ports that can't fail.
ghost use Rattle.std.specs.Prelude.{◌≡◌};
ghost use Rattle.sfu_program.specs.Complete.{IsInside};

use crate::sfu::sfu;
use sfu_base::{CalmPorts, CalmSink, CalmSource, Clock, Ports};
use std::alloc::Global;
use std::sync::Wait;
use std::thread::Threads;

/// Does the same as [`sfu`]. The source, the sink and the ports never fail here. Therefore the status is 0, 2, 5, 6, 8 or 10.
pub fn sfu_calm<W: Threads + Wait + Sync, C: Clock + Sync>(
    rt: &W,
    alloc: Global,
    words: &[String],
    source: &mut CalmSource,
    sink: &mut CalmSink,
    ports: &mut CalmPorts,
    clock: &C,
) -> u8
    requires unbound { ⟦<CalmPorts as Ports>⟧.bound ports.old ≡ 0 }
    ensures { IsInside result }
{
    sfu(rt, alloc, words, source, sink, ports, clock)
}
