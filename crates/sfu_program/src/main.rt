//! The program `sfu`. Its top call, `sfu`, is generic over the source, the sink, the ports and the clock. `main` passes standard input, standard
//! output, UDP ports and the system's clock.
#![tactic(auto)]

mod alone;
mod bundling;
mod calm;
mod serve;
mod sfu;
#[cfg(test)]
mod tests;

use sfu_driver::Status;
use sfu_edge::{StdSink, StdSource, SysClock, UdpPorts, WakeTable};
use std::process::ExitCode;
use std::{env, io};

// Returns the command-line arguments. If one isn't valid UTF-8, returns no arguments, which aren't a command.
fn arguments(rt: &HostRuntime) -> io::Result<Vec<String>> {
    let mut words = Vec::new(rt.alloc());
    let all = match env::args(rt) {
        Err(fault) if fault.kind() == io::ErrorKind::InvalidData => return Ok(words),
        all => all?,
    };
    for word in all.skip(1) {
        words.push(word)?;
    }
    Ok(words)
}

fn main(rt: HostRuntime) -> ExitCode {
    let Ok(words) = arguments(&rt) else {
        return ExitCode::from(Status::NoMemory.number());
    };
    let mut source = StdSource::new(&rt, rt.stdin());
    let mut sink = StdSink::new(&rt, rt.stdout());
    let Ok(table) = WakeTable::new(rt.alloc()) else {
        return ExitCode::from(Status::NoMemory.number());
    };
    let mut ports = UdpPorts::new(&rt, rt.alloc(), &table);
    let clock = SysClock::new(&rt);
    ExitCode::from(sfu::sfu(
        &rt,
        rt.alloc(),
        words.as_slice(),
        &mut source,
        &mut sink,
        &mut ports,
        &clock,
    ))
}
