// The command and its status.
ghost use Rattle.sfu_driver.specs.Exchange.{exchange_of};
ghost use Rattle.sfu_driver.specs.Statuses.{number_of};
ghost use Rattle.sfu_program.specs.Simulcast.{IsSimulcastStatus, Simulcasts};
ghost use Rattle.sfu_program.specs.SimulcastPromise.{AreBundlesServed};

use crate::bundling::server::BundleServer;
use sfu_base::{Sink, Source};
use sfu_driver::{Lines, Status, Units, answer};
use std::alloc::Global;

/// Runs a script, in which calls on bundles are allowed too: serves each line, and writes a line for each reply. Returns the status.
pub fn run_with_bundles<S: Source, K: Sink>(alloc: Global, source: &mut S, sink: &mut K) -> Status
    ensures simulcasts { Simulcasts (exchange_of S.left S.faults K.written K.faults source.old source.new sink.old sink.new) (number_of result) }
    ensures only { IsSimulcastStatus (number_of result) }
    ensures headline { AreBundlesServed }
{
    let mut units = Units::new(Lines, BundleServer::new(alloc), 1);
    answer(alloc, &mut units, source, sink)
}
