// Reads a small text to its end.
ghost use Rattle.std.specs.Prelude.{◌≤◌};
ghost use Rattle.sfu_driver.specs.Lines.{line_scan, line_scan_end};
ghost use Rattle.sfu_driver.specs.Units.{rule_of};
ghost use Rattle.port_config.specs.Driven.{WasDriven};

use sfu_base::{Sink, Source};
use sfu_driver::{Judge, Lines, Status, Units, drive};
use std::alloc::Global;

/// Passes all lines of the source to the judge, and then returns the judge. On an error, returns the command's status: 3 if the source can't be read, 4 if
/// the sink fails, 6 if memory runs out. If the judge ends the command, the status says why: for example, 5 if a line is outside the grammar.
pub fn read_all<J: Judge + Drop, S: Source, K: Sink>(
    alloc: Global,
    judge: J,
    source: &mut S,
    sink: &mut K,
) -> Result<J, Status>
    ensures drove { (state : J.State) → J.stands judge state
        → WasDriven J.stands (rule_of line_scan line_scan_end J.step J.outside J.closing) state (S.left source.old) (S.left source.new)
        (K.written sink.old) (K.written sink.new) (S.faults source.old) (S.faults source.new) (K.faults sink.old) (K.faults sink.new) result }
    ensures never_falls { K.faults sink.old ≤ K.faults sink.new }
{
    let mut units = Units::new(Lines, judge, 1);
    let came_out = drive(alloc, &mut units, source, sink);
    if came_out.is_err() {
        return Err(Status::of(came_out));
    }
    let Units {
        cut: _,
        judge: driven,
        number: _,
        kept: _,
    } = units;
    Ok(driven)
}
