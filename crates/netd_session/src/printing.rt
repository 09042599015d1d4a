ghost use Rattle.std.specs.Prelude.{◌≡◌, false};
ghost use Rattle.net_io.specs.Streams.{CanCount};
ghost use Rattle.netd_session.specs.Checks.{IsCausedCheck, IsCheck, printing};
ghost use Rattle.netd_session.specs.Passes.{TakesOne};
ghost use Rattle.netd_session.specs.World.{streams};

use crate::end::Stop;
use crate::output::{offer, tell_bad_line};
use line_input::{Input, Met};
use net_io::{Sink, Source};
use script_reader::{LineFault, print_line, read_line};
use std::alloc::Global;

// Prints the canonical text of one line, which is made in `text`. An error is how the check ends there.
fn print_one<W: Sink>(
    alloc: Global,
    number: u32,
    line: &[u8],
    text: &mut Vec<u8>,
    sink: &mut W,
) -> Result<(), Stop>
    requires { CanCount (W.seen sink.old).faults }
    ensures { TakesOne printing result line.now number tt tt (W.seen sink.old) (W.seen sink.new) }
{
    text.clear();
    match read_line(alloc, line) {
        Err(LineFault::Memory(_)) => Err(Stop::Memory),
        Err(LineFault::Bad { column }) => tell_bad_line(number, column, text, sink),
        Ok(line) => {
            print_line(&line, text)?;
            offer(sink, text)
        }
    }
}

/// Reads the lines of a script from the source and prints each in canonical form, until a bad line, the end of the input
/// or a fault ends it. No line is carried out.
pub fn check<S: Source, W: Sink>(alloc: Global, source: &mut S, sink: &mut W) -> Result<(), Stop>
    requires reads { CanCount (S.seen source.old).faults }
    requires writes { CanCount (W.seen sink.old).faults }
    requires not_ended { (S.seen source.old).ended ≡ false }

    ensures check { IsCheck (streams (S.seen source.old) (W.seen sink.old))
        (streams (S.seen source.new) (W.seen sink.new)) result }

    // why it ended so, and what is written then
    ensures causes { IsCausedCheck (streams (S.seen source.old) (W.seen sink.old))
        (streams (S.seen source.new) (W.seen sink.new)) result }
{
    let mut input = Input::new();
    let mut number = 0;
    let mut text = Vec::new(alloc);
    loop {
        match input.next_line(source)? {
            Met::End => return Ok(()),
            Met::Line => {}
        }
        number += 1;
        print_one(alloc, number, input.line(), &mut text, sink)?;
        if input.is_at_end() {
            return Ok(());
        }
    }
}
