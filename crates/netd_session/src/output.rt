ghost use Rattle.std.specs.Prelude.{◌≡◌, ◌<◌, ◌≤◌, [], length};
ghost use Rattle.net_io.specs.Streams.{CanCount};
ghost use Rattle.netd_session.specs.Stops.{goes_on};
ghost use Rattle.netd_session.specs.Telling.{MakesAndTells, Tells};
ghost use Rattle.netd_session.specs.declared.end.Stop.TheVariants as stop;
ghost use Rattle.turn_text.specs.Texts.{bad_text, numbered};

use crate::end::Stop;
use net_io::Sink;
use turn_text::write_bad_line;

/// Offers the piece, and what isn't taken again, until all of it is taken.
pub fn offer<W: Sink>(sink: &mut W, piece: &[u8]) -> Result<(), Stop>
    requires { CanCount (W.seen sink.old).faults }
    ensures { Tells piece.now goes_on result (W.seen sink.old) (W.seen sink.new) }
{
    let mut at = 0;
    while at < piece.len() {
        let count = sink.write(&piece[at..])?;
        at += count;
    }
    Ok(())
}

/// Tells that a line is bad, which is the end. The text is made in `answer`.
pub(crate) fn tell_bad_line<W: Sink>(
    number: u32,
    column: u32,
    answer: &mut Vec<u8>,
    sink: &mut W,
) -> Result<(), Stop>
    requires count { CanCount (W.seen sink.old).faults }
    requires empty { answer.old.items ≡ [] }
    ensures { MakesAndTells (numbered number (bad_text column)) (Err stop.BadLine) result
        (W.seen sink.old) (W.seen sink.new) }
{
    write_bad_line(number, column, answer)?;
    offer(sink, answer)?;
    Err(Stop::BadLine)
}
