ghost use Rattle.std.specs.Prelude.{◌≡◌, ◌+◌, ◌≤◌, [], None, false, length, vec_capacity, vec_len};
ghost use Rattle.net_io.specs.Streams.{CanCount};
ghost use Rattle.kernel_model.specs.Form.{AreWellFormed};
ghost use Rattle.kernel_model.specs.View.{KernelView};
ghost use Rattle.net_control.specs.Limit.{journal_limit};
ghost use Rattle.net_control.specs.Moments.{SendsByPolicy};
ghost use Rattle.net_control.specs.View.{IsKept};
ghost use Rattle.turn_text.specs.Texts.{start_room};
ghost use Rattle.netd_session.specs.Causes.{IsCausedSession};
ghost use Rattle.netd_session.specs.Ends.{HasBegun, IsSession, TellsStart};
ghost use Rattle.netd_session.specs.History.{HasHistory};
ghost use Rattle.netd_session.specs.Talks.{stands};
ghost use Rattle.netd_session.specs.World.{MayBegin, world};

use crate::end::{Ended, Stop};
use crate::line::Talk;
use crate::output::offer;
use kernel_model::Kernel;
use line_input::{Input, Met};
use net_control::{Controller, StartFault};
use net_io::{Sink, Source};
use policy_meaning::own_rule_means_start;
use std::alloc::Global;
use turn_text::{put_start_halted, put_start_refused};

/// Room for the text of a start that failed.
const START_ROOM: usize = 64;

// Tells why the start failed, in the room that was taken before it.
fn tell_start<W: Sink>(fault: StartFault, mut text: Vec<u8>, sink: &mut W) -> Result<(), Stop>
    requires empty { text.items ≡ [] }
    requires room { vec_len text + start_room ≤ vec_capacity text }
    requires writes { CanCount (W.seen sink.old).faults }
    ensures { TellsStart fault result (W.seen sink.old) (W.seen sink.new) }
{
    match fault {
        StartFault::Refused { request } => {
            put_start_refused(request, &mut text);
            offer(sink, &text)?;
            Err(Stop::StartRefused)
        }
        StartFault::Halted { request } => {
            put_start_halted(request, &mut text);
            offer(sink, &text)?;
            Err(Stop::Halted)
        }
        StartFault::Memory(_) => Err(Stop::Memory),
    }
}

// Answers each line before the next is read, until an end.
fn answer_lines<S: Source, W: Sink, K: Kernel>(
    source: &mut S,
    sink: &mut W,
    kernel: &mut K,
    talk: &mut Talk,
) -> Result<(), Stop>
    requires reads { CanCount (S.seen source.old).faults }
    requires writes { CanCount (W.seen sink.old).faults }
    requires not_ended { (S.seen source.old).ended ≡ false }
    requires kept { IsKept talk.old.controller (K.seen kernel.old) }
    requires sends { SendsByPolicy talk.old.controller (K.seen kernel.old) }
    requires runs { talk.old.controller.halted ≡ None }
    requires no_turn { talk.old.turns.items ≡ [] }
    ensures { (before : KernelView)
        → HasBegun before (stands talk.old (K.seen kernel.old)) → IsSession
        (world (S.seen source.old) (W.seen sink.old) before)
        (world (S.seen source.new) (W.seen sink.new) (K.seen kernel.new))
        (record { result = result; turns = talk.new.turns.items }) }
{
    let mut input = Input::new();
    let mut number = 0;
    loop {
        match input.next_line(source)? {
            Met::End => return Ok(()),
            Met::Line => {}
        }
        number += 1;
        talk.take_line(number, input.line(), sink, kernel)?;
        if input.is_at_end() {
            return Ok(());
        }
    }
}

// Starts a controller and answers the lines.
fn begin<S: Source, W: Sink, K: Kernel>(
    alloc: Global,
    source: &mut S,
    sink: &mut W,
    kernel: &mut K,
) -> Ended
    requires { MayBegin
        (world (S.seen source.old) (W.seen sink.old) (K.seen kernel.old)) }
    ensures { IsSession
        (world (S.seen source.old) (W.seen sink.old) (K.seen kernel.old))
        (world (S.seen source.new) (W.seen sink.new) (K.seen kernel.new))
        result }
{
    let Ok(text) = Vec::with_capacity(alloc, START_ROOM) else {
        return Ended::of(Err(Stop::Memory), Vec::new(alloc));
    };
    match Controller::start(alloc, kernel) {
        Ok(controller) => {
            let mut talk = Talk::new(alloc, controller, text);
            let end = answer_lines(source, sink, kernel, &mut talk);
            Ended::of(end, talk.into_turns())
        }
        Err(fault) => Ended::of(tell_start(fault, text, sink), Vec::new(alloc)),
    }
}

/// Reads the lines of a script from the source, carries each out on the kernel and offers its answer to the sink, until
/// the input or a fault ends it.
pub fn session<S: Source, W: Sink, K: Kernel>(
    alloc: Global,
    source: &mut S,
    sink: &mut W,
    kernel: &mut K,
) -> Ended
    requires { MayBegin
        (world (S.seen source.old) (W.seen sink.old) (K.seen kernel.old)) }
    ensures session { IsSession
        (world (S.seen source.old) (W.seen sink.old) (K.seen kernel.old))
        (world (S.seen source.new) (W.seen sink.new) (K.seen kernel.new))
        result }

    // whatever the status, each request that was asked is well formed
    ensures formed { AreWellFormed (K.seen kernel.new).journal }
    ensures limited { length (K.seen kernel.new).journal ≤ journal_limit }

    // the whole journal, moment by moment
    ensures history { HasHistory
        (world (S.seen source.old) (W.seen sink.old) (K.seen kernel.old))
        (world (S.seen source.new) (W.seen sink.new) (K.seen kernel.new))
        result }

    // why it ended so, and what stands then
    ensures causes { IsCausedSession
        (world (S.seen source.old) (W.seen sink.old) (K.seen kernel.old))
        (world (S.seen source.new) (W.seen sink.new) (K.seen kernel.new))
        result }
{
    own_rule_means_start();
    begin(alloc, source, sink, kernel)
}
