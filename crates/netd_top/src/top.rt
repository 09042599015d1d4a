ghost use Rattle.std.specs.Prelude.{◌≤◌, length, map, string_bytes};
ghost use Rattle.command_words.specs.View.{view_of};
ghost use Rattle.kernel_model.specs.Form.{AreWellFormed};
ghost use Rattle.net_control.specs.Limit.{journal_limit};
ghost use Rattle.net_io.specs.Streams.{CanCount};
ghost use Rattle.netd_session.specs.World.{MayBegin, world};
ghost use Rattle.netd_top.specs.Causes.{HasRunCauses};
ghost use Rattle.netd_top.specs.History.{FailsWhereListed, HasRunHistory};
ghost use Rattle.netd_top.specs.Run.{DoesForm, DoesRun, IsShort, TellsText};

use crate::soak::soak;
use command_words::{Form, Wordless, WordsFault, one_form, read_words, usage};
use kernel_model::Armed;
use net_io::{Sink, Source};
use netd_session::{Status, Stop, check, offer, session};
use policy_meaning::own_rule_means_start;
use std::alloc::Global;

// Prints the usage text.
fn tell_usage<W: Sink>(sink: &mut W) -> Status
    requires { CanCount (W.seen sink.old).faults }
    ensures { TellsText result (W.seen sink.old) (W.seen sink.new) }
{
    match offer(sink, usage().as_bytes()) {
        Ok(()) => Status::BadWords,
        Err(stop) => Status::Stopped(stop),
    }
}

// Does what a form says. A script that is made is not too long.
fn carry_out<S: Source, W: Sink, K: Armed>(
    alloc: Global,
    form: Form,
    source: &mut S,
    sink: &mut W,
    kernel: &mut K,
) -> Status
    requires begins { MayBegin
        (world (S.seen source.old) (W.seen sink.old) (K.seen kernel.old)) }
    requires few { IsShort (view_of form) }
    ensures { DoesForm (view_of form)
        (world (S.seen source.old) (W.seen sink.old) (K.seen kernel.old))
        (world (S.seen source.new) (W.seen sink.new) (K.seen kernel.new))
        result }
{
    match form {
        Form::Run { refuse, breaks } => {
            kernel.arm(refuse, breaks);
            session(alloc, source, sink, kernel).status()
        }
        Form::Wordless(Wordless::Check) => Status::of(check(alloc, source, sink)),
        Form::Soak { seed, count } => soak(alloc, seed, count, sink, kernel),
    }
}

// Does what the words say, or tells how they are used.
fn obey<S: Source, W: Sink, K: Armed>(
    alloc: Global,
    words: &[String],
    source: &mut S,
    sink: &mut W,
    kernel: &mut K,
) -> Status
    requires { MayBegin
        (world (S.seen source.old) (W.seen sink.old) (K.seen kernel.old)) }
    ensures { DoesRun (map string_bytes words.now)
        (world (S.seen source.old) (W.seen sink.old) (K.seen kernel.old))
        (world (S.seen source.new) (W.seen sink.new) (K.seen kernel.new))
        result }
{
    match read_words(alloc, words) {
        Ok(form) => carry_out(alloc, form, source, sink, kernel),
        Err(WordsFault::NoForm) => tell_usage(sink),
        Err(WordsFault::Memory(_)) => Status::Stopped(Stop::Memory),
    }
}

/// Does what the words after the program's name say, and gives the exit status. `run` arms the kernel with the two lists
/// and carries a script out on it; `check` prints a script in canonical form; words of no form print the usage text.
pub fn run<S: Source, W: Sink, K: Armed>(
    alloc: Global,
    words: &[String],
    source: &mut S,
    sink: &mut W,
    kernel: &mut K,
) -> Status
    requires { MayBegin
        (world (S.seen source.old) (W.seen sink.old) (K.seen kernel.old)) }
    ensures does { DoesRun (map string_bytes words.now)
        (world (S.seen source.old) (W.seen sink.old) (K.seen kernel.old))
        (world (S.seen source.new) (W.seen sink.new) (K.seen kernel.new))
        result }

    // whatever the words and the status, each request that was asked is well formed
    ensures formed { AreWellFormed (K.seen kernel.new).journal }
    ensures limited { length (K.seen kernel.new).journal ≤ journal_limit }

    // the whole journal, moment by moment
    ensures history { HasRunHistory (map string_bytes words.now)
        (world (S.seen source.old) (W.seen sink.old) (K.seen kernel.old))
        (world (S.seen source.new) (W.seen sink.new) (K.seen kernel.new))
        result }

    // refusals and breaks fall where the two lists say
    ensures listed { FailsWhereListed (map string_bytes words.now) (K.seen kernel.new).journal }

    // why the status is this one, and what stands then
    ensures causes { HasRunCauses (map string_bytes words.now)
        (world (S.seen source.old) (W.seen sink.old) (K.seen kernel.old))
        (world (S.seen source.new) (W.seen sink.new) (K.seen kernel.new))
        result }
{
    one_form();
    own_rule_means_start();
    obey(alloc, words, source, sink, kernel)
}
