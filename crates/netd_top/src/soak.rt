ghost use Rattle.std.specs.Prelude.{◌≡◌, ◌≤◌, [], filter, length};
ghost use Rattle.net_io.specs.Streams.{CanCount};
ghost use Rattle.netd_session.specs.Telling.{MakesAndTells};
ghost use Rattle.netd_session.specs.Stops.{goes_on};
ghost use Rattle.netd_top.specs.Soak.{HasRunOver, SaysSums, Soaks, count_text, kernel_text, says_done, says_refused, summary, sums_of, turns_text};
ghost use Rattle.number_text.specs.Appends.{Appends};

use kernel_model::{Armed, Kernel};
use net_io::{MemSink, MemSource, Sink};
use netd_session::{Ended, Said, Status, Stop, Turn, offer, session};
use number_text::{append_byte, append_bytes, write_decimal};
use prefixes::Family;
use script_gen::make_script;
use std::alloc::{AllocError, Global};
use turn_text::Answer;

/// What a session came to.
#[derive(Clone, Copy, Debug)]
pub struct Sums {
    pub turns: u64,
    /// The turns of commands that were carried out.
    pub done: u64,
    pub refused: u64,
    /// The kernel's rules for IPv4, its own with them.
    pub rules: u64,
    /// The entries of its journal.
    pub requests: u64,
}

/// The bytes that the script and the answers are read and written by at a time.
const PIECE: usize = 4096;

fn is_done(turn: &Turn) -> bool
    ensures { result ≡ says_done turn.now.said }
{
    match turn.said {
        Said::Answered(Answer::Done) => true,
        _ => false,
    }
}

fn is_refused(turn: &Turn) -> bool
    ensures { result ≡ says_refused turn.now.said }
{
    match turn.said {
        Said::Answered(Answer::Refused { .. }) => true,
        _ => false,
    }
}

fn done_of(turns: &[Turn]) -> usize
    ensures { result ≡ length (filter (λ t. says_done t.said) turns.now) }
{
    turns.iter().filter(|turn| is_done(turn)).count()
}

fn refused_of(turns: &[Turn]) -> usize
    ensures { result ≡ length (filter (λ t. says_refused t.said) turns.now) }
{
    turns.iter().filter(|turn| is_refused(turn)).count()
}

fn sums_of<K: Kernel>(turns: &[Turn], kernel: &K) -> Sums
    ensures { result ≡ sums_of turns.now (K.seen kernel.now) }
{
    Sums {
        turns: turns.len() as u64,
        done: done_of(turns) as u64,
        refused: refused_of(turns) as u64,
        rules: kernel.rule_count(Family::V4),
        requests: kernel.entry_count(),
    }
}

fn write_count(words: &[u8], number: u64, out: &mut Vec<u8>) -> Result<(), AllocError>
    ensures { Appends out.old out.new result (count_text words.now number) }
{
    append_bytes(words, out)?;
    write_decimal(number, out)
}

fn write_turns(sums: Sums, out: &mut Vec<u8>) -> Result<(), AllocError>
    ensures { Appends out.old out.new result (turns_text sums) }
{
    write_count(b"turns ", sums.turns, out)?;
    write_count(b" done ", sums.done, out)?;
    write_count(b" refused ", sums.refused, out)
}

fn write_kernel(sums: Sums, out: &mut Vec<u8>) -> Result<(), AllocError>
    ensures { Appends out.old out.new result (kernel_text sums) }
{
    write_count(b" rules ", sums.rules, out)?;
    write_count(b" requests ", sums.requests, out)?;
    append_byte(b'\n', out)
}

fn write_summary(sums: Sums, out: &mut Vec<u8>) -> Result<(), AllocError>
    ensures { Appends out.old out.new result (summary sums) }
{
    write_turns(sums, out)?;
    write_kernel(sums, out)
}

fn tell_sums<W: Sink>(alloc: Global, sums: Sums, sink: &mut W) -> Result<(), Stop>
    requires { CanCount (W.seen sink.old).faults }
    ensures { MakesAndTells (summary sums) goes_on result (W.seen sink.old) (W.seen sink.new) }
{
    let mut text = Vec::new(alloc);
    write_summary(sums, &mut text)?;
    offer(sink, &text)
}

// Carries a script out on the kernel with empty lists, over memory.
fn run_over<K: Armed>(alloc: Global, script: Vec<u8>, kernel: &mut K) -> Ended
    requires { (K.seen kernel.old).journal ≡ [] }
    ensures { HasRunOver script.items (K.seen kernel.old) (K.seen kernel.new) result }
{
    kernel.arm(Vec::new(alloc), Vec::new(alloc));
    let mut source = MemSource::new(script, Vec::new(alloc), PIECE);
    let mut answers = MemSink::new(alloc, Vec::new(alloc), PIECE);
    session(alloc, &mut source, &mut answers, kernel)
}

// Tells what a session came to, where it reached its end.
fn tell_ended<W: Sink, K: Kernel>(alloc: Global, ended: &Ended, sink: &mut W, kernel: &K) -> Status
    requires { CanCount (W.seen sink.old).faults }
    ensures { SaysSums ended.now (K.seen kernel.now) result (W.seen sink.old) (W.seen sink.new) }
{
    match ended.status() {
        Status::Finished => Status::of(tell_sums(alloc, sums_of(ended.turns(), kernel), sink)),
        _ => Status::Stopped(Stop::Memory),
    }
}

/// Runs the script of this seed over memory, on the kernel with empty lists, and tells what it came to. A session that doesn't
/// reach the script's end is told as out of memory: that no made script has a bad line is not proved.
pub fn soak<W: Sink, K: Armed>(
    alloc: Global,
    seed: u64,
    count: u32,
    sink: &mut W,
    kernel: &mut K,
) -> Status
    requires starting { (K.seen kernel.old).journal ≡ [] }
    requires writes { CanCount (W.seen sink.old).faults }
    requires few { count ≤ 100000 }
    ensures { Soaks seed count (K.seen kernel.old) (K.seen kernel.new) (W.seen sink.old)
        (W.seen sink.new) result }
{
    let Ok(script) = make_script(alloc, seed, count) else {
        return Status::Stopped(Stop::Memory);
    };
    let ended = run_over(alloc, script, kernel);
    tell_ended(alloc, &ended, sink, kernel)
}
