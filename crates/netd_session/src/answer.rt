ghost use Rattle.std.specs.Prelude.{◌≡◌, [], None, OnOk, IfOk};
ghost use Rattle.number_text.specs.Appends.{Appends};
ghost use Rattle.turn_text.specs.Texts.{numbered};
ghost use Rattle.kernel_model.specs.View.{state_of};
ghost use Rattle.kernel_model.specs.Walk.{trail_of};
ghost use Rattle.net_control.specs.View.{IsKept};
ghost use Rattle.policy_meaning.specs.Policy.{policy};
ghost use Rattle.netd_session.specs.Answers.{shown_text, told_text, watch_text};

use crate::turn::Said;
use kernel_model::Kernel;
use mark_server::SocketTable;
use net_control::Controller;
use number_text::append_bytes;
use packet_trace::{Trail, follow};
use policy_meaning::table_means_policy;
use policy_state::State;
use report_text::{
    write_networks, write_rules, write_sockets, write_table, write_trail, write_verdict,
};
use rule_match::{Packet, Verdict};
use script_reader::ShowLine;
use std::alloc::{AllocError, Global};
use turn_text::write_line_number;
use word_text::write_mark;

// Appends where a packet goes, with its mark.
fn write_marked_verdict(
    state: &State,
    mark: u32,
    verdict: &Verdict,
    answer: &mut Vec<u8>,
) -> Result<(), AllocError>
    ensures { Appends answer.old answer.new result (watch_text state.now mark verdict.now) }
{
    append_bytes(b"mark ", answer)?;
    write_mark(mark, answer)?;
    append_bytes(b" ", answer)?;
    write_verdict(state, verdict, answer)?;
    append_bytes(b"\n", answer)
}

/// What is told of a packet.
#[derive(Clone, Copy)]
pub(crate) enum Telling {
    /// Where it goes, with its mark, and the rules that it meets on the way.
    Way,
    /// Where it goes and the rules, of a packet that is passed on.
    PassedWay,
    /// Where it goes, with its mark.
    Verdict,
}

// Appends what is told of a packet.
fn write_told(
    telling: Telling,
    state: &State,
    mark: u32,
    verdict: &Verdict,
    trail: &Trail,
    answer: &mut Vec<u8>,
) -> Result<(), AllocError>
    ensures { Appends answer.old answer.new result
        (told_text telling state.now mark verdict.now trail.now.steps) }
{
    match telling {
        Telling::Way => {
            write_marked_verdict(state, mark, verdict, answer)?;
            write_trail(trail, answer)
        }
        Telling::PassedWay => {
            write_verdict(state, verdict, answer)?;
            append_bytes(b"\n", answer)?;
            write_trail(trail, answer)
        }
        Telling::Verdict => write_marked_verdict(state, mark, verdict, answer),
    }
}

// Tells where the policy sends the packet, which is where the kernel's rules send it, and the rules that it meets, as far as
// they are told.
pub(crate) fn tell_packet<K: Kernel>(
    alloc: Global,
    number: u32,
    telling: Telling,
    packet: &Packet,
    controller: &Controller,
    kernel: &K,
    answer: &mut Vec<u8>,
) -> Result<Said, AllocError>
    requires kept { IsKept controller.now (K.seen kernel.now) }
    requires runs { controller.now.halted ≡ None }
    requires empty { answer.old.items ≡ [] }
    ensures said { IfOk result
        (λ said. said ≡ Said.Went packet.now.mark (policy controller.now.state packet.now)) }
    ensures text { OnOk result
        (answer.new.items
        ≡ numbered number
        (told_text telling controller.now.state packet.now.mark
        (policy controller.now.state packet.now)
        (trail_of (state_of (K.seen kernel.now)) packet.now))) }
{
    table_means_policy();
    let trail = follow(alloc, kernel, packet)?;
    let verdict = trail.verdict();
    let mark = packet.mark();
    write_line_number(number, answer)?;
    write_told(telling, controller.state(), mark, &verdict, &trail, answer)?;
    Ok(Said::Went { mark, verdict })
}

// Appends what a question asks for.
fn write_shown<K: Kernel>(
    show: &ShowLine,
    state: &State,
    sockets: &SocketTable,
    kernel: &K,
    answer: &mut Vec<u8>,
) -> Result<(), AllocError>
    ensures { Appends answer.old answer.new result
        (shown_text show.now state.now sockets.now (state_of (K.seen kernel.now))) }
{
    match *show {
        ShowLine::Rules { family } => write_rules(kernel, state, family, answer),
        ShowLine::Table { number } => write_table(kernel, state, number, answer),
        ShowLine::Networks => write_networks(state, answer),
        ShowLine::Sockets => write_sockets(state, sockets, answer),
    }
}

// Tells what a question asks for.
pub(crate) fn tell_shown<K: Kernel>(
    number: u32,
    show: &ShowLine,
    controller: &Controller,
    sockets: &SocketTable,
    kernel: &K,
    answer: &mut Vec<u8>,
) -> Result<(), AllocError>
    requires empty { answer.old.items ≡ [] }
    ensures text { OnOk result
        (answer.new.items
        ≡ numbered number
        (shown_text show.now controller.now.state sockets.now (state_of (K.seen kernel.now)))) }
{
    write_line_number(number, answer)?;
    write_shown(show, controller.state(), sockets, kernel, answer)
}
