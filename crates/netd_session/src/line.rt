ghost use Rattle.std.specs.Prelude.{◌≡◌, ◌+◌, ◌++◌, ◌∷◌, ◌<◌, ◌≤◌, [], None, OnOk, vec_len, vec_capacity};
ghost use Rattle.net_io.specs.Streams.{CanCount};
ghost use Rattle.net_control.specs.Moments.{SendsByPolicy};
ghost use Rattle.net_control.specs.View.{IsKept};

use crate::command::apply_watched;
use crate::end::Stop;
use crate::output::{offer, tell_bad_line};
use crate::turn::{Said, Turn};
use crate::watch::Watch;
use kernel_model::Kernel;
use mark_server::SocketTable;
use net_control::Controller;
use net_io::Sink;
use policy_state::Command;
use rule_match::Packet;
use script_reader::{Line, LineFault, read_line};
use std::alloc::{AllocError, Global};
use turn_text::put_answer;

/// Room for the answer to any command, and for what is said of two requests of it before.
const ANSWER_ROOM: usize = 300;

// Puts a turn last, in the room that is there.
pub(crate) fn put_turn(turns: &mut Vec<Turn>, turn: Turn)
    requires { vec_len turns.old < vec_capacity turns.old }
    ensures { turns.new.items ≡ turns.old.items ++ turn ∷ [] }
{
    let _ = turns.push(turn);
}

// Takes the room for a turn and its text.
pub(crate) fn make_room(turns: &mut Vec<Turn>, answer: &mut Vec<u8>) -> Result<(), AllocError>
    ensures turns { turns.new.items ≡ turns.old.items }
    ensures answer { answer.new.items ≡ answer.old.items }
    ensures turn_room { OnOk result (vec_len turns.new < vec_capacity turns.new) }
    ensures answer_room { OnOk result (vec_len answer.new + 300 ≤ vec_capacity answer.new) }
{
    turns.reserve(1)?;
    answer.reserve(ANSWER_ROOM)
}

/// What a session keeps from line to line.
#[derive(Drop)]
pub struct Talk {
    pub(crate) alloc: Global,
    pub(crate) controller: Controller,
    pub(crate) sockets: SocketTable,
    pub(crate) watch: Option<Watch>,
    pub(crate) turns: Vec<Turn>,
    pub(crate) answer: Vec<u8>,
}

impl Talk {
    ghost use Rattle.script_reader.specs.declared.line.Line.TheVariants as line;
    ghost use Rattle.netd_session.specs.Lines.{Answers, Takes, halt_of};
    ghost use Rattle.netd_session.specs.Telling.{Tells};
    ghost use Rattle.netd_session.specs.Talks.{stands};
    ghost use Rattle.netd_session.specs.Watches.{IsWatched};

    /// A session that has begun.
    pub fn new(alloc: Global, controller: Controller, answer: Vec<u8>) -> Talk
        ensures controller { result.controller ≡ controller }
        ensures sockets { result.sockets ≡ [] }
        ensures watch { result.watch ≡ None }
        ensures turns { result.turns.items ≡ [] }
    {
        Talk {
            alloc,
            controller,
            sockets: SocketTable::new(alloc),
            watch: None,
            turns: Vec::new(alloc),
            answer,
        }
    }

    /// The turns so far.
    pub fn into_turns(self) -> Vec<Turn>
        ensures { result.items ≡ self.turns.items }
    {
        self.turns
    }

    // The packet that is watched, as its socket stands.
    fn watched_packet(&self) -> Option<Packet>
        ensures { IsWatched self.now.sockets self.now.watch result }
    {
        let watch = self.watch?;
        let socket = self.sockets.get(&watch.socket)?;
        Some(Packet::made(socket.uid, socket.mark, watch.dest, socket.bound))
    }

    // The room is taken first: once the kernel was asked, nothing may fail.
    fn answer_command<K: Kernel>(
        &mut self,
        number: u32,
        command: &Command,
        kernel: &mut K,
    ) -> Result<(), AllocError>
        requires kept { IsKept self.old.controller (K.seen kernel.old) }
        requires sends { SendsByPolicy self.old.controller (K.seen kernel.old) }
        requires runs { self.old.controller.halted ≡ None }
        requires empty { self.old.answer.items ≡ [] }
        ensures answers { Answers result (line.Control command.now) number
            (stands self.old (K.seen kernel.old))
            (stands self.new (K.seen kernel.new))
            self.old.turns.items self.new.turns.items self.new.answer.items }
        ensures kept { IsKept self.new.controller (K.seen kernel.new) }
        ensures sends { SendsByPolicy self.new.controller (K.seen kernel.new) }
    {
        make_room(&mut self.turns, &mut self.answer)?;
        let packet = self.watched_packet();
        let answer = apply_watched(
            self.alloc,
            number,
            command,
            packet,
            &mut self.controller,
            kernel,
            &mut self.answer,
        )?;
        put_answer(number, &answer, &mut self.answer);
        let turn = Turn {
            line: number,
            said: Said::Answered(answer),
            journal_end: kernel.entry_count(),
        };
        put_turn(&mut self.turns, turn);
        Ok(())
    }

    fn answer_line<K: Kernel>(
        &mut self,
        number: u32,
        line: &Line,
        kernel: &mut K,
    ) -> Result<(), AllocError>
        requires kept { IsKept self.old.controller (K.seen kernel.old) }
        requires sends { SendsByPolicy self.old.controller (K.seen kernel.old) }
        requires runs { self.old.controller.halted ≡ None }
        requires empty { self.old.answer.items ≡ [] }
        ensures answers { Answers result line.now number
            (stands self.old (K.seen kernel.old))
            (stands self.new (K.seen kernel.new))
            self.old.turns.items self.new.turns.items self.new.answer.items }
        ensures kept { IsKept self.new.controller (K.seen kernel.new) }
        ensures sends { SendsByPolicy self.new.controller (K.seen kernel.new) }
    {
        match line {
            Line::Blank => Ok(()),
            Line::Control(command) => self.answer_command(number, command, kernel),
            Line::Socket(call) => self.answer_socket(number, call, kernel),
            Line::Trace(trace) => self.answer_trace(number, trace, kernel),
            Line::Show(show) => self.answer_show(number, show, kernel),
        }
    }

    // Tells the answer to a line. Where the controller has halted, that is the end.
    fn tell_answer<W: Sink>(&self, sink: &mut W) -> Result<(), Stop>
        requires { CanCount (W.seen sink.old).faults }
        ensures { Tells self.now.answer.items (halt_of self.now.controller) result
            (W.seen sink.old) (W.seen sink.new) }
    {
        offer(sink, &self.answer)?;
        match self.controller.halted() {
            Some(_) => Err(Stop::Halted),
            None => Ok(()),
        }
    }

    /// Answers one line. An error is how the session ends there.
    pub fn take_line<W: Sink, K: Kernel>(
        &mut self,
        number: u32,
        text: &[u8],
        sink: &mut W,
        kernel: &mut K,
    ) -> Result<(), Stop>
        requires count { CanCount (W.seen sink.old).faults }
        requires kept { IsKept self.old.controller (K.seen kernel.old) }
        requires sends { SendsByPolicy self.old.controller (K.seen kernel.old) }
        requires runs { self.old.controller.halted ≡ None }
        ensures takes { Takes result text.now number
            (stands self.old (K.seen kernel.old))
            (stands self.new (K.seen kernel.new))
            self.old.turns.items self.new.turns.items
            (W.seen sink.old) (W.seen sink.new) }
        ensures kept { IsKept self.new.controller (K.seen kernel.new) }
        ensures sends { SendsByPolicy self.new.controller (K.seen kernel.new) }
    {
        self.answer.clear();
        match read_line(self.alloc, text) {
            Err(LineFault::Memory(_)) => Err(Stop::Memory),
            Err(LineFault::Bad { column }) => {
                tell_bad_line(number, column, &mut self.answer, sink)
            }
            Ok(line) => {
                self.answer_line(number, &line, kernel)?;
                self.tell_answer(sink)
            }
        }
    }
}
