ghost use Rattle.std.specs.Prelude.{◌≡◌, ◌+◌, ◌<◌, ◌≤◌, ◌++◌, ◌∷◌, [], vec_capacity, vec_len};
ghost use Rattle.number_text.specs.Appends.{Appends};
ghost use Rattle.script_reader.specs.declared.line.Line.TheVariants as line;
ghost use Rattle.script_reader.specs.declared.line.SocketLine.TheVariants as socket;
ghost use Rattle.turn_text.specs.Texts.{answer_room, answer_text, numbered};
ghost use Rattle.netd_session.specs.Lines.{Answers};
ghost use Rattle.netd_session.specs.SocketLines.{mark_line, said_of_mark, text_of_mark, told_of_opening};
ghost use Rattle.netd_session.specs.Talks.{stands};
ghost use Rattle.netd_session.specs.Turns.{turn_of};
ghost use Rattle.netd_session.specs.Watches.{watch_without};

use crate::line::{Talk, make_room, put_turn};
use crate::turn::{Said, Turn};
use crate::watch::Watch;
use kernel_model::Kernel;
use mark_server::{SocketFault, access};
use net_names::{Code, Name};
use number_text::{append_bytes, write_decimal};
use script_reader::SocketLine;
use std::alloc::AllocError;
use turn_text::{Answer, put_answer};
use uid_ranges::Uid;
use word_text::write_mark;

fn write_mark_line(mark: u32, out: &mut Vec<u8>) -> Result<(), AllocError>
    ensures { Appends out.old out.new result (mark_line mark) }
{
    append_bytes(b"mark ", out)?;
    write_mark(mark, out)?;
    append_bytes(b"\n", out)
}

// Appends a socket's new mark.
fn write_new_mark(number: u32, mark: u32, out: &mut Vec<u8>) -> Result<(), AllocError>
    ensures { Appends out.old out.new result (numbered number (mark_line mark)) }
{
    write_decimal(u64::from(number), out)?;
    append_bytes(b": ", out)?;
    write_mark_line(mark, out)
}

// Appends a socket's new mark, in the room that is there.
fn put_mark(number: u32, mark: u32, out: &mut Vec<u8>)
    requires room { vec_len out.old + answer_room ≤ vec_capacity out.old }
    ensures { out.new.items ≡ out.old.items ++ numbered number (mark_line mark) }
{
    let _ = write_new_mark(number, mark, out);
}

// The mark of a socket that was made, or why it is refused.
fn made_of(opened: Result<u32, SocketFault>) -> Result<Result<u32, Code>, AllocError>
    ensures { result ≡ told_of_opening opened }
{
    match opened {
        Ok(mark) => Ok(Ok(mark)),
        Err(SocketFault::Refused { code }) => Ok(Err(code)),
        Err(SocketFault::Memory(fault)) => Err(fault),
    }
}

// What is watched once the socket of this name is closed.
fn without(watch: Option<Watch>, name: &Name) -> Option<Watch>
    ensures { result ≡ watch_without name.now watch }
{
    match watch {
        None => None,
        Some(watch) => {
            if watch.socket == *name {
                None
            } else {
                Some(watch)
            }
        }
    }
}

// Lines about sockets ask the kernel nothing. The room for a turn and its text is taken before a socket changes.
impl Talk {
    // Puts a turn after which the kernel is as it is now, in the room that was taken.
    pub(crate) fn put_said<K: Kernel>(&mut self, number: u32, said: Said, kernel: &K)
        requires { vec_len self.old.turns < vec_capacity self.old.turns }
        ensures turns { self.new.turns.items ≡ self.old.turns.items
            ++ turn_of number said (stands self.old (K.seen kernel.now)) ∷ [] }
        ensures answer { self.new.answer.items ≡ self.old.answer.items }
        ensures stays { stands self.new (K.seen kernel.now) ≡ stands self.old (K.seen kernel.now) }
    {
        let turn = Turn {
            line: number,
            said,
            journal_end: kernel.entry_count(),
        };
        put_turn(&mut self.turns, turn);
    }

    // Tells what a call made of a socket, in the room that was taken.
    fn put_made<K: Kernel>(&mut self, number: u32, made: Result<u32, Code>, kernel: &K)
        requires empty { self.old.answer.items ≡ [] }
        requires turn_room { vec_len self.old.turns < vec_capacity self.old.turns }
        requires answer_room { vec_len self.old.answer + 300 ≤ vec_capacity self.old.answer }
        ensures turns { self.new.turns.items ≡ self.old.turns.items
            ++ turn_of number (said_of_mark made) (stands self.old (K.seen kernel.now)) ∷ [] }
        ensures text { self.new.answer.items ≡ numbered number (text_of_mark made) }
        ensures stays { stands self.new (K.seen kernel.now) ≡ stands self.old (K.seen kernel.now) }
    {
        match made {
            Ok(mark) => {
                put_mark(number, mark, &mut self.answer);
                self.put_said(number, Said::Marked { mark }, kernel);
            }
            Err(code) => {
                let answer = Answer::Refused { code };
                put_answer(number, &answer, &mut self.answer);
                self.put_said(number, Said::Answered(answer), kernel);
            }
        }
    }

    fn open_socket<K: Kernel>(
        &mut self,
        number: u32,
        name: Name,
        uid: Uid,
        kernel: &K,
    ) -> Result<(), AllocError>
        requires empty { self.old.answer.items ≡ [] }
        requires turn_room { vec_len self.old.turns < vec_capacity self.old.turns }
        requires answer_room { vec_len self.old.answer + 300 ≤ vec_capacity self.old.answer }
        ensures answers { Answers result (line.Socket (socket.Open name uid)) number
            (stands self.old (K.seen kernel.now))
            (stands self.new (K.seen kernel.now)) self.old.turns.items
            self.new.turns.items self.new.answer.items }
        ensures controller { self.new.controller ≡ self.old.controller }
    {
        let made = made_of(self.sockets.open(name, uid))?;
        self.put_made(number, made, kernel);
        Ok(())
    }

    fn accept_socket<K: Kernel>(
        &mut self,
        number: u32,
        name: Name,
        uid: Uid,
        link: &Name,
        kernel: &K,
    ) -> Result<(), AllocError>
        requires empty { self.old.answer.items ≡ [] }
        requires turn_room { vec_len self.old.turns < vec_capacity self.old.turns }
        requires answer_room { vec_len self.old.answer + 300 ≤ vec_capacity self.old.answer }
        ensures answers { Answers result (line.Socket (socket.Accept name uid link.now)) number
            (stands self.old (K.seen kernel.now))
            (stands self.new (K.seen kernel.now)) self.old.turns.items
            self.new.turns.items self.new.answer.items }
        ensures controller { self.new.controller ≡ self.old.controller }
    {
        let accepted = self
            .sockets
            .accept(self.controller.state(), name, uid, link);
        let made = made_of(accepted)?;
        self.put_made(number, made, kernel);
        Ok(())
    }

    // Closes a socket, which ends its watch.
    fn close_socket<K: Kernel>(
        &mut self,
        number: u32,
        name: &Name,
        kernel: &K,
    ) -> Result<(), AllocError>
        requires empty { self.old.answer.items ≡ [] }
        requires turn_room { vec_len self.old.turns < vec_capacity self.old.turns }
        requires answer_room { vec_len self.old.answer + 300 ≤ vec_capacity self.old.answer }
        ensures answers { Answers result (line.Socket (socket.Close name.now)) number
            (stands self.old (K.seen kernel.now))
            (stands self.new (K.seen kernel.now)) self.old.turns.items
            self.new.turns.items self.new.answer.items }
        ensures controller { self.new.controller ≡ self.old.controller }
    {
        match self.sockets.close(name) {
            Ok(()) => {
                self.watch = without(self.watch, name);
                put_answer(number, &Answer::Done, &mut self.answer);
                self.put_said(number, Said::Answered(Answer::Done), kernel);
                Ok(())
            }
            Err(code) => {
                self.put_made(number, Err(code), kernel);
                Ok(())
            }
        }
    }

    fn answer_access<K: Kernel>(
        &mut self,
        number: u32,
        uid: Uid,
        net: u16,
        kernel: &K,
    ) -> Result<(), AllocError>
        requires empty { self.old.answer.items ≡ [] }
        ensures answers { Answers result (line.Socket (socket.Access uid net)) number
            (stands self.old (K.seen kernel.now))
            (stands self.new (K.seen kernel.now)) self.old.turns.items
            self.new.turns.items self.new.answer.items }
        ensures controller { self.new.controller ≡ self.old.controller }
    {
        match access(self.controller.state(), uid, net) {
            Ok(()) => self.answer_plainly(number, Answer::Done, kernel),
            Err(code) => self.answer_plainly(number, Answer::Refused { code }, kernel),
        }
    }

    /// Answers a line about a socket.
    pub(crate) fn answer_socket<K: Kernel>(
        &mut self,
        number: u32,
        call: &SocketLine,
        kernel: &K,
    ) -> Result<(), AllocError>
        requires empty { self.old.answer.items ≡ [] }
        ensures answers { Answers result (line.Socket call.now) number
            (stands self.old (K.seen kernel.now))
            (stands self.new (K.seen kernel.now)) self.old.turns.items
            self.new.turns.items self.new.answer.items }
        ensures controller { self.new.controller ≡ self.old.controller }
    {
        make_room(&mut self.turns, &mut self.answer)?;
        match call {
            SocketLine::Open { name, uid } => self.open_socket(number, *name, *uid, kernel),
            SocketLine::Accept { name, uid, link } => {
                self.accept_socket(number, *name, *uid, link, kernel)
            }
            SocketLine::Close { name } => self.close_socket(number, name, kernel),
            SocketLine::Access { uid, net } => self.answer_access(number, *uid, *net, kernel),
            SocketLine::Bind { name, link } => {
                let made = self.sockets.bind(self.controller.state(), name, link);
                self.put_made(number, made, kernel);
                Ok(())
            }
            SocketLine::Unbind { name } => {
                let made = self.sockets.unbind(name);
                self.put_made(number, made, kernel);
                Ok(())
            }
            SocketLine::Connect { name } => {
                let made = self.sockets.connect(self.controller.state(), name);
                self.put_made(number, made, kernel);
                Ok(())
            }
            SocketLine::Select { name, net } => {
                let made = self.sockets.select(self.controller.state(), name, *net);
                self.put_made(number, made, kernel);
                Ok(())
            }
            SocketLine::Protect { name } => {
                let made = self.sockets.protect(self.controller.state(), name);
                self.put_made(number, made, kernel);
                Ok(())
            }
            SocketLine::SelectFor { name, user } => {
                let made = self
                    .sockets
                    .select_for(self.controller.state(), name, *user);
                self.put_made(number, made, kernel);
                Ok(())
            }
        }
    }
}
