ghost use Rattle.std.specs.Prelude.{◌≡◌, ◌++◌, ◌∷◌, [], None, Some, OnOk, OnErr};
ghost use Rattle.script_reader.specs.declared.line.Line.TheVariants as line;
ghost use Rattle.script_reader.specs.declared.line.TraceLine.TheVariants as trace;
ghost use Rattle.kernel_model.specs.View.{state_of};
ghost use Rattle.kernel_model.specs.Walk.{trail_of};
ghost use Rattle.net_control.specs.View.{IsKept};
ghost use Rattle.policy_meaning.specs.Policy.{policy};
ghost use Rattle.turn_text.specs.Texts.{numbered, refused_text};
ghost use Rattle.turn_text.specs.declared.answer.Answer.TheVariants as answer;
ghost use Rattle.netd_session.specs.Answers.{told_text};
ghost use Rattle.netd_session.specs.Lines.{Answers};
ghost use Rattle.netd_session.specs.Talks.{stands};
ghost use Rattle.netd_session.specs.Turns.{turn_of};

use crate::answer::{Telling, tell_packet};
use crate::line::Talk;
use crate::turn::Said;
use crate::watch::Watch;
use kernel_model::Kernel;
use net_names::{Code, Name};
use prefixes::Addr;
use rule_match::Packet;
use script_reader::TraceLine;
use std::alloc::AllocError;
use turn_text::Answer;
use uid_ranges::Uid;

// Packets, of which none changes anything, and what is watched.
impl Talk {
    fn answer_packet<K: Kernel>(
        &mut self,
        number: u32,
        telling: Telling,
        packet: &Packet,
        kernel: &K,
    ) -> Result<(), AllocError>
        requires kept { IsKept self.old.controller (K.seen kernel.now) }
        requires runs { self.old.controller.halted ≡ None }
        requires empty { self.old.answer.items ≡ [] }
        ensures ok { OnOk result
            (self.new.turns.items ≡ self.old.turns.items
            ++ turn_of number
            (Said.Went packet.now.mark (policy self.old.controller.state packet.now))
            (stands self.old (K.seen kernel.now)) ∷ []) }
        ensures text { OnOk result
            (self.new.answer.items
            ≡ numbered number
            (told_text telling self.old.controller.state packet.now.mark
            (policy self.old.controller.state packet.now)
            (trail_of (state_of (K.seen kernel.now)) packet.now))) }
        ensures err { OnErr result (self.new.turns.items ≡ self.old.turns.items) }
        ensures stays { stands self.new (K.seen kernel.now) ≡ stands self.old (K.seen kernel.now) }
    {
        let said = tell_packet(
            self.alloc,
            number,
            telling,
            packet,
            &self.controller,
            kernel,
            &mut self.answer,
        )?;
        self.note(number, said, kernel)
    }

    fn refuse<K: Kernel>(&mut self, number: u32, code: Code, kernel: &K) -> Result<(), AllocError>
        requires empty { self.old.answer.items ≡ [] }
        ensures ok { OnOk result
            (self.new.turns.items ≡ self.old.turns.items
            ++ turn_of number (Said.Answered (answer.Refused code)) (stands self.old (K.seen kernel.now)) ∷ []) }
        ensures text { OnOk result
            (self.new.answer.items ≡ numbered number (refused_text code)) }
        ensures err { OnErr result (self.new.turns.items ≡ self.old.turns.items) }
        ensures stays { stands self.new (K.seen kernel.now) ≡ stands self.old (K.seen kernel.now) }
    {
        self.answer_plainly(number, Answer::Refused { code }, kernel)
    }

    // Where a packet goes. A link of an unknown name is refused.
    fn answer_made<K: Kernel>(
        &mut self,
        number: u32,
        uid: Uid,
        mark: u32,
        dest: Addr,
        link: &Option<Name>,
        kernel: &K,
    ) -> Result<(), AllocError>
        requires kept { IsKept self.old.controller (K.seen kernel.now) }
        requires runs { self.old.controller.halted ≡ None }
        requires empty { self.old.answer.items ≡ [] }
        ensures answers { Answers result (line.Trace (trace.Made uid mark dest link.now)) number
            (stands self.old (K.seen kernel.now))
            (stands self.new (K.seen kernel.now)) self.old.turns.items
            self.new.turns.items self.new.answer.items }
        ensures stays { stands self.new (K.seen kernel.now) ≡ stands self.old (K.seen kernel.now) }
    {
        match link {
            None => {
                let packet = Packet::made(uid, mark, dest, None);
                self.answer_packet(number, Telling::Way, &packet, kernel)
            }
            Some(name) => match self.controller.state().link_named(name) {
                Some(index) => {
                    let packet = Packet::made(uid, mark, dest, Some(index));
                    self.answer_packet(number, Telling::Way, &packet, kernel)
                }
                None => self.refuse(number, Code::NoDevice, kernel),
            },
        }
    }

    // Where a packet of a socket goes. An unknown socket is refused.
    fn answer_sent<K: Kernel>(
        &mut self,
        number: u32,
        name: &Name,
        dest: Addr,
        kernel: &K,
    ) -> Result<(), AllocError>
        requires kept { IsKept self.old.controller (K.seen kernel.now) }
        requires runs { self.old.controller.halted ≡ None }
        requires empty { self.old.answer.items ≡ [] }
        ensures answers { Answers result (line.Trace (trace.Trace name.now dest)) number
            (stands self.old (K.seen kernel.now))
            (stands self.new (K.seen kernel.now)) self.old.turns.items
            self.new.turns.items self.new.answer.items }
        ensures stays { stands self.new (K.seen kernel.now) ≡ stands self.old (K.seen kernel.now) }
    {
        match self.sockets.get(name) {
            Some(socket) => {
                let packet = Packet::made(socket.uid, socket.mark, dest, socket.bound);
                self.answer_packet(number, Telling::Way, &packet, kernel)
            }
            None => self.refuse(number, Code::NoEntry, kernel),
        }
    }

    // Where a packet goes that came by a link and is passed on. One that came by `lo` is refused, and then an unknown link.
    fn answer_passed<K: Kernel>(
        &mut self,
        number: u32,
        link: &Name,
        dest: Addr,
        kernel: &K,
    ) -> Result<(), AllocError>
        requires kept { IsKept self.old.controller (K.seen kernel.now) }
        requires runs { self.old.controller.halted ≡ None }
        requires empty { self.old.answer.items ≡ [] }
        ensures answers { Answers result (line.Trace (trace.Passed link.now dest)) number
            (stands self.old (K.seen kernel.now))
            (stands self.new (K.seen kernel.now)) self.old.turns.items
            self.new.turns.items self.new.answer.items }
        ensures stays { stands self.new (K.seen kernel.now) ≡ stands self.old (K.seen kernel.now) }
    {
        match self.controller.state().link_named(link) {
            Some(index) => match Packet::passed(index, dest) {
                Some(packet) => self.answer_packet(number, Telling::PassedWay, &packet, kernel),
                None => self.refuse(number, Code::Invalid, kernel),
            },
            None => self.refuse(number, Code::NoDevice, kernel),
        }
    }

    // Watches what a socket sends to an address from now on, in place of what was watched. An unknown socket is refused,
    // and then what was watched still is.
    fn answer_watch<K: Kernel>(
        &mut self,
        number: u32,
        name: &Name,
        dest: Addr,
        kernel: &K,
    ) -> Result<(), AllocError>
        requires kept { IsKept self.old.controller (K.seen kernel.now) }
        requires runs { self.old.controller.halted ≡ None }
        requires empty { self.old.answer.items ≡ [] }
        ensures answers { Answers result (line.Trace (trace.Watch name.now dest)) number
            (stands self.old (K.seen kernel.now))
            (stands self.new (K.seen kernel.now)) self.old.turns.items
            self.new.turns.items self.new.answer.items }
        ensures controller { self.new.controller ≡ self.old.controller }
    {
        let Some(socket) = self.sockets.get(name) else {
            return self.refuse(number, Code::NoEntry, kernel);
        };
        let packet = Packet::made(socket.uid, socket.mark, dest, socket.bound);
        self.answer_packet(number, Telling::Verdict, &packet, kernel)?;
        self.watch = Some(Watch {
            socket: *name,
            dest,
        });
        Ok(())
    }

    // Ends the watch, if there is one.
    fn answer_watch_off<K: Kernel>(&mut self, number: u32, kernel: &K) -> Result<(), AllocError>
        requires empty { self.old.answer.items ≡ [] }
        ensures answers { Answers result (line.Trace trace.WatchOff) number
            (stands self.old (K.seen kernel.now))
            (stands self.new (K.seen kernel.now)) self.old.turns.items
            self.new.turns.items self.new.answer.items }
        ensures controller { self.new.controller ≡ self.old.controller }
    {
        self.answer_plainly(number, Answer::Done, kernel)?;
        self.watch = None;
        Ok(())
    }

    /// Answers a line about a packet.
    pub(crate) fn answer_trace<K: Kernel>(
        &mut self,
        number: u32,
        trace: &TraceLine,
        kernel: &K,
    ) -> Result<(), AllocError>
        requires kept { IsKept self.old.controller (K.seen kernel.now) }
        requires runs { self.old.controller.halted ≡ None }
        requires empty { self.old.answer.items ≡ [] }
        ensures answers { Answers result (line.Trace trace.now) number
            (stands self.old (K.seen kernel.now))
            (stands self.new (K.seen kernel.now)) self.old.turns.items
            self.new.turns.items self.new.answer.items }
        ensures controller { self.new.controller ≡ self.old.controller }
    {
        match trace {
            TraceLine::Made {
                uid,
                mark,
                dest,
                link,
            } => self.answer_made(number, *uid, *mark, *dest, link, kernel),
            TraceLine::Trace { name, dest } => self.answer_sent(number, name, *dest, kernel),
            TraceLine::Passed { link, dest } => self.answer_passed(number, link, *dest, kernel),
            TraceLine::Watch { name, dest } => self.answer_watch(number, name, *dest, kernel),
            TraceLine::WatchOff => self.answer_watch_off(number, kernel),
        }
    }
}
