ghost use Rattle.std.specs.Prelude.{◌≡◌, ◌++◌, ◌∷◌, [], OnOk, OnErr};
ghost use Rattle.script_reader.specs.declared.line.Line.TheVariants as line;
ghost use Rattle.kernel_model.specs.View.{state_of};
ghost use Rattle.turn_text.specs.Texts.{IsCounted, answer_text, numbered};
ghost use Rattle.netd_session.specs.Answers.{shown_text};
ghost use Rattle.netd_session.specs.Lines.{Answers};
ghost use Rattle.netd_session.specs.Talks.{stands};
ghost use Rattle.netd_session.specs.Turns.{turn_of};

use crate::answer::tell_shown;
use crate::line::{Talk, make_room};
use crate::turn::{Said, Turn};
use kernel_model::Kernel;
use script_reader::ShowLine;
use std::alloc::AllocError;
use turn_text::{Answer, put_answer};

// Questions change nothing: each has one turn and one text.
impl Talk {
    // Puts a turn last after which nothing has changed.
    pub(crate) fn note<K: Kernel>(
        &mut self,
        number: u32,
        said: Said,
        kernel: &K,
    ) -> Result<(), AllocError>
        ensures ok { OnOk result
            (self.new.turns.items ≡ self.old.turns.items
            ++ turn_of number said (stands self.old (K.seen kernel.now)) ∷ []) }
        ensures err { OnErr result (self.new.turns.items ≡ self.old.turns.items) }
        ensures stays { stands self.new (K.seen kernel.now) ≡ stands self.old (K.seen kernel.now) }
        ensures answer { self.new.answer.items ≡ self.old.answer.items }
    {
        self.turns.push(Turn {
            line: number,
            said,
            journal_end: kernel.entry_count(),
        })?;
        Ok(())
    }

    /// Answers a line after which nothing has changed by what became of it.
    pub(crate) fn answer_plainly<K: Kernel>(
        &mut self,
        number: u32,
        answer: Answer,
        kernel: &K,
    ) -> Result<(), AllocError>
        requires empty { self.old.answer.items ≡ [] }
        requires counted { IsCounted answer }
        ensures ok { OnOk result
            (self.new.turns.items ≡ self.old.turns.items
            ++ turn_of number (Said.Answered answer) (stands self.old (K.seen kernel.now)) ∷ []) }
        ensures text { OnOk result
            (self.new.answer.items ≡ numbered number (answer_text answer)) }
        ensures err { OnErr result (self.new.turns.items ≡ self.old.turns.items) }
        ensures stays { stands self.new (K.seen kernel.now) ≡ stands self.old (K.seen kernel.now) }
    {
        make_room(&mut self.turns, &mut self.answer)?;
        put_answer(number, &answer, &mut self.answer);
        self.put_said(number, Said::Answered(answer), kernel);
        Ok(())
    }

    fn show<K: Kernel>(
        &mut self,
        number: u32,
        question: &ShowLine,
        kernel: &K,
    ) -> Result<(), AllocError>
        requires empty { self.old.answer.items ≡ [] }
        ensures ok { OnOk result
            (self.new.turns.items ≡ self.old.turns.items
            ++ turn_of number Said.Shown (stands self.old (K.seen kernel.now)) ∷ []) }
        ensures text { OnOk result
            (self.new.answer.items
            ≡ numbered number
            (shown_text question.now self.old.controller.state self.old.sockets
            (state_of (K.seen kernel.now)))) }
        ensures err { OnErr result (self.new.turns.items ≡ self.old.turns.items) }
        ensures stays { stands self.new (K.seen kernel.now) ≡ stands self.old (K.seen kernel.now) }
    {
        tell_shown(
            number,
            question,
            &self.controller,
            &self.sockets,
            kernel,
            &mut self.answer,
        )?;
        self.note(number, Said::Shown, kernel)
    }

    /// Answers a question about what there is.
    pub(crate) fn answer_show<K: Kernel>(
        &mut self,
        number: u32,
        show: &ShowLine,
        kernel: &K,
    ) -> Result<(), AllocError>
        requires empty { self.old.answer.items ≡ [] }
        ensures answers { Answers result (line.Show show.now) number
            (stands self.old (K.seen kernel.now))
            (stands self.new (K.seen kernel.now)) self.old.turns.items
            self.new.turns.items self.new.answer.items }
        ensures stays { stands self.new (K.seen kernel.now) ≡ stands self.old (K.seen kernel.now) }
    {
        self.show(number, show, kernel)
    }
}
