ghost use Rattle.std.specs.Prelude.{◌≡◌, IsTrue, Err, IfOk, map, string_bytes};
ghost use Rattle.command_words.specs.Forms.{FormView, IsForm};
ghost use Rattle.command_words.specs.Refused.{has_refused};
ghost use Rattle.command_words.specs.View.{view_of};

use crate::command::netd_command;
use crate::fault::WordsFault;
use crate::form::Form;
use crate::matched::form_in;
use crate::refused::has_refused;
use clap::error::ErrorKind;
use std::alloc::{AllocError, Global};

/// The form that the words after the program's name have.
pub fn read_words(alloc: Global, words: &[String]) -> Result<Form, WordsFault>
    ensures ok { IfOk result (λ form. IsForm (map string_bytes words.now) (view_of form)) }
    ensures no_form { result ≡ Err WordsFault.NoForm →
        (form : FormView) → IsForm (map string_bytes words.now) form → ⊥ }

    // such a word is answered without memory, whatever stands around it
    ensures refused { IsTrue (has_refused (map string_bytes words.now)) →
        result ≡ Err WordsFault.NoForm }
{
    if has_refused(words) {
        return Err(WordsFault::NoForm);
    }
    let Ok(command) = netd_command(alloc) else {
        return Err(WordsFault::Memory(AllocError));
    };
    match command.try_get_matches_from(words) {
        Ok(matches) => form_in(alloc, &matches),
        Err(error) => match error.kind() {
            ErrorKind::OutOfMemory => Err(WordsFault::Memory(AllocError)),
            _ => Err(WordsFault::NoForm),
        },
    }
}
