ghost use Rattle.std.specs.Prelude.{◌≡◌, ℕ, List, [], ◌∷◌, Err, IfOk, map};
ghost use Rattle.std.specs.Option.{option_copied};
ghost use Rattle.clap.specs.Matches.{found_of};
ghost use Rattle.clap.specs.Walk.{rows_of};
ghost use Rattle.clap.specs.Simple.{subcommand_rows_of};
ghost use Rattle.command_words.specs.Forms.{FormView};
ghost use Rattle.command_words.specs.Read.{Says, SaysSome, alone_given, given_in, read_found, soak_given, wordless_named, words_in};
ghost use Rattle.command_words.specs.View.{view_of};

use crate::fault::WordsFault;
use crate::form::{ALL_WORDLESS, Form, Wordless};
use crate::list::read_list_or_none;
use clap::ArgMatches;
use number_text::read_decimal;
use std::alloc::Global;

fn run_by(alloc: Global, refuse: Option<&str>, breaks: Option<&str>) -> Result<Form, WordsFault>
    ensures ok { IfOk result (λ form. Says
        (record { refuses = option_copied refuse.entry; breaks = option_copied breaks.entry })
        (view_of form)) }
    ensures no_form { result ≡ Err WordsFault.NoForm → (form : FormView) → Says
        (record { refuses = option_copied refuse.entry; breaks = option_copied breaks.entry })
        form → ⊥ }
{
    let refuse = read_list_or_none(alloc, refuse)?;
    let breaks = read_list_or_none(alloc, breaks)?;
    Ok(Form::Run { refuse, breaks })
}

fn run_in(alloc: Global, inner: &ArgMatches) -> Result<Form, WordsFault>
    ensures ok { IfOk result (λ form. Says (given_in (rows_of (found_of inner.now)))
        (view_of form)) }
    ensures no_form { result ≡ Err WordsFault.NoForm →
        (form : FormView) → Says (given_in (rows_of (found_of inner.now))) form → ⊥ }
{
    run_by(alloc, inner.get_str("refuse"), inner.get_str("break"))
}

/// The form with this word alone.
fn wordless_named(name: &str) -> Option<Wordless>
    ensures { result ≡ wordless_named name.now }
{
    ALL_WORDLESS
        .iter()
        .copied()
        .find(|form| form.name() == name)
}

/// The form, where no words follow its name.
fn form_alone(form: Wordless, inner: &ArgMatches) -> Result<Form, WordsFault>
    ensures ok { IfOk result (λ said. SaysSome
        (alone_given (Some form) (words_in (rows_of (found_of inner.now)))) (view_of said)) }
    ensures no_form { result ≡ Err WordsFault.NoForm → (said : FormView) → SaysSome
        (alone_given (Some form) (words_in (rows_of (found_of inner.now)))) said → ⊥ }
{
    match inner.get_strs("words") {
        None => Ok(Form::Wordless(form)),
        Some(words) => {
            if words.is_empty() {
                Ok(Form::Wordless(form))
            } else {
                Err(WordsFault::NoForm)
            }
        }
    }
}

/// The most lines of a script that are drawn.
const MOST_DRAWN: u64 = 100000;

/// The script that these two words say: its seed, and how many lines are drawn.
fn soak_of(first: &str, second: &str) -> Result<Form, WordsFault>
    ensures ok { IfOk result (λ form. SaysSome (soak_given (first.now ∷ second.now ∷ []))
        (view_of form)) }
    ensures no_form { result ≡ Err WordsFault.NoForm → (form : FormView) →
        SaysSome (soak_given (first.now ∷ second.now ∷ [])) form → ⊥ }
{
    let Some(seed) = read_decimal(first.as_bytes(), u64::MAX) else {
        return Err(WordsFault::NoForm);
    };
    let Some(count) = read_decimal(second.as_bytes(), MOST_DRAWN) else {
        return Err(WordsFault::NoForm);
    };
    Ok(Form::Soak {
        seed,
        count: count as u32,
    })
}

fn soak_by(words: &[&str]) -> Result<Form, WordsFault>
    ensures ok { IfOk result (λ form. SaysSome (soak_given (map (λ word. word.now) words.now))
        (view_of form)) }
    ensures no_form { result ≡ Err WordsFault.NoForm → (form : FormView) →
        SaysSome (soak_given (map (λ word. word.now) words.now)) form → ⊥ }
{
    match words {
        [first, second] => soak_of(first, second),
        _ => Err(WordsFault::NoForm),
    }
}

fn soak_in(inner: &ArgMatches) -> Result<Form, WordsFault>
    ensures ok { IfOk result (λ form. SaysSome
        (soak_given (words_in (rows_of (found_of inner.now)))) (view_of form)) }
    ensures no_form { result ≡ Err WordsFault.NoForm → (form : FormView) → SaysSome
        (soak_given (words_in (rows_of (found_of inner.now)))) form → ⊥ }
{
    match inner.get_strs("words") {
        None => Err(WordsFault::NoForm),
        Some(words) => soak_by(words),
    }
}

/// The form that the matches say.
pub fn form_in(alloc: Global, matches: &ArgMatches) -> Result<Form, WordsFault>
    ensures ok { IfOk result (λ form. SaysSome (read_found (subcommand_rows_of matches.now))
        (view_of form)) }
    ensures no_form { result ≡ Err WordsFault.NoForm →
        (form : FormView) → SaysSome (read_found (subcommand_rows_of matches.now)) form → ⊥ }
{
    match matches.subcommand() {
        None => Err(WordsFault::NoForm),
        Some((name, inner)) => {
            if name == "run" {
                return run_in(alloc, inner);
            }
            if name == "soak" {
                return soak_in(inner);
            }
            match wordless_named(name) {
                None => Err(WordsFault::NoForm),
                Some(form) => form_alone(form, inner),
            }
        }
    }
}
