ghost use Rattle.std.specs.Prelude.{◌≤◌, MatchOption};
ghost use Rattle.script_reader.specs.Cursor.{end_of, words_left, Fit, IsAfter};
ghost use Rattle.script_reader.specs.Finds.{Finds, StopsAt};
ghost use Rattle.word_text.specs.Grammar.{AreOf};
ghost use Rattle.word_text.specs.Kinds.{kinds_in};
ghost use Rattle.script_reader.specs.Words.{texts};

use crate::form::{Form, entries};
use crate::words::Words;
use word_text::Kind;

/// So many of the first words fit, and these are the words after them.
#[derive(Clone, Copy)]
pub struct Reached<'a> {
    pub count: usize,
    pub after: Words<'a>,
}

/// The words after so many, of which more were gone over.
fn back_to<'a>(words: Words<'a>, count: usize, reached: Reached<'a>) -> Words<'a>
    requires fewer { count ≤ reached.count }
    requires after { IsAfter reached.count words reached.after }
    ensures { IsAfter count words.entry result }
{
    if count == reached.count {
        return reached.after;
    }
    let mut after = words;
    for _gone in 0..count {
        after.advance();
    }
    after
}

/// Where the words stop being of these kinds; none where they are of them. So many of the first ones are known to be.
fn stop<'a>(
    kinds: &[Kind],
    known: usize,
    words: Words<'a>,
    reached: Reached<'a>,
) -> Option<Reached<'a>>
    requires fewer { known ≤ reached.count }
    requires after { IsAfter reached.count words reached.after }
    requires fit { Fit known (kinds_in kinds.now) (words_left words) }
    ensures { MatchOption result
        (AreOf (kinds_in kinds.now) (texts (words_left words.entry)))
        (StopsAt (kinds_in kinds.now) words.entry) }
{
    let mut after = back_to(words, known, reached);
    for count in known..kinds.len() {
        let Some(word) = after.first() else {
            return Some(Reached { count, after });
        };
        if !kinds[count].fits(word) {
            return Some(Reached { count, after });
        }
        after.advance();
    }
    match after.first() {
        None => None,
        Some(_) => Some(Reached {
            count: kinds.len(),
            after,
        }),
    }
}

/// The form of the words. A fault is the column where the form that fits farthest stops. A word that a form has in common
/// with the one before it is looked at once.
pub fn find(words: Words<'_>) -> Result<Form, u32>
    ensures { Finds words.entry result }
{
    let mut farthest: u32 = 0;
    let mut reached = Reached {
        count: 0,
        after: words,
    };
    for entry in entries() {
        if entry.shared > reached.count {
            continue;
        }
        match stop(entry.form.kinds(), entry.shared, words, reached) {
            None => return Ok(entry.form),
            Some(stopped) => {
                reached = stopped;
                farthest = farthest.max(stopped.after.column());
            }
        }
    }
    Err(farthest)
}
