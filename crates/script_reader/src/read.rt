ghost use Rattle.std.specs.Prelude.{◌≡◌, ◌⊎◌, IfOk, IfErr, MatchOption};
ghost use Rattle.script_reader.specs.BadLines.{HasBadByte, IfBad, IfMemory, IsBadAt, IsTooLong};
ghost use Rattle.script_reader.specs.Cursor.{words_left};
ghost use Rattle.script_reader.specs.Finds.{ReadsForm, TakesWord};
ghost use Rattle.word_text.specs.Grammar.{AreOf};
ghost use Rattle.word_text.specs.Kinds.{kind_of};
ghost use Rattle.script_reader.specs.Lines.{IsText, Spells, SpellsList, is_printable};
ghost use Rattle.script_reader.specs.Rows.{kinds_of};
ghost use Rattle.script_reader.specs.Words.{texts};
ghost use Rattle.script_reader.specs.declared.line.Line.{Line};

use crate::fault::LineFault;
use crate::find::find;
use crate::form::Form;
use crate::line::Line;
use crate::say::say;
use crate::words::Words;
use commands::Ranges;
use std::alloc::{AllocError, Global};
use uid_ranges::UidRange;
use word_text::{Kind, Values, read_ranges};

/// The most bytes of a line.
const LINE_LIMIT: usize = 512;

fn is_printable(byte: u8) -> bool
    ensures { result ≡ is_printable byte }
{
    32 <= byte && byte <= 126
}

/// The column of the first byte that no line may have.
fn bad_byte(text: &[u8]) -> Option<u32>
    ensures { MatchOption result
        (IsText text.now)
        (λ column. IsTooLong text.now column ⊎ HasBadByte text.now column) }
{
    if text.len() > LINE_LIMIT {
        return Some(513);
    }
    for (place, byte) in text.iter().enumerate() {
        if !is_printable(*byte) {
            return Some(place as u32 + 1);
        }
    }
    None
}

/// Keeps what a word of this kind says: a value by its name, or ranges after those of the list.
fn take_word(
    kind: Kind,
    word: &[u8],
    values: &mut Values,
    list: &mut Vec<UidRange>,
) -> Result<(), AllocError>
    ensures { TakesWord (kind_of kind) word.now
        values.old values.new
        list.old.items list.new.items result }
{
    if let Kind::Ranges = kind {
        let _ = read_ranges(word, list)?;
    } else {
        let _ = values.read(kind, word);
    }
    Ok(())
}

/// The line of the words, which are of this form.
fn read_form(alloc: Global, form: Form, mut words: Words<'_>) -> Result<Line, AllocError>
    requires { AreOf (kinds_of form) (texts (words_left words)) }
    ensures { ReadsForm form words.entry result }
{
    let kinds = form.kinds();
    let mut values = Values::nothing();
    let mut list = Vec::new(alloc);
    for kind in kinds {
        let Some(word) = words.first() else {
            unreachable!()
        };
        take_word(*kind, word, &mut values, &mut list)?;
        words.advance();
    }
    Ok(say(form, &values, Ranges::of(list)))
}

/// The line that the text spells, without its line feed.
pub fn read_line(alloc: Global, text: &[u8]) -> Result<Line, LineFault>
    ensures line { IfOk result (Spells text.now) }
    ensures bad { IfErr result (IfBad (IsBadAt text.now)) }
    ensures none { IfErr result (IfBad (λ _. (line : Line) → Spells text.now line → ⊥)) }
    ensures memory { IfErr result (IfMemory (SpellsList text.now)) }
{
    if let Some(column) = bad_byte(text) {
        return Err(LineFault::Bad { column });
    }
    let words = Words::of(text);
    if words.is_blank() {
        return Ok(Line::Blank);
    }
    match find(words) {
        Err(column) => Err(LineFault::Bad { column }),
        Ok(form) => read_form(alloc, form, words).map_err(LineFault::Memory),
    }
}
