// The canonical text of lines.
ghost use Rattle.std.specs.Prelude.{[], ◌++◌, ◌∷◌};
ghost use Rattle.number_text.specs.Appends.{Appends};
ghost use Rattle.script_reader.specs.Canonical.{printed, words_text};
ghost use Rattle.word_text.specs.Texts.{line_feed};

use crate::line::Line;
use crate::say::parts;
use number_text::append_byte;
use std::alloc::AllocError;
use uid_ranges::UidRange;
use word_text::{Kind, Values, write_value};

/// Appends words of these kinds with a space between each two.
fn write_words(
    kinds: &[Kind],
    v: &Values,
    list: &[UidRange],
    out: &mut Vec<u8>,
) -> Result<(), AllocError>
    ensures { Appends out.old out.new result (words_text kinds.now v.now list.now) }
{
    match kinds {
        [] => Ok(()),
        [kind] => write_value(*kind, v, list, out),
        [kind, more @ ..] => {
            write_value(*kind, v, list, out)?;
            append_byte(b' ', out)?;
            write_words(more, v, list, out)
        }
    }
}

/// The same with a line feed.
fn write_line(
    kinds: &[Kind],
    v: &Values,
    list: &[UidRange],
    out: &mut Vec<u8>,
) -> Result<(), AllocError>
    ensures { Appends out.old out.new result
        (words_text kinds.now v.now list.now ++ line_feed ∷ []) }
{
    write_words(kinds, v, list, out)?;
    append_byte(b'\n', out)
}

/// Appends the canonical text of a line, with a line feed; nothing for a blank line.
pub fn print_line(line: &Line, out: &mut Vec<u8>) -> Result<(), AllocError>
    ensures { Appends out.old out.new result (printed line.now) }
{
    match parts(line) {
        None => Ok(()),
        Some((form, v, list)) => write_line(form.kinds(), &v, list, out),
    }
}
