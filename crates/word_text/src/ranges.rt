ghost use Rattle.std.specs.Prelude.{◌↔◌, IsTrue, List};
ghost use Rattle.uid_ranges.specs.declared.range.UidRange.{UidRange};
ghost use Rattle.word_text.specs.Grammar.{SpellsRanges};
ghost use Rattle.word_text.specs.Kinds.{ReadsRanges};

use crate::read::read_range;
use addr_text::split_at_byte;
use std::alloc::AllocError;
use uid_ranges::UidRange;

/// Whether the word spells ranges.
pub fn are_ranges(word: &[u8]) -> bool
    ensures { IsTrue result ↔ ((list : List UidRange) × SpellsRanges word.now list) }
{
    match split_at_byte(word, b',') {
        None => read_range(word).is_some(),
        Some((first, rest)) => read_range(first).is_some() && are_ranges(rest),
    }
}

/// Appends the ranges that the word spells; answers whether it spells any.
pub fn read_ranges(word: &[u8], out: &mut Vec<UidRange>) -> Result<bool, AllocError>
    ensures { ReadsRanges word.now out.old.items out.new.items result }
{
    match split_at_byte(word, b',') {
        None => match read_range(word) {
            None => Ok(false),
            Some(range) => {
                out.push(range)?;
                Ok(true)
            }
        },
        Some((first, rest)) => match read_range(first) {
            None => Ok(false),
            Some(range) => {
                out.push(range)?;
                read_ranges(rest, out)
            }
        },
    }
}
