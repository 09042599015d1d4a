ghost use Rattle.std.specs.Prelude.{◌≡◌, ℕ, List, Err, IfOk};
ghost use Rattle.std.specs.Option.{option_copied};
ghost use Rattle.command_words.specs.Forms.{IsList};
ghost use Rattle.command_words.specs.Read.{IsListOrNone};

use crate::fault::WordsFault;
use number_text::read_decimal;
use std::alloc::{AllocError, Global};

/// The highest number of a request that an option may name.
const HIGHEST: u64 = 4294967295;

/// The most numbers of a list.
const MOST_NUMBERS: usize = 1000;

/// The numbers of a list: rising, separated by commas.
pub fn read_list(alloc: Global, text: &str) -> Result<Vec<u64>, WordsFault>
    ensures ok { IfOk result (λ numbers. IsList text.now numbers.items) }
    ensures no_form { result ≡ Err WordsFault.NoForm → (numbers : List ℕ) →
        IsList text.now numbers → ⊥ }
{
    let mut numbers = Vec::new(alloc);
    let mut last: u64 = 0;
    for piece in text.split(',') {
        let Some(number) = read_decimal(piece.as_bytes(), HIGHEST) else {
            return Err(WordsFault::NoForm);
        };
        if number <= last || numbers.len() >= MOST_NUMBERS {
            return Err(WordsFault::NoForm);
        }
        numbers
            .push(number)
            .map_err(|_| WordsFault::Memory(AllocError))?;
        last = number;
    }
    Ok(numbers)
}

/// The numbers of a list, or none where no list is given.
pub fn read_list_or_none(alloc: Global, text: Option<&str>) -> Result<Vec<u64>, WordsFault>
    ensures ok { IfOk result (λ numbers. IsListOrNone (option_copied text.entry) numbers.items) }
    ensures no_form { result ≡ Err WordsFault.NoForm → (numbers : List ℕ) →
        IsListOrNone (option_copied text.entry) numbers → ⊥ }
{
    match text {
        None => Ok(Vec::new(alloc)),
        Some(text) => read_list(alloc, text),
    }
}
