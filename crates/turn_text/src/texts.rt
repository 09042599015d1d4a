ghost use Rattle.std.specs.Prelude.{◌≡◌, [], ◌++◌, ◌+◌, ◌≤◌, vec_len, vec_capacity};
ghost use Rattle.number_text.specs.Appends.{Appends};
ghost use Rattle.turn_text.specs.Texts.{IsCounted, answer_room, answer_text, bad_text, number_line, numbered, refused_text, start_halted_text, start_refused_text, start_room};

use crate::answer::Answer;
use net_names::Code;
use number_text::{append_bytes, write_decimal};
use std::alloc::AllocError;

// Appends some words, a number and a line feed.
fn write_number_line(words: &[u8], number: u64, out: &mut Vec<u8>) -> Result<(), AllocError>
    ensures { Appends out.old out.new result (number_line words.now number) }
{
    append_bytes(words, out)?;
    write_decimal(number, out)?;
    append_bytes(b"\n", out)
}

/// Appends the text of a refusal.
pub fn write_refused(code: Code, out: &mut Vec<u8>) -> Result<(), AllocError>
    ensures { Appends out.old out.new result (refused_text code) }
{
    append_bytes(b"refused ", out)?;
    append_bytes(code.text().as_bytes(), out)?;
    append_bytes(b"\n", out)
}

fn write_words(answer: &Answer, out: &mut Vec<u8>) -> Result<(), AllocError>
    ensures { Appends out.old out.new result (answer_text answer.now) }
{
    match *answer {
        Answer::Done => append_bytes(b"done\n", out),
        Answer::Refused { code } => write_refused(code, out),
        Answer::KernelRefused { request } => {
            write_number_line(b"kernel refused request ", request, out)
        }
        Answer::Halted { request } => write_number_line(b"halted at request ", request, out),
    }
}

/// Appends what a line's answer begins with: its number.
pub fn write_line_number(number: u32, out: &mut Vec<u8>) -> Result<(), AllocError>
    ensures { Appends out.old out.new result (numbered number []) }
{
    write_decimal(u64::from(number), out)?;
    append_bytes(b": ", out)
}

fn write_answer(number: u32, answer: &Answer, out: &mut Vec<u8>) -> Result<(), AllocError>
    ensures { Appends out.old out.new result (numbered number (answer_text answer.now)) }
{
    write_decimal(u64::from(number), out)?;
    append_bytes(b": ", out)?;
    write_words(answer, out)
}

/// Appends the answer to a command, in the room that is there.
pub fn put_answer(number: u32, answer: &Answer, out: &mut Vec<u8>)
    requires room { vec_len out.old + answer_room ≤ vec_capacity out.old }
    requires counted { IsCounted answer.now }
    ensures { out.new.items ≡ out.old.items ++ numbered number (answer_text answer.now) }
{
    let _ = write_answer(number, answer, out);
}

/// Appends the text of a bad line.
pub fn write_bad_line(number: u32, column: u32, out: &mut Vec<u8>) -> Result<(), AllocError>
    ensures { Appends out.old out.new result (numbered number (bad_text column)) }
{
    write_decimal(u64::from(number), out)?;
    append_bytes(b": ", out)?;
    write_number_line(b"bad line at column ", u64::from(column), out)
}

/// Appends the text of a start that the kernel refused, in the room that is there.
pub fn put_start_refused(request: u64, out: &mut Vec<u8>)
    requires room { vec_len out.old + start_room ≤ vec_capacity out.old }
    ensures { out.new.items ≡ out.old.items ++ start_refused_text request }
{
    let _ = write_number_line(b"start: refused at request ", request, out);
}

/// Appends the text of a start that was halted, in the room that is there.
pub fn put_start_halted(request: u64, out: &mut Vec<u8>)
    requires room { vec_len out.old + start_room ≤ vec_capacity out.old }
    ensures { out.new.items ≡ out.old.items ++ start_halted_text request }
{
    let _ = write_number_line(b"start: halted at request ", request, out);
}
