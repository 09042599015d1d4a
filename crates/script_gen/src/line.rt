ghost use Rattle.std.specs.Prelude.{◌≡◌};
ghost use Rattle.number_text.specs.Appends.{Appends};
ghost use Rattle.script_gen.specs.Draws.{after_draw};
ghost use Rattle.script_gen.specs.Lines.{default_text, form_after, form_text, interface_text, line_after, line_text, lockdown_text, packet_text, permission_text, route_text, users_text, words_and_number};

use crate::draws::Draws;
use crate::words::{mark_words, pair_words, permission_words, write_block, write_subnet};
use number_text::{append_byte, append_bytes, write_decimal};
use std::alloc::AllocError;

fn write_words_and_number(words: &[u8], number: u32, out: &mut Vec<u8>) -> Result<(), AllocError>
    ensures { Appends out.old out.new result (words_and_number words.now number) }
{
    append_bytes(words, out)?;
    write_decimal(u64::from(number), out)?;
    append_byte(b' ', out)
}

fn write_route(verb: &[u8], draws: &mut Draws, out: &mut Vec<u8>) -> Result<(), AllocError>
    ensures text { Appends out.old out.new result (route_text verb.now draws.old.number) }
    ensures after { draws.new.number ≡ after_draw (after_draw draws.old.number) }
{
    let pair = draws.draw(5);
    let octet = draws.draw(256);
    append_bytes(verb, out)?;
    append_bytes(pair_words(pair), out)?;
    write_subnet(octet, b".0.0/16\n", out)
}

fn write_users(verb: &[u8], draws: &mut Draws, out: &mut Vec<u8>) -> Result<(), AllocError>
    ensures text { Appends out.old out.new result (users_text verb.now draws.old.number) }
    ensures after { draws.new.number ≡ after_draw (after_draw draws.old.number) }
{
    let net = 200 + draws.draw(2);
    let block = draws.draw(50);
    write_words_and_number(verb, net, out)?;
    write_block(block, out)
}

fn write_lockdown(verb: &[u8], draws: &mut Draws, out: &mut Vec<u8>) -> Result<(), AllocError>
    ensures text { Appends out.old out.new result (lockdown_text verb.now draws.old.number) }
    ensures after { draws.new.number ≡ after_draw draws.old.number }
{
    let block = draws.draw(50);
    append_bytes(verb, out)?;
    write_block(block, out)
}

fn write_default(draws: &mut Draws, out: &mut Vec<u8>) -> Result<(), AllocError>
    ensures text { Appends out.old out.new result (default_text draws.old.number) }
    ensures after { draws.new.number ≡ after_draw draws.old.number }
{
    let net = 100 + draws.draw(2);
    append_bytes(b"default set ", out)?;
    write_decimal(u64::from(net), out)?;
    append_byte(b'\n', out)
}

fn write_permission(draws: &mut Draws, out: &mut Vec<u8>) -> Result<(), AllocError>
    ensures text { Appends out.old out.new result (permission_text draws.old.number) }
    ensures after { draws.new.number ≡ after_draw (after_draw draws.old.number) }
{
    let net = 100 + draws.draw(2);
    let permission = draws.draw(3);
    write_words_and_number(b"permission network ", net, out)?;
    append_bytes(permission_words(permission), out)
}

fn write_packet(draws: &mut Draws, out: &mut Vec<u8>) -> Result<(), AllocError>
    ensures text { Appends out.old out.new result (packet_text draws.old.number) }
    ensures after { draws.new.number ≡ after_draw (after_draw (after_draw draws.old.number)) }
{
    let uid = 10000 + draws.draw(5000);
    let mark = draws.draw(7);
    let octet = draws.draw(256);
    write_words_and_number(b"packet ", uid, out)?;
    append_bytes(mark_words(mark), out)?;
    write_subnet(octet, b".0.1\n", out)
}

fn write_interface(draws: &mut Draws, out: &mut Vec<u8>) -> Result<(), AllocError>
    ensures text { Appends out.old out.new result (interface_text draws.old.number) }
    ensures after { draws.new.number ≡ after_draw (after_draw draws.old.number) }
{
    let comes = draws.draw(2) == 1;
    let pair = draws.draw(5);
    let verb: &[u8] = if comes {
        b"interface add "
    } else {
        b"interface remove "
    };
    append_bytes(verb, out)?;
    append_bytes(pair_words(pair), out)?;
    append_byte(b'\n', out)
}

/// Appends a line of this form, and draws what it names.
fn write_form(form: u32, draws: &mut Draws, out: &mut Vec<u8>) -> Result<(), AllocError>
    ensures text { Appends out.old out.new result (form_text form draws.old.number) }
    ensures after { draws.new.number ≡ form_after form draws.old.number }
{
    match form {
        0 => write_route(b"route add ", draws, out),
        1 => write_route(b"route remove ", draws, out),
        2 => write_users(b"users add ", draws, out),
        3 => write_users(b"users remove ", draws, out),
        4 => write_lockdown(b"lockdown add ", draws, out),
        5 => write_lockdown(b"lockdown remove ", draws, out),
        6 => write_default(draws, out),
        7 => write_permission(draws, out),
        8 => write_packet(draws, out),
        _ => write_interface(draws, out),
    }
}

/// Appends the next line: its form is drawn first, and then what the form names.
pub fn write_line(draws: &mut Draws, out: &mut Vec<u8>) -> Result<(), AllocError>
    ensures text { Appends out.old out.new result (line_text draws.old.number) }
    ensures after { draws.new.number ≡ line_after draws.old.number }
{
    let form = draws.draw(10);
    write_form(form, draws, out)
}
