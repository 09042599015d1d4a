ghost use Rattle.std.specs.Prelude.{◌≡◌, ◌+◌, ◌<◌};
ghost use Rattle.number_text.specs.Appends.{Appends};
ghost use Rattle.script_gen.specs.Words.{block_text, mark_words, pair_words, permission_words, subnet_text};

use number_text::{append_bytes, write_decimal};
use std::alloc::AllocError;

/// A network of the first lines with its interface.
pub fn pair_words(number: u32) -> &'static [u8]
    ensures { result.now ≡ pair_words number }
{
    match number {
        0 => b"100 w0",
        1 => b"101 w1",
        2 => b"99 w2",
        3 => b"200 t0",
        _ => b"201 t1",
    }
}

/// A permission, and a line feed.
pub fn permission_words(number: u32) -> &'static [u8]
    ensures { result.now ≡ permission_words number }
{
    match number {
        0 => b"none\n",
        1 => b"network\n",
        _ => b"system\n",
    }
}

/// The mark of a packet: of no network, of one of the first lines, explicitly of one, or protected.
pub fn mark_words(number: u32) -> &'static [u8]
    ensures { result.now ≡ mark_words number }
{
    match number {
        0 => b"0x0",
        1 => b"0x64",
        2 => b"0x65",
        3 => b"0xc8",
        4 => b"0xc9",
        5 => b"0x10064",
        _ => b"0x20000",
    }
}

/// Appends an address within 10.0.0.0/8 with this second octet, and what follows it.
pub fn write_subnet(octet: u32, ending: &[u8], out: &mut Vec<u8>) -> Result<(), AllocError>
    ensures { Appends out.old out.new result (subnet_text octet ending.now) }
{
    append_bytes(b" 10.", out)?;
    write_decimal(u64::from(octet), out)?;
    append_bytes(ending, out)
}

/// Appends one of fifty ranges of a hundred users, the first of which begins at 10000, and a line feed.
pub fn write_block(number: u32, out: &mut Vec<u8>) -> Result<(), AllocError>
    requires { number < 50 }
    ensures { Appends out.old out.new result (block_text number) }
{
    let first = 10000 + 100 * u64::from(number);
    write_decimal(first, out)?;
    append_bytes(b"-", out)?;
    write_decimal(first + 99, out)?;
    append_bytes(b"\n", out)
}
