ghost use Rattle.std.specs.Prelude.{◌≡◌, ℕ, ◌<◌, ◌≤◌, false};
ghost use Rattle.std.specs.Fmt.{decimal, digit_glyph, digits};
ghost use Rattle.number_text.specs.Appends.{Appends};
ghost use Rattle.number_text.specs.Numbers.{hexadecimal};

use crate::append::append_byte;
use std::alloc::AllocError;

/// The digit 0 to 9 or a to f.
fn digit_byte(digit: u8) -> u8
    requires { digit < 16 }
    ensures { result ≡ digit_glyph false digit }
{
    if digit < 10 {
        b'0' + digit
    } else {
        b'a' + (digit - 10)
    }
}

/// Appends the digits of the number in a base up to 16.
fn write_digits(n: u64, base: u64, out: &mut Vec<u8>) -> Result<(), AllocError>
    requires low { 2 ≤ base }
    requires high { base ≤ 16 }
    ensures { Appends out.old out.new result (digits base false n) }
{
    if n < base {
        return append_byte(digit_byte(n as u8), out);
    }
    write_digits(n / base, base, out)?;
    append_byte(digit_byte((n % base) as u8), out)
}

/// Appends the number in decimal.
pub fn write_decimal(n: u64, out: &mut Vec<u8>) -> Result<(), AllocError>
    ensures { Appends out.old out.new result (decimal n) }
{
    write_digits(n, 10, out)
}

/// Appends the number in hexadecimal, in lower case.
pub fn write_hexadecimal(n: u64, out: &mut Vec<u8>) -> Result<(), AllocError>
    ensures { Appends out.old out.new result (hexadecimal n) }
{
    write_digits(n, 16, out)
}
