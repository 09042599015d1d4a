ghost use Rattle.std.specs.Prelude.{◌≡◌, ℕ, ◌<◌, IfNone, IfSome};
ghost use Rattle.number_text.specs.Appends.{Appends};
ghost use Rattle.addr_text.specs.Forms.{base_of, count_of, part_text, separator_of, SpellsPart};

use number_text::{read_decimal, read_digits, write_decimal, write_hexadecimal};
use std::alloc::AllocError;

/// What the parts of an address are, and how they are written.
#[derive(Clone, Copy)]
pub enum Form {
    /// Decimal numbers with dots between them, as in IPv4.
    Octets,
    /// Hexadecimal numbers with colons between them, as in IPv6.
    Groups,
}

impl Form {
    /// How many values a part can have.
    pub fn base(self) -> u128
        ensures { result ≡ base_of self }
    {
        match self {
            Form::Octets => 256,
            Form::Groups => 65536,
        }
    }

    /// How many parts an address has.
    pub fn count(self) -> u8
        ensures { result ≡ count_of self }
    {
        match self {
            Form::Octets => 4,
            Form::Groups => 8,
        }
    }

    /// The byte between two parts.
    pub fn separator(self) -> u8
        ensures { result ≡ separator_of self }
    {
        match self {
            Form::Octets => b'.',
            Form::Groups => b':',
        }
    }

    /// The part that the text spells.
    pub fn read_part(self, text: &[u8]) -> Option<u16>
        ensures some { IfSome result (SpellsPart self text.now) }
        ensures none { IfNone result ((part : ℕ) → SpellsPart self text.now part → ⊥) }
    {
        let part = match self {
            Form::Octets => read_decimal(text, 255)?,
            Form::Groups if text.len() > 4 => return None,
            Form::Groups => read_digits(text, 16, 0xffff)?,
        };
        Some(part as u16)
    }

    /// Appends the text of the part.
    pub fn write_part(self, part: u16, out: &mut Vec<u8>) -> Result<(), AllocError>
        ensures { Appends out.old out.new result (part_text self part) }
    {
        match self {
            Form::Octets => write_decimal(u64::from(part), out),
            Form::Groups => write_hexadecimal(u64::from(part), out),
        }
    }
}
