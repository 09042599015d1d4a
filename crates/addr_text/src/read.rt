ghost use Rattle.std.specs.Prelude.{◌≡◌, ℕ, IfNone, IfSome};
ghost use Rattle.addr_text.specs.Grammar.{Spells, SpellsPrefix, SpellsV4, SpellsV6};
ghost use Rattle.prefixes.specs.declared.addr.Addr.{Addr};
ghost use Rattle.prefixes.specs.declared.prefix.Prefix.{Prefix};

use crate::form::Form;
use crate::groups::read_groups;
use crate::row::{number_of, read_parts};
use crate::split::split_at_byte;
use number_text::read_decimal;
use prefixes::{Addr, Prefix};

fn read_v4(text: &[u8]) -> Option<u32>
    ensures some { IfSome result (SpellsV4 text.now) }
    ensures none { IfNone result ((value : ℕ) → SpellsV4 text.now value → ⊥) }
{
    let octets = read_parts(text, Form::Octets)?;
    if octets.len() == 4 {
        Some(number_of(octets.as_slice(), Form::Octets) as u32)
    } else {
        None
    }
}

fn read_v6(text: &[u8]) -> Option<u128>
    ensures some { IfSome result (SpellsV6 text.now) }
    ensures none { IfNone result ((value : ℕ) → SpellsV6 text.now value → ⊥) }
{
    let groups = read_groups(text)?;
    Some(number_of(groups.as_slice(), Form::Groups))
}

/// The address that the text spells.
pub fn read_addr(text: &[u8]) -> Option<Addr>
    ensures some { IfSome result (Spells text.now) }
    ensures none { IfNone result ((addr : Addr) → Spells text.now addr → ⊥) }
{
    if text.contains(&b':') {
        Some(Addr::V6(read_v6(text)?))
    } else {
        Some(Addr::V4(read_v4(text)?))
    }
}

/// The prefix that the text spells.
pub fn read_prefix(text: &[u8]) -> Option<Prefix>
    ensures some { IfSome result (SpellsPrefix text.now) }
    ensures none { IfNone result ((prefix : Prefix) → SpellsPrefix text.now prefix → ⊥) }
{
    let (base, len) = split_at_byte(text, b'/')?;
    Prefix::new(read_addr(base)?, read_decimal(len, 128)? as u8)
}
