// The values that a word can spell.
ghost use Rattle.std.specs.Prelude.{◌≡◌, ◌++◌, ℕ, List, ◌<◌, ◌^◌, codes, IfSome, IfNone, MatchOption};
ghost use Rattle.number_text.specs.Numbers.{SpellsHexadecimal};
ghost use Rattle.word_text.specs.Grammar.{addr, count, index, link, mark, named, net, permission, prefix, range, rank, table, uid};
ghost use Rattle.word_text.specs.Kinds.{Gives};

use addr_text::{read_addr, read_prefix, split_at_byte};
use fwmark::Permission;
use net_names::Name;
use number_text::{read_decimal, read_hexadecimal};
use prefixes::{Addr, Prefix};
use uid_ranges::{Uid, UidRange};

/// The index of a link that the word spells.
pub fn read_index(word: &[u8]) -> Option<u16>
    ensures { Gives (count index) word.now result }
{
    let number = read_decimal(word, 65535)?;
    if number < 2 {
        return None;
    }
    Some(number as u16)
}

/// The id of a network that the word spells.
pub fn read_net(word: &[u8]) -> Option<u16>
    ensures { Gives (count net) word.now result }
{
    Some(read_decimal(word, 65535)? as u16)
}

/// The rank of ranges that the word spells.
pub fn read_rank(word: &[u8]) -> Option<u8>
    ensures { Gives (count rank) word.now result }
{
    Some(read_decimal(word, 99)? as u8)
}

/// The number of a table that the word spells.
pub fn read_table(word: &[u8]) -> Option<u32>
    ensures { Gives (count table) word.now result }
{
    Some(read_decimal(word, 4_294_967_295)? as u32)
}

/// The name that the word spells.
pub fn read_name(word: &[u8]) -> Option<Name>
    ensures { Gives (named link) word.now result }
{
    Name::from_bytes(word)
}

/// The permission that the word spells.
pub fn read_permission(word: &[u8]) -> Option<Permission>
    ensures { Gives permission word.now result }
{
    match word {
        b"none" => Some(Permission::Nothing),
        b"network" => Some(Permission::Network),
        b"system" => Some(Permission::System),
        _ => None,
    }
}

/// The UID that the word spells.
pub fn read_uid(word: &[u8]) -> Option<Uid>
    ensures { Gives uid word.now result }
{
    Uid::new(read_decimal(word, 4_294_967_294)? as u32)
}

/// The range of UIDs that the word spells.
pub fn read_range(word: &[u8]) -> Option<UidRange>
    ensures { Gives range word.now result }
{
    let (first, last) = split_at_byte(word, b'-')?;
    UidRange::new(read_uid(first)?, read_uid(last)?)
}

/// The word's digits as a number of 32 bits.
fn read_bits(digits: &[u8]) -> Option<u32>
    ensures some { IfSome result (SpellsHexadecimal digits.now) }
    ensures none { IfNone result
        ((bits : ℕ) → bits < 2 ^ 32 → SpellsHexadecimal digits.now bits → ⊥) }
{
    Some(read_hexadecimal(digits, 0xffff_ffff)? as u32)
}

/// What stands after '0x'.
fn behind_0x(word: &[u8]) -> Option<&[u8]>
    ensures { MatchOption result
        ((digits : List ℕ) → word.now ≡ codes "0x" ++ digits → ⊥)
        (λ digits. word.now ≡ codes "0x" ++ digits.now) }
{
    word.strip_prefix(b"0x")
}

/// The mark that the word spells.
pub fn read_mark(word: &[u8]) -> Option<u32>
    ensures { Gives mark word.now result }
{
    let digits = behind_0x(word)?;
    if digits.len() > 8 {
        return None;
    }
    read_bits(digits)
}

/// The address that the word spells.
pub fn read_address(word: &[u8]) -> Option<Addr>
    ensures { Gives addr word.now result }
{
    read_addr(word)
}

/// The prefix that the word spells.
pub fn read_destination(word: &[u8]) -> Option<Prefix>
    ensures { Gives prefix word.now result }
{
    read_prefix(word)
}
