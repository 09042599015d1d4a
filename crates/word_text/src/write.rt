// The words of values.
ghost use Rattle.std.specs.Fmt.{decimal};
ghost use Rattle.number_text.specs.Appends.{Appends};
ghost use Rattle.word_text.specs.Kinds.{kind_of};
ghost use Rattle.word_text.specs.Slots.{slot};
ghost use Rattle.word_text.specs.Texts.{mark_text, range_text, ranges_text, value_text};
ghost use Rattle.word_text.specs.Grammar.{permission_text};

use crate::kind::Kind;
use crate::values::Values;
use addr_text::{write_addr, write_prefix};
use fwmark::Permission;
use net_names::Name;
use number_text::{append_byte, append_bytes, write_decimal, write_hexadecimal};
use std::alloc::AllocError;
use uid_ranges::{Uid, UidRange};

/// Appends the word of a mark.
pub fn write_mark(mark: u32, out: &mut Vec<u8>) -> Result<(), AllocError>
    ensures { Appends out.old out.new result (mark_text mark) }
{
    append_bytes(b"0x", out)?;
    write_hexadecimal(u64::from(mark), out)
}

/// Appends the word of a UID.
pub fn write_uid(uid: Uid, out: &mut Vec<u8>) -> Result<(), AllocError>
    ensures { Appends out.old out.new result (decimal uid.number) }
{
    write_decimal(u64::from(uid.number()), out)
}

/// Appends the word of a range of UIDs.
pub fn write_range(range: UidRange, out: &mut Vec<u8>) -> Result<(), AllocError>
    ensures { Appends out.old out.new result (range_text range.first range.last) }
{
    write_uid(range.first(), out)?;
    append_byte(b'-', out)?;
    write_uid(range.last(), out)
}

/// Appends the word of a permission.
pub fn write_permission(permission: Permission, out: &mut Vec<u8>) -> Result<(), AllocError>
    ensures { Appends out.old out.new result (permission_text permission) }
{
    match permission {
        Permission::Nothing => append_bytes(b"none", out),
        Permission::Network => append_bytes(b"network", out),
        Permission::System => append_bytes(b"system", out),
    }
}

/// Appends a name.
pub fn write_name(name: &Name, out: &mut Vec<u8>) -> Result<(), AllocError>
    ensures { Appends out.old out.new result name.now }
{
    append_bytes(name.as_bytes(), out)
}

/// Appends a number of at most 32 bits.
pub fn write_number(number: u32, out: &mut Vec<u8>) -> Result<(), AllocError>
    ensures { Appends out.old out.new result (decimal number) }
{
    write_decimal(u64::from(number), out)
}

/// Appends ranges with a comma between each two.
pub fn write_ranges(list: &[UidRange], out: &mut Vec<u8>) -> Result<(), AllocError>
    ensures { Appends out.old out.new result (ranges_text list.now) }
{
    match list {
        [] => Ok(()),
        [range] => write_range(*range, out),
        [range, more @ ..] => {
            write_range(*range, out)?;
            append_byte(b',', out)?;
            write_ranges(more, out)
        }
    }
}

/// Appends the word of a kind: its own text, or the value of its name. The ranges of a line stand beside its other values.
pub fn write_value(
    kind: Kind,
    v: &Values,
    list: &[UidRange],
    out: &mut Vec<u8>,
) -> Result<(), AllocError>
    ensures { Appends out.old out.new result
        (value_text (kind_of kind) (slot (kind_of kind) v.now list.now)) }
{
    match kind {
        Kind::Word(text) => append_bytes(text, out),
        Kind::Name => write_name(&v.name, out),
        Kind::Other => write_name(&v.other, out),
        Kind::Index => write_number(u32::from(v.index), out),
        Kind::Net => write_number(u32::from(v.net), out),
        Kind::Rank => write_number(u32::from(v.rank), out),
        Kind::Table => write_number(v.table, out),
        Kind::Permission => write_permission(v.permission, out),
        Kind::Uid => write_uid(v.uid, out),
        Kind::Mark => write_mark(v.mark, out),
        Kind::Range => write_range(v.range, out),
        Kind::Ranges => write_ranges(list, out),
        Kind::Addr => write_addr(v.addr, out),
        Kind::Prefix => write_prefix(v.prefix, out),
    }
}
