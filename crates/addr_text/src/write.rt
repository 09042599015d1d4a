ghost use Rattle.std.specs.Prelude.{◌≡◌, ℕ, ◌+◌, ◌≤◌, vec_len, vec_capacity, IsOk};
ghost use Rattle.std.specs.Fmt.{decimal};
ghost use Rattle.number_text.specs.Appends.{Appends};
ghost use Rattle.addr_text.specs.Canonical.{canonical, canonical_prefix, groups_of, groups_text};

use crate::form::Form;
use crate::row::{parts_of, write_parts};
use crate::run::longest_run;
use number_text::{append_byte, append_bytes, write_decimal};
use prefixes::{Addr, Prefix};
use std::alloc::AllocError;

fn write_groups(groups: &[u16], out: &mut Vec<u8>) -> Result<(), AllocError>
    ensures { Appends out.old out.new result (groups_text groups.now) }
{
    let run = longest_run(groups);
    if run.len < 2 {
        return write_parts(groups, Form::Groups, out);
    }
    write_parts(&groups[..run.start], Form::Groups, out)?;
    append_bytes(b"::", out)?;
    write_parts(&groups[run.start + run.len..], Form::Groups, out)
}

/// Appends the text of the address.
pub fn write_addr(addr: Addr, out: &mut Vec<u8>) -> Result<(), AllocError>
    ensures text { Appends out.old out.new result (canonical addr) }
    ensures room { vec_len out.old + 39 ≤ vec_capacity out.old → IsOk result }
{
    match addr {
        Addr::V4(value) => write_parts(
            parts_of(value.into(), Form::Octets).as_slice(),
            Form::Octets,
            out,
        ),
        Addr::V6(value) => write_groups(parts_of(value, Form::Groups).as_slice(), out),
    }
}

/// Appends the text of the prefix.
pub fn write_prefix(prefix: Prefix, out: &mut Vec<u8>) -> Result<(), AllocError>
    ensures { Appends out.old out.new result (canonical_prefix prefix) }
{
    write_addr(prefix.base(), out)?;
    append_byte(b'/', out)?;
    write_decimal(u64::from(prefix.len()), out)
}
