use kernel_model::{Entry, EntryKind, Kernel, Request};
use number_text::{append_bytes, write_decimal};
use policy_state::State;
use prefixes::Family;
use report_text::{write_route, write_rule};
use std::alloc::AllocError;

/// What became of a request, and which one it was.
fn verb(kind: EntryKind) -> &'static [u8] {
    match kind {
        EntryKind::Added => b"  added ",
        EntryKind::Deleted => b"  deleted ",
        EntryKind::Refused => b"  refused ",
        EntryKind::Broken => b"  failed to delete ",
    }
}

fn family_words(family: Family) -> &'static [u8] {
    match family {
        Family::V4 => b"-4 rule ",
        Family::V6 => b"-6 rule ",
    }
}

/// Appends an entry of the journal as a line of `ip rule` or `ip route`.
fn write_entry(state: &State, entry: Entry, out: &mut Vec<u8>) -> Result<(), AllocError> {
    append_bytes(verb(entry.kind), out)?;
    match entry.request {
        Request::Rule { family, rule } => {
            append_bytes(family_words(family), out)?;
            write_rule(state, &rule, out)?;
        }
        Request::Route { table, route } => {
            append_bytes(b"route table ", out)?;
            write_decimal(u64::from(table), out)?;
            append_bytes(b" ", out)?;
            write_route(state, &route, out)?;
        }
    }
    append_bytes(b"\n", out)
}

/// Appends what the kernel was asked since its journal had this many entries.
pub fn log_requests<K: Kernel>(
    state: &State,
    kernel: &K,
    since: u64,
    out: &mut Vec<u8>,
) -> Result<(), AllocError> {
    for place in since..kernel.entry_count() {
        if let Some(entry) = kernel.entry_at(place) {
            write_entry(state, entry, out)?;
        }
    }
    Ok(())
}
