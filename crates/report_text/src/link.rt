ghost use Rattle.std.specs.Prelude.{◌≤◌, length};
ghost use Rattle.number_text.specs.Appends.{Appends};
ghost use Rattle.report_text.specs.Links.{link_text};

use number_text::{append_byte, append_bytes, write_decimal};
use policy_state::State;
use std::alloc::AllocError;

/// Appends the name of a link.
pub fn write_link(state: &State, link: u16, out: &mut Vec<u8>) -> Result<(), AllocError>
    ensures text { Appends out.old out.new result (link_text state.now link) }
    ensures short { length (link_text state.now link) ≤ 15 }
{
    match state.name_of(link) {
        Some(name) => append_bytes(name.as_bytes(), out),
        None => {
            append_byte(b'#', out)?;
            write_decimal(u64::from(link), out)
        }
    }
}
