ghost use Rattle.std.specs.Prelude.{◌≡◌, ◌<◌, ◌++◌, Some, codes, flat_map, length, slice_get};
ghost use Rattle.number_text.specs.Appends.{Appends};
ghost use Rattle.word_text.specs.Texts.{mark_text};
ghost use Rattle.report_text.specs.SocketTexts.{bound_text, line_text, socket_line, sockets_text, user_text};

use crate::link::write_link;
use mark_server::{Socket, SocketTable};
use net_names::Name;
use number_text::{append_byte, append_bytes, write_decimal};
use policy_state::State;
use std::alloc::AllocError;
use uid_ranges::Uid;
use word_text::write_mark;

fn write_bound(state: &State, bound: Option<u16>, out: &mut Vec<u8>) -> Result<(), AllocError>
    ensures { Appends out.old out.new result (bound_text state.now bound) }
{
    match bound {
        None => append_bytes(b"-", out),
        Some(link) => write_link(state, link, out),
    }
}

fn write_user(name: &Name, uid: Uid, out: &mut Vec<u8>) -> Result<(), AllocError>
    ensures { Appends out.old out.new result (user_text name.now uid) }
{
    append_bytes(b"  ", out)?;
    append_bytes(name.as_bytes(), out)?;
    append_bytes(b" uid ", out)?;
    write_decimal(u64::from(uid.number()), out)
}

fn write_user_and_mark(name: &Name, socket: &Socket, out: &mut Vec<u8>) -> Result<(), AllocError>
    ensures { Appends out.old out.new result
        (user_text name.now socket.now.uid ++ codes " mark " ++ mark_text socket.now.mark) }
{
    write_user(name, socket.uid, out)?;
    append_bytes(b" mark ", out)?;
    write_mark(socket.mark, out)
}

fn write_line(
    state: &State,
    name: &Name,
    socket: &Socket,
    out: &mut Vec<u8>,
) -> Result<(), AllocError>
    ensures { Appends out.old out.new result (line_text state.now name.now socket.now) }
{
    write_user_and_mark(name, socket, out)?;
    append_bytes(b" bound ", out)?;
    write_bound(state, socket.bound, out)?;
    append_byte(b'\n', out)
}

fn socket_at(sockets: &SocketTable, place: usize) -> (Name, Socket)
    requires { place < length sockets.now }
    ensures { slice_get sockets.now place ≡ Some result }
{
    sockets.at(place).unwrap()
}

fn write_lines(state: &State, sockets: &SocketTable, out: &mut Vec<u8>) -> Result<(), AllocError>
    ensures { Appends out.old out.new result (flat_map (socket_line state.now) sockets.now) }
{
    for place in 0..sockets.len() {
        let (name, socket) = socket_at(sockets, place);
        write_line(state, &name, &socket, out)?;
    }
    Ok(())
}

/// Appends how many sockets there are, and each socket in the order of their creation.
pub fn write_sockets(
    state: &State,
    sockets: &SocketTable,
    out: &mut Vec<u8>,
) -> Result<(), AllocError>
    ensures { Appends out.old out.new result (sockets_text state.now sockets.now) }
{
    write_decimal(sockets.len() as u64, out)?;
    append_bytes(b" sockets\n", out)?;
    write_lines(state, sockets, out)
}
