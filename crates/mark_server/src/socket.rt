ghost use Rattle.std.specs.Prelude.{◌≡◌, Ok, None};
ghost use Rattle.mark_server.specs.Sockets as calls;

use crate::marks;
use crate::user_access::access;
use crate::users::{has_system, may_protect};
use net_names::{Code, Name};
use policy_state::State;
use uid_ranges::Uid;

/// A socket: its user, the word of its mark, and the index of the link to which it is bound.
#[derive(Clone, Copy, PartialEq, Eq, Debug)]
pub struct Socket {
    pub uid: Uid,
    pub mark: u32,
    pub bound: Option<u16>,
}

// The socket after each call, or why the call is refused.
impl Socket {
    // A socket that isn't bound.
    pub(crate) fn new(uid: Uid, mark: u32) -> Socket
        ensures { result ≡ record { uid = uid; mark = mark; bound = None } }
    {
        Socket {
            uid,
            mark,
            bound: None,
        }
    }

    fn with_mark(self, mark: u32) -> Socket
        ensures { result ≡ record self { mark = mark } }
    {
        Socket { mark, ..self }
    }

    pub(crate) fn connected(self, state: &State) -> Socket
        ensures { Ok result ≡ calls.connecting state.now self }
    {
        self.with_mark(marks::connected(state, self.uid, self.mark))
    }

    pub(crate) fn selected(self, state: &State, net: u16) -> Result<Socket, Code>
        ensures { result ≡ calls.selecting state.now net self }
    {
        if net == 0 {
            return Ok(self.with_mark(marks::cleared(self.mark)));
        }
        match access(state, self.uid, net) {
            Ok(()) => Ok(self.with_mark(marks::selected(state, self.uid, net, self.mark))),
            Err(code) => Err(code),
        }
    }

    pub(crate) fn protected(self, state: &State) -> Result<Socket, Code>
        ensures { result ≡ calls.protecting state.now self }
    {
        if !may_protect(state, self.uid) {
            return Err(Code::NotPermitted);
        }
        Ok(self.with_mark(marks::protected(state, self.uid, self.mark)))
    }

    pub(crate) fn selected_for(self, state: &State, user: Uid) -> Result<Socket, Code>
        ensures { result ≡ calls.selecting_for state.now user self }
    {
        if !has_system(state, self.uid) {
            return Err(Code::NotPermitted);
        }
        Ok(self.with_mark(marks::selected_for(state, self.uid, user, self.mark)))
    }

    pub(crate) fn bound_to(self, state: &State, link: &Name) -> Result<Socket, Code>
        ensures { result ≡ calls.binding state.now link.now self }
    {
        match state.link_named(link) {
            Some(index) => Ok(Socket {
                bound: Some(index),
                ..self
            }),
            None => Err(Code::NoDevice),
        }
    }

    pub(crate) fn unbound(self) -> Socket
        ensures { Ok result ≡ calls.unbinding self }
    {
        Socket {
            bound: None,
            ..self
        }
    }
}
