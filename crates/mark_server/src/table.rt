ghost use Rattle.std.specs.Prelude.{◌≡◌, ◌↔◌, ◌++◌, ◌∷◌, [], None, Some, false, Ok, Err, length, slice_get, IfOk, OnOk, OnErr};
ghost use Rattle.std.specs.Map.{set_value};
ghost use Rattle.std.specs.Option.{option_map};
ghost use Rattle.std.specs.Str.{bytes_eq};
ghost use Rattle.mark_server.specs.Fields.{word_of};
ghost use Rattle.mark_server.specs.Marks as marks;
ghost use Rattle.mark_server.specs.Sockets as calls;

use crate::fault::SocketFault;
use crate::marks::accepted;
use crate::socket::Socket;
use indexmap::IndexMap;
use net_names::{Code, Name};
use policy_state::State;
use std::alloc::{AllocError, Global};
use std::marker::Model;
use uid_ranges::Uid;

/// The most sockets at a time.
pub const MOST_SOCKETS: usize = 10_000;

/// The sockets in the order of their creation, each found by its name without a search. Only opening a socket and accepting one
/// take memory.
#[derive(Drop)]
pub struct SocketTable {
    by_name: IndexMap<Name, Socket>,
}

impl Model for SocketTable {
    ghost use Rattle.mark_server.specs.Sockets.{Sockets};

    ghost Value = { Sockets };

    ghost view = { λ t. t.by_name.entries };
}

// The first mark of a socket for a connection that came in by the link, where that is an interface.
fn accepted_by(state: &State, uid: Uid, link: &Name) -> Option<u32>
    ensures { result ≡ option_map (λ n. word_of (marks.accepted state.now uid n))
        (calls.network_by state.now link.now) }
{
    let Some(index) = state.link_named(link) else {
        return None;
    };
    match state.networks().network_of(index) {
        Some(network) => Some(accepted(state, uid, network)),
        None => None,
    }
}

impl SocketTable {
    /// No sockets.
    pub fn new(alloc: Global) -> SocketTable
        ensures { result ≡ [] }
    {
        SocketTable {
            by_name: IndexMap::new(alloc),
        }
    }

    /// How many sockets there are.
    pub fn len(&self) -> usize
        ensures { result ≡ length self.now }
    {
        self.by_name.len()
    }

    /// The socket at a place, from 0, with its name.
    pub fn at(&self, place: usize) -> Option<(Name, Socket)>
        ensures { result ≡ slice_get self.now place }
    {
        match self.by_name.get_index(place) {
            Some((name, socket)) => Some((*name, *socket)),
            None => None,
        }
    }

    /// The socket of this name.
    pub fn get(&self, name: &Name) -> Option<Socket>
        ensures { result ≡ calls.socket_of name.now self.now }
    {
        self.by_name.get(name).copied()
    }

    fn is_taken(&self, name: &Name) -> bool
        ensures { result ≡ calls.is_taken name.now self.now }
    {
        self.by_name.contains_key(name)
    }

    fn is_full(&self) -> bool
        ensures { result ≡ calls.is_full self.now }
    {
        MOST_SOCKETS <= self.len()
    }

    // Puts the socket after the others.
    fn push(&mut self, name: Name, socket: Socket) -> Result<(), AllocError>
        requires { calls.is_taken name self.old ≡ false }
        ensures pushed { OnOk result (self.new ≡ self.old ++ (name, socket) ∷ []) }
        ensures kept { OnErr result (self.new ≡ self.old) }
    {
        self.by_name.insert(name, socket)?;
        Ok(())
    }

    // Puts the socket of this name in the place of the one that is there, and answers its mark.
    fn put(&mut self, name: &Name, socket: Socket) -> u32
        ensures sockets { self.new ≡ set_value (bytes_eq name.now) self.old socket }
        ensures mark { result ≡ socket.mark }
    {
        let Some(place) = self.by_name.get_mut(name) else {
            return socket.mark;
        };
        *place = socket;
        socket.mark
    }

    /// Makes a socket of this user, with mark 0.
    pub fn open(&mut self, name: Name, uid: Uid) -> Result<u32, SocketFault>
        ensures sockets { OnOk result (self.new ≡
            calls.put_last name (calls.opening name uid self.old) self.old) }
        ensures mark { IfOk result (λ mark.
            calls.mark_in (calls.opening name uid self.old) ≡ Ok mark) }
        ensures kept { OnErr result (self.new ≡ self.old) }
        ensures refused { (code : Code) → (result ≡ Err (SocketFault.Refused code)) ↔
            (calls.opening name uid self.old ≡ Err code) }
    {
        if self.is_taken(&name) {
            return Err(SocketFault::Refused { code: Code::Exists });
        }
        if self.is_full() {
            return Err(SocketFault::Refused {
                code: Code::NoSpace,
            });
        }
        match self.push(name, Socket::new(uid, 0)) {
            Ok(()) => Ok(0),
            Err(fault) => Err(SocketFault::Memory(fault)),
        }
    }

    /// Makes a socket of this user for a connection that came in by the link. It has the network of the link, and is protected.
    pub fn accept(
        &mut self,
        state: &State,
        name: Name,
        uid: Uid,
        link: &Name,
    ) -> Result<u32, SocketFault>
        ensures sockets { OnOk result (self.new ≡
            calls.put_last name (calls.accepting state.now name uid link.now self.old) self.old) }
        ensures mark { IfOk result (λ mark.
            calls.mark_in (calls.accepting state.now name uid link.now self.old) ≡ Ok mark) }
        ensures kept { OnErr result (self.new ≡ self.old) }
        ensures refused { (code : Code) → (result ≡ Err (SocketFault.Refused code)) ↔
            (calls.accepting state.now name uid link.now self.old ≡ Err code) }
    {
        if self.is_taken(&name) {
            return Err(SocketFault::Refused { code: Code::Exists });
        }
        let Some(mark) = accepted_by(state, uid, link) else {
            return Err(SocketFault::Refused {
                code: Code::NoDevice,
            });
        };
        if self.is_full() {
            return Err(SocketFault::Refused {
                code: Code::NoSpace,
            });
        }
        match self.push(name, Socket::new(uid, mark)) {
            Ok(()) => Ok(mark),
            Err(fault) => Err(SocketFault::Memory(fault)),
        }
    }

    /// Takes the socket of this name out. The others keep their order.
    pub fn close(&mut self, name: &Name) -> Result<(), Code>
        ensures answer { result ≡ calls.closing name.now self.old }
        ensures sockets { self.new ≡ calls.closed name.now self.old }
        ensures kept { OnErr result (self.new ≡ self.old) }
    {
        match self.by_name.shift_remove(name) {
            Some(_) => Ok(()),
            None => Err(Code::NoEntry),
        }
    }

    /// Binds the socket to the link.
    pub fn bind(&mut self, state: &State, name: &Name, link: &Name) -> Result<u32, Code>
        ensures answer { result ≡
            calls.answer name.now (calls.binding state.now link.now) self.old }
        ensures sockets { self.new ≡
            calls.after name.now (calls.binding state.now link.now) self.old }
    {
        let Some(socket) = self.get(name) else {
            return Err(Code::NoEntry);
        };
        match socket.bound_to(state, link) {
            Ok(socket) => Ok(self.put(name, socket)),
            Err(code) => Err(code),
        }
    }

    /// Takes the binding away.
    pub fn unbind(&mut self, name: &Name) -> Result<u32, Code>
        ensures answer { result ≡ calls.answer name.now calls.unbinding self.old }
        ensures sockets { self.new ≡ calls.after name.now calls.unbinding self.old }
    {
        let Some(socket) = self.get(name) else {
            return Err(Code::NoEntry);
        };
        Ok(self.put(name, socket.unbound()))
    }

    /// Gives the socket the network by which it is to connect, unless it has selected one, and its user's permission.
    pub fn connect(&mut self, state: &State, name: &Name) -> Result<u32, Code>
        ensures answer { result ≡ calls.answer name.now (calls.connecting state.now) self.old }
        ensures sockets { self.new ≡ calls.after name.now (calls.connecting state.now) self.old }
    {
        let Some(socket) = self.get(name) else {
            return Err(Code::NoEntry);
        };
        Ok(self.put(name, socket.connected(state)))
    }

    /// Selects a network for the socket, where its user may use it; 0 selects none.
    pub fn select(&mut self, state: &State, name: &Name, net: u16) -> Result<u32, Code>
        ensures answer { result ≡ calls.answer name.now (calls.selecting state.now net) self.old }
        ensures sockets { self.new ≡ calls.after name.now (calls.selecting state.now net) self.old }
    {
        let Some(socket) = self.get(name) else {
            return Err(Code::NoEntry);
        };
        match socket.selected(state, net) {
            Ok(socket) => Ok(self.put(name, socket)),
            Err(code) => Err(code),
        }
    }

    /// Protects the socket from VPNs, where its user may.
    pub fn protect(&mut self, state: &State, name: &Name) -> Result<u32, Code>
        ensures answer { result ≡ calls.answer name.now (calls.protecting state.now) self.old }
        ensures sockets { self.new ≡ calls.after name.now (calls.protecting state.now) self.old }
    {
        let Some(socket) = self.get(name) else {
            return Err(Code::NoEntry);
        };
        match socket.protected(state) {
            Ok(socket) => Ok(self.put(name, socket)),
            Err(code) => Err(code),
        }
    }

    /// Gives the socket the network of another user, where its own user has the system's permission.
    pub fn select_for(&mut self, state: &State, name: &Name, user: Uid) -> Result<u32, Code>
        ensures answer { result ≡
            calls.answer name.now (calls.selecting_for state.now user) self.old }
        ensures sockets { self.new ≡
            calls.after name.now (calls.selecting_for state.now user) self.old }
    {
        let Some(socket) = self.get(name) else {
            return Err(Code::NoEntry);
        };
        match socket.selected_for(state, user) {
            Ok(socket) => Ok(self.put(name, socket)),
            Err(code) => Err(code),
        }
    }
}
