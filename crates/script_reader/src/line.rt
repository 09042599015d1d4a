use commands::Command;
use net_names::Name;
use prefixes::{Addr, Family};
use uid_ranges::Uid;

/// A line of a script. A comment is `Blank`.
#[derive(Drop)]
pub enum Line {
    Blank,
    Control(Command),
    Socket(SocketLine),
    Trace(TraceLine),
    Show(ShowLine),
}

/// A call of a socket's owner.
#[derive(Clone, Copy)]
pub enum SocketLine {
    Open { name: Name, uid: Uid },
    Close { name: Name },
    /// From now on the socket sends by this link alone.
    Bind { name: Name, link: Name },
    Unbind { name: Name },
    Connect { name: Name },
    /// A socket of its own for what came in by this link.
    Accept { name: Name, uid: Uid, link: Name },
    /// The socket is to use this network, or with 0 none in particular.
    Select { name: Name, net: u16 },
    Protect { name: Name },
    /// The socket is to use the network of this user.
    SelectFor { name: Name, user: Uid },
    /// Whether the user may use the network.
    Access { uid: Uid, net: u16 },
}

/// A question about the way of a packet.
#[derive(Clone, Copy)]
pub enum TraceLine {
    /// What the socket sends to this address.
    Trace {
        name: Name,
        dest: Addr,
    },
    /// A packet that the device makes, bound to a link or to none.
    Made {
        uid: Uid,
        mark: u32,
        dest: Addr,
        link: Option<Name>,
    },
    /// A packet that comes in by this link and is passed on.
    Passed {
        link: Name,
        dest: Addr,
    },
    /// From now on each command tells where it changes the way of what the socket sends to this address.
    Watch {
        name: Name,
        dest: Addr,
    },
    WatchOff,
}

/// A question about what there is.
#[derive(Clone, Copy, Debug, PartialEq, Eq)]
pub enum ShowLine {
    /// The rules of a family.
    Rules { family: Family },
    /// The routes of the table of this number.
    Table { number: u32 },
    Networks,
    Sockets,
}
