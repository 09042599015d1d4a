ghost use Rattle.std.specs.Prelude.{◌<◌};
ghost use Rattle.commands.specs.Commands.{FitsTypes};

use crate::ranges::Ranges;
use fwmark::Permission;
use net_names::Name;
use prefixes::{Addr, Prefix};
use uid_ranges::{Uid, UidRange};

/// Where a new route leads.
#[derive(Clone, Copy, Debug, PartialEq, Eq)]
pub enum Way {
    /// Straight to the hosts of its prefix.
    Direct,
    /// By this gateway.
    Via(Addr),
    Unreachable,
    /// On to the next rule.
    Throw,
}

/// What the policy is asked to change.
#[derive(Debug, Drop)]
pub enum Command {
    LinkAdd {
        name: Name,
        index: u16,
    },
    LinkRemove {
        name: Name,
    },
    /// A network that only users with this permission may choose.
    CreatePhysical {
        net: u16,
        permission: Permission,
    },
    /// A VPN. A secure one leaves its users no other way.
    CreateVirtual {
        net: u16,
        secure: bool,
    },
    Destroy {
        net: u16,
    },
    InterfaceAdd {
        net: u16,
        name: Name,
    },
    InterfaceRemove {
        net: u16,
        name: Name,
    },
    RouteAdd {
        net: u16,
        name: Name,
        prefix: Prefix,
        way: Way,
    },
    /// The route of this prefix by the link, or the special one of this prefix.
    RouteRemove {
        net: u16,
        name: Name,
        prefix: Prefix,
        special: bool,
    },
    /// The users of these ranges go by the VPN. The lower the rank, the earlier it comes among the VPNs of a user.
    UsersAdd {
        net: u16,
        rank: u8,
        ranges: Ranges,
    },
    UsersRemove {
        net: u16,
        ranges: Ranges,
    },
    /// The apps of these ranges prefer the physical network.
    AppAdd {
        net: u16,
        rank: u8,
        ranges: Ranges,
    },
    AppRemove {
        net: u16,
        ranges: Ranges,
    },
    DefaultSet {
        net: u16,
    },
    DefaultClear,
    PermissionNetwork {
        net: u16,
        permission: Permission,
    },
    PermissionUser {
        uid: Uid,
        permission: Permission,
    },
    /// From now on the user has the permission of a user for whom none was set.
    PermissionClear {
        uid: Uid,
    },
    /// The user may protect sockets from VPNs.
    ProtectAllow {
        uid: Uid,
    },
    ProtectDeny {
        uid: Uid,
    },
    /// From now on the apps of these UIDs are to use a VPN or nothing.
    LockdownAdd {
        range: UidRange,
    },
    LockdownRemove {
        range: UidRange,
    },
    /// What comes in by the input may go on by the output.
    TetherAdd {
        input: Name,
        out: Name,
    },
    TetherRemove {
        input: Name,
        out: Name,
    },
}

fn is_below_65536(number: u16)
    ensures { number < 65536 }
{
    let _ = number;
}

impl Command {
    /// Every command's numbers lie within their types. A law over all views of commands can't know it, so callers get it here.
    pub fn fits_types(&self)
        ensures { FitsTypes self.now }
    {
        match self {
            Command::LinkAdd { index, .. } => is_below_65536(*index),
            Command::CreatePhysical { net, .. } => is_below_65536(*net),
            Command::CreateVirtual { net, .. } => is_below_65536(*net),
            Command::LinkRemove { .. }
            | Command::Destroy { .. }
            | Command::InterfaceAdd { .. }
            | Command::InterfaceRemove { .. }
            | Command::RouteAdd { .. }
            | Command::RouteRemove { .. }
            | Command::UsersAdd { .. }
            | Command::UsersRemove { .. }
            | Command::AppAdd { .. }
            | Command::AppRemove { .. }
            | Command::DefaultSet { .. }
            | Command::DefaultClear
            | Command::PermissionNetwork { .. }
            | Command::PermissionUser { .. }
            | Command::PermissionClear { .. }
            | Command::ProtectAllow { .. }
            | Command::ProtectDeny { .. }
            | Command::LockdownAdd { .. }
            | Command::LockdownRemove { .. }
            | Command::TetherAdd { .. }
            | Command::TetherRemove { .. } => {}
        }
    }
}
