//! Networks as the rows of the rule table see them, whole or with those of their interfaces and ranges alone that a change touches.
ghost use Rattle.std.specs.Prelude.{◌≡◌, ◌==◌, [], None};
ghost use Rattle.network_store.specs.Stored as stored;
ghost use Rattle.networks.specs.Kinds.{permission_of, ranges_of};
ghost use Rattle.policy_state.specs.Rows.{picks};
ghost use Rattle.policy_state.specs.Step.{asking_for};
ghost use Rattle.rule_compile.specs.Shapes.{shape_kind, shape_net, unrouted};
ghost use Rattle.rule_compile.specs.Touched.{kind_having};

use fwmark::Permission;
use network_store::{StoredKind, StoredNetwork};
use policy_state::NetworkSet;
use uid_ranges::Ranked;

/// What a network is for, with ranges of its own or of others.
#[derive(Clone, Copy)]
pub(crate) enum ShapeKind<'a> {
    Local,
    Physical {
        permission: Permission,
        apps: &'a [Ranked],
    },
    Virtual {
        secure: bool,
        users: &'a [Ranked],
    },
}

/// A network without its routes.
#[derive(Clone, Copy)]
pub(crate) struct Shape<'a> {
    pub(crate) id: u16,
    pub(crate) kind: ShapeKind<'a>,
    pub(crate) links: &'a [u16],
}

impl<'a> ShapeKind<'a> {
    fn of(kind: &'a StoredKind) -> ShapeKind<'a>
        ensures { shape_kind result ≡ stored.kind_of kind.now }
    {
        match kind {
            StoredKind::Local => ShapeKind::Local,
            StoredKind::Physical { permission, apps } => ShapeKind::Physical {
                permission: *permission,
                apps: apps.as_slice(),
            },
            StoredKind::Virtual { secure, users } => ShapeKind::Virtual {
                secure: *secure,
                users: users.as_slice(),
            },
        }
    }

    /// The kind with these ranges in the place of its own.
    pub(crate) fn having(&self, ranges: &'a [Ranked]) -> ShapeKind<'a>
        ensures { shape_kind result ≡ kind_having ranges.now (shape_kind self.now) }
    {
        match *self {
            ShapeKind::Local => ShapeKind::Local,
            ShapeKind::Physical { permission, .. } => ShapeKind::Physical {
                permission,
                apps: ranges,
            },
            ShapeKind::Virtual { secure, .. } => ShapeKind::Virtual {
                secure,
                users: ranges,
            },
        }
    }

    /// The kind where a physical network asks for this permission.
    pub(crate) fn asking(&self, permission: Permission) -> ShapeKind<'a>
        ensures { shape_kind result ≡ asking_for permission (shape_kind self.now) }
    {
        match *self {
            ShapeKind::Local => ShapeKind::Local,
            ShapeKind::Physical { apps, .. } => ShapeKind::Physical { permission, apps },
            ShapeKind::Virtual { secure, users } => ShapeKind::Virtual { secure, users },
        }
    }

    /// The permission that the network asks for.
    pub(crate) fn permission(&self) -> Permission
        ensures { result ≡ permission_of (shape_kind self.now) }
    {
        match *self {
            ShapeKind::Physical { permission, .. } => permission,
            ShapeKind::Local | ShapeKind::Virtual { .. } => Permission::Nothing,
        }
    }

    /// The apps that a physical network is preferred for, or the users of a VPN.
    pub(crate) fn ranges(&self) -> &'a [Ranked]
        ensures { result.now ≡ ranges_of (shape_kind self.now) }
    {
        match *self {
            ShapeKind::Local => &[],
            ShapeKind::Physical { apps, .. } => apps,
            ShapeKind::Virtual { users, .. } => users,
        }
    }
}

impl<'a> Shape<'a> {
    pub(crate) fn of(network: &'a StoredNetwork) -> Shape<'a>
        ensures { shape_net result ≡ unrouted (stored.net_of network.now) }
    {
        Shape {
            id: network.id,
            kind: ShapeKind::of(&network.kind),
            links: network.interfaces.as_slice(),
        }
    }

    /// Whether a row has rules for the network.
    pub(crate) fn is_picked(&self, set: NetworkSet, default: Option<u16>) -> bool
        ensures { result ≡ picks set default (shape_net self.now) }
    {
        match set {
            NetworkSet::OfLocal => matches!(self.kind, ShapeKind::Local),
            NetworkSet::OfPhysical => matches!(self.kind, ShapeKind::Physical { .. }),
            NetworkSet::OfFree => match self.kind {
                ShapeKind::Physical { permission, .. } => permission == Permission::Nothing,
                ShapeKind::Local | ShapeKind::Virtual { .. } => false,
            },
            NetworkSet::OfDefault => {
                matches!(self.kind, ShapeKind::Physical { .. }) && default == Some(self.id)
            }
            NetworkSet::OfVirtual => matches!(self.kind, ShapeKind::Virtual { .. }),
            NetworkSet::OfSecure => match self.kind {
                ShapeKind::Virtual { secure, .. } => secure,
                ShapeKind::Local | ShapeKind::Physical { .. } => false,
            },
            NetworkSet::OfBypass => match self.kind {
                ShapeKind::Virtual { secure, .. } => !secure,
                ShapeKind::Local | ShapeKind::Physical { .. } => false,
            },
        }
    }
}
