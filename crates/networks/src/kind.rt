use fwmark::Permission;
use uid_ranges::{Ranked, RankedList};

/// What a network is for.
#[derive(Clone, Debug, Drop)]
pub enum Kind {
    /// What is reached without the internet. There is one, from the start.
    Local,
    /// A network that only packets with this permission may choose, and that is preferred for the apps of these ranges.
    Physical {
        permission: Permission,
        apps: RankedList,
    },
    /// A VPN for the users of these ranges. A secure one leaves them no other way.
    Virtual {
        secure: bool,
        users: RankedList,
    },
}

impl Kind {
    ghost use Rattle.std.specs.Prelude.{◌≡◌};
    ghost use Rattle.networks.specs.Kinds.{
      permission_of,
      ranges_of,
      is_local,
      is_physical,
      is_virtual,
      is_free,
      is_secure,
      is_bypass,
    };

    /// The permission that the network asks for.
    pub fn permission(&self) -> Permission
        ensures { result ≡ permission_of self.now }
    {
        match self {
            Kind::Physical { permission, .. } => *permission,
            Kind::Local | Kind::Virtual { .. } => Permission::Nothing,
        }
    }

    /// The apps that a physical network is preferred for, or the users of a VPN.
    pub fn ranges(&self) -> &[Ranked]
        ensures { result.now ≡ ranges_of self.now }
    {
        match self {
            Kind::Local => &[],
            Kind::Physical { apps, .. } => apps.as_slice(),
            Kind::Virtual { users, .. } => users.as_slice(),
        }
    }

    pub fn is_local(&self) -> bool
        ensures { result ≡ is_local self.now }
    {
        matches!(self, Kind::Local)
    }

    pub fn is_physical(&self) -> bool
        ensures { result ≡ is_physical self.now }
    {
        matches!(self, Kind::Physical { .. })
    }

    pub fn is_virtual(&self) -> bool
        ensures { result ≡ is_virtual self.now }
    {
        matches!(self, Kind::Virtual { .. })
    }

    /// Whether it is physical and asks for no permission.
    pub fn is_free(&self) -> bool
        ensures { result ≡ is_free self.now }
    {
        match self {
            Kind::Physical { permission, .. } => *permission == Permission::Nothing,
            Kind::Local | Kind::Virtual { .. } => false,
        }
    }

    /// Whether it is a VPN that leaves its users no other way.
    pub fn is_secure(&self) -> bool
        ensures { result ≡ is_secure self.now }
    {
        match self {
            Kind::Virtual { secure, .. } => *secure,
            Kind::Local | Kind::Physical { .. } => false,
        }
    }

    /// Whether it is a VPN that its users may pass by.
    pub fn is_bypass(&self) -> bool
        ensures { result ≡ is_bypass self.now }
    {
        match self {
            Kind::Virtual { secure, .. } => !*secure,
            Kind::Local | Kind::Physical { .. } => false,
        }
    }
}
