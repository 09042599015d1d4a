ghost use Rattle.std.specs.Prelude.{◌≡◌, ◌<◌, ◌↔◌, bit_and, IsTrue};
ghost use Rattle.fwmark.specs.Permission.{bits_of, suffices};

/// What a network asks of its users, or what a user has.
#[derive(Clone, Copy, PartialEq, Eq, Debug)]
pub enum Permission {
    Nothing,
    Network,
    System,
}

impl Permission {
    /// Its two bits in a mark: 0, 1 or 3. The bits 2 stand for no permission of their own.
    pub fn bits(self) -> u8
        ensures { result ≡ bits_of self }
    {
        match self {
            Permission::Nothing => 0,
            Permission::Network => 1,
            Permission::System => 3,
        }
    }
}

/// Whether a holder of these two bits may use what needs the permission.
pub fn suffices(have: u8, need: Permission) -> bool
    requires { have < 4 }
    ensures word { result ≡ suffices have need }
    ensures mask { IsTrue result ↔ (bit_and have (bits_of need) ≡ bits_of need) }
{
    have & need.bits() == need.bits()
}
