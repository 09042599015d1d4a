ghost use Rattle.std.specs.Prelude.{◌≡◌};
ghost use Rattle.prefixes.specs.Addr.{family_of, width_of, value_of};

/// The family of an address, and of a list of rules.
#[derive(Clone, Copy, Debug, PartialEq, Eq)]
pub enum Family {
    V4,
    V6,
}

/// An address as a number, its first byte the highest.
#[derive(Clone, Copy, Debug, PartialEq, Eq)]
pub enum Addr {
    V4(u32),
    V6(u128),
}

impl Addr {
    /// The address's family.
    pub fn family(self) -> Family
        ensures { result ≡ family_of self }
    {
        match self {
            Addr::V4(_) => Family::V4,
            Addr::V6(_) => Family::V6,
        }
    }

    /// The number of bits of an address of its family.
    pub fn width(self) -> u8
        ensures { result ≡ width_of self }
    {
        match self {
            Addr::V4(_) => 32,
            Addr::V6(_) => 128,
        }
    }

    /// The address as a number below 2 to the power of its width.
    pub fn value(self) -> u128
        ensures { result ≡ value_of self }
    {
        match self {
            Addr::V4(value) => u128::from(value),
            Addr::V6(value) => value,
        }
    }
}
