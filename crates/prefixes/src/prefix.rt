ghost use Rattle.std.specs.Prelude.{◌≡◌, ◌≤◌, ◌↔◌, ◌/◌, ◌^◌, ◌%◌, IsSome, IfSome};
ghost use Rattle.prefixes.specs.Addr.{family_of, width_of, first_bits, IsPrefix};

use crate::addr::{Addr, Family};
use crate::same::same_family;

/// The addresses that begin with the first `len` bits of `base`, whose other bits are 0.
#[derive(Clone, Copy, Debug, PartialEq, Eq)]
pub struct Prefix {
    pub base: Addr,
    pub len: u8,
    pub ghost is_prefix: { IsPrefix base len },
}

fn shift_down(value: u128, by: u8) -> u128
    ensures { result ≡ value / 2 ^ by }
{
    if by < 128 { value >> by } else { 0 }
}

fn low_bits(value: u128, count: u8) -> u128
    ensures { result ≡ value % 2 ^ count }
{
    if count < 128 {
        value & ((1 << count) - 1)
    } else {
        value
    }
}

fn first_bits(addr: Addr, len: u8) -> u128
    requires { len ≤ width_of addr }
    ensures { result ≡ first_bits addr len }
{
    shift_down(addr.value(), addr.width() - len)
}

impl Prefix {
    ghost use Rattle.prefixes.specs.Prefix.{covers};

    /// The prefix of this first address and this length; none where a bit after the length is set.
    pub fn new(base: Addr, len: u8) -> Option<Prefix>
        ensures exactly { IsSome result ↔ IsPrefix base len }
        ensures value { IfSome result (λ p. (p.base ≡ base) × (p.len ≡ len)) }
    {
        if len > base.width() || low_bits(base.value(), base.width() - len) != 0 {
            return None;
        }
        Some(Prefix { base, len })
    }

    /// The first address.
    pub fn base(&self) -> Addr
        ensures { result ≡ self.now.base }
    {
        self.base
    }

    /// The number of bits that are fixed.
    pub fn len(&self) -> u8
        ensures { result ≡ self.now.len }
    {
        self.len
    }

    /// The family of its addresses.
    pub fn family(&self) -> Family
        ensures { result ≡ family_of self.now.base }
    {
        self.base.family()
    }

    /// Whether the address is of the prefix's family and begins with its bits.
    pub fn covers(&self, addr: Addr) -> bool
        ensures { result ≡ covers self.now addr }
    {
        same_family(self.family(), addr.family())
            && first_bits(addr, self.len) == first_bits(self.base, self.len)
    }
}
