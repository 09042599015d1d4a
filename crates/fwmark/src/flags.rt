ghost use Rattle.std.specs.Prelude.{⊤, ◌≡◌, [], ◌∷◌, codes, if◌then◌else◌};

use bitflags::{Flag, Flags, bitflag_items};

/// The bits of a mark that stand for themselves.
#[derive(Clone, Copy, PartialEq, Eq, Debug)]
pub struct MarkFlags(u32);

bitflag_items! {
    impl MarkFlags: u32 {
        const EXPLICIT = 0x10000;
        const GUARDED = 0x20000;
        const BILLED = 0x100000;
    }
}

impl Flags for MarkFlags {
    type Bits = u32;

    ghost exact = { ⊤ };

    ghost table = { (codes "EXPLICIT", 0x10000) ∷ (codes "GUARDED", 0x20000) ∷
        (codes "BILLED", 0x100000) ∷ [] };

    ghost set_of = { λ flags. flags.0 };

    fn flags<'a>() -> &'a [Flag<MarkFlags>] {
        MarkFlags::FLAGS
    }

    fn bits(&self) -> u32 {
        self.0
    }

    fn from_bits_retain(bits: u32) -> MarkFlags {
        MarkFlags(bits)
    }
}

/// The flag's bit where it is on, else no bit.
pub(crate) fn bit_if(flag: MarkFlags, on: bool) -> u32
    ensures { result ≡ (if on then flag.0 else 0) }
{
    if on { flag.bits() } else { 0 }
}
