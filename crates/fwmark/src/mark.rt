ghost use Rattle.std.specs.Prelude.{◌≡◌, ◌<◌, ◌^◌};

use crate::flags::{MarkFlags, bit_if};
use bitflags::Flags;

/// A socket's mark by its fields. Routing ignores the upper part, the bits from 20 on.
#[derive(Clone, Copy, PartialEq, Eq, Debug)]
pub struct Mark {
    pub net: u16,
    pub explicit: bool,
    pub guarded: bool,
    pub permission: u8,
    pub upper: u16,
    pub ghost two_bits: { permission < 4 },
    pub ghost twelve_bits: { upper < 4096 },
}

impl Mark {
    ghost use Rattle.fwmark.specs.declared.mark.Mark.{Mark};
    ghost use Rattle.fwmark.specs.Mark.{HasFieldsOf, word_of};

    /// The mark of a word.
    pub fn of_bits(word: u32) -> Mark
        ensures fields { HasFieldsOf word result }
        ensures inverse { word_of result ≡ word }
    {
        let flags = MarkFlags::from_bits_retain(word);
        Mark {
            net: (word & 0xffff) as u16,
            explicit: flags.contains(MarkFlags::EXPLICIT),
            guarded: flags.contains(MarkFlags::GUARDED),
            permission: ((word >> 18) & 3) as u8,
            upper: (word >> 20) as u16,
        }
    }

    /// The word of the mark.
    pub fn bits(&self) -> u32
        ensures word { result ≡ word_of self.now }
        ensures inverse { HasFieldsOf result self.now }
        ensures no_other { (mark : Mark) → mark.net < 2 ^ 16 → word_of mark ≡ result →
            mark ≡ self.now }
    {
        u32::from(self.net)
            + bit_if(MarkFlags::EXPLICIT, self.explicit)
            + bit_if(MarkFlags::GUARDED, self.guarded)
            + (u32::from(self.permission) << 18)
            + (u32::from(self.upper) << 20)
    }
}
