ghost use Rattle.std.specs.Prelude.{◌≡◌};
ghost use Rattle.word_text.specs.Kinds.{kind_of};

use crate::kind::Kind;
use crate::ranges::are_ranges;
use crate::read::{
    read_address, read_destination, read_index, read_mark, read_name, read_net, read_permission,
    read_range, read_rank, read_table, read_uid,
};
use fwmark::Permission;
use net_names::Name;
use prefixes::{Addr, Prefix};
use uid_ranges::{Uid, UidRange};

/// The values of a line's words by name. What no word of the line gives keeps its first value.
#[derive(Clone, Copy)]
pub struct Values {
    pub name: Name,
    /// The second name of a line that has two.
    pub other: Name,
    pub index: u16,
    pub net: u16,
    pub rank: u8,
    pub table: u32,
    pub permission: Permission,
    pub uid: Uid,
    pub mark: u32,
    pub range: UidRange,
    pub addr: Addr,
    pub prefix: Prefix,
}

impl Values {
    ghost use Rattle.word_text.specs.Slots.{nothing, ReadsValue};

    /// The first values.
    pub fn nothing() -> Values
        ensures { result ≡ nothing }
    {
        let lo = Name::from_bytes(b"lo").unwrap();
        let root = Uid { number: 0 };
        Values {
            name: lo,
            other: lo,
            index: 0,
            net: 0,
            rank: 0,
            table: 0,
            permission: Permission::Nothing,
            uid: root,
            mark: 0,
            range: UidRange {
                first: root,
                last: root,
            },
            addr: Addr::V4(0),
            prefix: Prefix {
                base: Addr::V4(0),
                len: 0,
            },
        }
    }

    /// Keeps the value that the word spells, by the name of its kind; none where it spells none. A list is only looked at.
    pub fn read(&mut self, kind: Kind, word: &[u8]) -> Option<()>
        ensures { ReadsValue (kind_of kind) word.now self.old self.new result }
    {
        match kind {
            Kind::Word(text) => {
                if word != text {
                    return None;
                }
            }
            Kind::Name => self.name = read_name(word)?,
            Kind::Other => self.other = read_name(word)?,
            Kind::Index => self.index = read_index(word)?,
            Kind::Net => self.net = read_net(word)?,
            Kind::Rank => self.rank = read_rank(word)?,
            Kind::Table => self.table = read_table(word)?,
            Kind::Permission => self.permission = read_permission(word)?,
            Kind::Uid => self.uid = read_uid(word)?,
            Kind::Mark => self.mark = read_mark(word)?,
            Kind::Range => self.range = read_range(word)?,
            Kind::Ranges => {
                if !are_ranges(word) {
                    return None;
                }
            }
            Kind::Addr => self.addr = read_address(word)?,
            Kind::Prefix => self.prefix = read_destination(word)?,
        }
        Some(())
    }
}
