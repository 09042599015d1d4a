ghost use Rattle.std.specs.Prelude.{◌↔◌, IsTrue};
ghost use Rattle.word_text.specs.Grammar.{Fits};
ghost use Rattle.word_text.specs.Kinds.{kind_of};

use crate::ranges::are_ranges;
use crate::read::{
    read_address, read_destination, read_index, read_mark, read_name, read_net, read_permission,
    read_range, read_rank, read_table, read_uid,
};

/// What stands in the place of a word: the word itself, or a value that `Values` keeps by this name.
#[derive(Clone, Copy)]
pub enum Kind {
    Word(&'static [u8]),
    Name,
    /// The second name of a line that has two.
    Other,
    Index,
    Net,
    Rank,
    Table,
    Permission,
    Uid,
    Mark,
    Range,
    Ranges,
    Addr,
    Prefix,
}

impl Kind {
    /// Whether the word is one of this kind.
    pub fn fits(self, word: &[u8]) -> bool
        ensures { IsTrue result ↔ Fits (kind_of self) word.now }
    {
        match self {
            Kind::Word(text) => word == text,
            Kind::Name => read_name(word).is_some(),
            Kind::Other => read_name(word).is_some(),
            Kind::Index => read_index(word).is_some(),
            Kind::Net => read_net(word).is_some(),
            Kind::Rank => read_rank(word).is_some(),
            Kind::Table => read_table(word).is_some(),
            Kind::Permission => read_permission(word).is_some(),
            Kind::Uid => read_uid(word).is_some(),
            Kind::Mark => read_mark(word).is_some(),
            Kind::Range => read_range(word).is_some(),
            Kind::Ranges => are_ranges(word),
            Kind::Addr => read_address(word).is_some(),
            Kind::Prefix => read_destination(word).is_some(),
        }
    }
}
