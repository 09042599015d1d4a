//! The part of a state that a change touches.
use fwmark::Permission;
use uid_ranges::UidRange;

/// Which rows' rules of a network are touched.
#[derive(Clone, Copy)]
pub(crate) enum Extent {
    /// Those of all rows.
    Whole,
    /// Those for its interfaces, with and without ranges.
    Links,
    /// Those for its ranges.
    Ranges,
    /// Those that it has as the default network.
    Default,
}

/// What a change touches of a network.
#[derive(Clone, Copy)]
pub(crate) enum PartOfNetwork<'a> {
    /// The network, with the pairs that go out by it.
    Whole,
    Link { link: u16 },
    /// The link, with the pairs that go out by it.
    LinkAndPairs { link: u16 },
    /// These ranges, which come.
    RangesAt { rank: u8, ranges: &'a [UidRange] },
    /// Those of its ranges that are among these.
    RangesAmong { ranges: &'a [UidRange] },
    /// Where its permission becomes another one: the network with the one that it has.
    PermissionLeft { becomes: Permission },
    /// And with the one that it gets.
    PermissionGot { becomes: Permission },
}
