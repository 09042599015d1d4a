// What a row of the rule table says, and what a rule is made from.
use fwmark::Permission;
use uid_ranges::UidRange;

/// Which networks a row has rules for.
#[derive(Clone, Copy)]
pub enum NetworkSet {
    OfLocal,
    OfPhysical,
    /// Physical without a permission.
    OfFree,
    OfDefault,
    OfVirtual,
    OfSecure,
    OfBypass,
}

/// For what of a network.
#[derive(Clone, Copy)]
pub enum NetworkPart {
    /// The network itself.
    Whole,
    EachInterface,
    /// Each interface with each range.
    EachRange,
    /// Each interface of the default network, with its permission.
    EachDefault,
}

/// For what a row has one rule each.
#[derive(Clone, Copy)]
pub enum OnePer {
    Once,
    /// Each range that is locked down.
    EachLockdown,
    /// Each tether pair.
    EachPair,
    /// Each such part of each of these networks.
    EachOf(NetworkSet, NetworkPart),
}

/// What a rule selects by a field: nothing, what its item has, or what the row states.
#[derive(Clone, Copy)]
pub enum Selector<T> {
    Unstated,
    OfItem,
    OfRow(T),
}

/// A user that a row itself states: a range in its place, which has a ghost field, would keep clauses from naming the rows.
#[derive(Clone, Copy)]
pub enum OnlyUser {
    Root,
}

/// Where a rule leads.
#[derive(Clone, Copy)]
pub enum Target {
    /// The table of the item's interface.
    ToLink,
    /// The table of the local network.
    ToLocal,
    Prohibits,
    Refuses,
}

/// A row of the rule table.
#[derive(Clone, Copy)]
pub struct Row {
    /// The priority of its rules.
    pub base: u16,
    /// Whether the rank of the item's range is added to it.
    pub ranked: bool,
    pub per: OnePer,
    pub net: Selector<u16>,
    pub explicit: Option<bool>,
    pub guarded: Option<bool>,
    pub needs: Selector<Permission>,
    pub incoming: Selector<u16>,
    /// Whether packets are selected that go out by the item's interface.
    pub bound: bool,
    pub users: Selector<OnlyUser>,
    pub target: Target,
}

/// For what a rule is; what a row doesn't ask for is 0 or nothing.
#[derive(Clone, Copy)]
pub struct Item {
    pub net: u16,
    pub needs: Permission,
    pub incoming: u16,
    pub link: u16,
    pub users: Option<UidRange>,
    pub rank: u8,
}
