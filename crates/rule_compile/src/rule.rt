//! The rule of an item, for any row.
ghost use Rattle.std.specs.Prelude.{◌≡◌, ◌≤◌};
ghost use Rattle.fwmark.specs.Selection.{net_mask, net_value, flag_mask, flag_value, mask_of, value_of};
ghost use Rattle.network_store.specs.Stored.{kind_of};
ghost use Rattle.policy_state.specs.Table.{
  stated,
  needed,
  stated_users,
  root_range,
  link_table,
  table_of,
  leads_to,
  priority_at,
  marks_of,
  rule_of,
};

use fwmark::Permission;
use network_store::StoredKind;
use policy_state::{Item, OnlyUser, Row, Selector, Target};
use rule_match::{Action, Rule};
use uid_ranges::{Uid, UidRange};

/// The table of the local network.
const LOCAL_TABLE: u32 = 97;

/// The table of an interface of another network is this and the interface's index.
const FIRST_LINK_TABLE: u32 = 1000;

/// The bits of a mark that hold a network's id.
const NET: u32 = 0xffff;

/// The bit of a mark that selects a network explicitly.
const EXPLICIT: u32 = 0x10000;

/// The bit of a mark that keeps a packet from VPNs and from lockdown.
const PROTECTED: u32 = 0x20000;

/// The lower of the two bits of a mark that hold a permission.
const PERMISSION: u32 = 0x40000;

fn link_table(link: u16) -> u32
    ensures { result ≡ link_table link }
{
    FIRST_LINK_TABLE + u32::from(link)
}

/// The table that a network's routes by the link are in.
pub(crate) fn table_of(kind: &StoredKind, link: u16) -> u32
    ensures { result ≡ table_of (kind_of kind.now) link }
{
    match kind {
        StoredKind::Local => LOCAL_TABLE,
        StoredKind::Physical { .. } | StoredKind::Virtual { .. } => link_table(link),
    }
}

fn stated(field: Selector<u16>, own: u16) -> Option<u16>
    ensures { result ≡ stated field own }
{
    match field {
        Selector::Unstated => None,
        Selector::OfItem => Some(own),
        Selector::OfRow(value) => Some(value),
    }
}

fn needed(field: Selector<Permission>, own: Permission) -> Permission
    ensures { result ≡ needed field own }
{
    match field {
        Selector::Unstated => Permission::Nothing,
        Selector::OfItem => own,
        Selector::OfRow(permission) => permission,
    }
}

fn root_range() -> UidRange
    ensures { result ≡ root_range }
{
    let root = Uid { number: 0 };
    UidRange {
        first: root,
        last: root,
    }
}

fn stated_users(field: Selector<OnlyUser>, own: Option<UidRange>) -> Option<UidRange>
    ensures { result ≡ stated_users field own }
{
    match field {
        Selector::Unstated => None,
        Selector::OfItem => own,
        Selector::OfRow(OnlyUser::Root) => Some(root_range()),
    }
}

fn net_mask(net: Option<u16>) -> u32
    ensures value { result ≡ net_mask net }
    ensures few { result ≤ 0xffff }
{
    match net {
        None => 0,
        Some(_) => NET,
    }
}

fn net_value(net: Option<u16>) -> u32
    ensures value { result ≡ net_value net }
    ensures few { result ≤ 0xffff }
{
    match net {
        None => 0,
        Some(net) => u32::from(net),
    }
}

fn flag_mask(flag: Option<bool>) -> u32
    ensures value { result ≡ flag_mask flag }
    ensures few { result ≤ 1 }
{
    match flag {
        None => 0,
        Some(_) => 1,
    }
}

fn flag_value(flag: Option<bool>) -> u32
    ensures value { result ≡ flag_value flag }
    ensures few { result ≤ 1 }
{
    match flag {
        None | Some(false) => 0,
        Some(true) => 1,
    }
}

fn mask_of(row: &Row, item: &Item) -> u32
    ensures { result ≡ mask_of (marks_of row.now item.now) }
{
    let net = net_mask(stated(row.net, item.net));
    let bits = u32::from(needed(row.needs, item.needs).bits());
    net + EXPLICIT * flag_mask(row.explicit)
        + PROTECTED * flag_mask(row.guarded)
        + PERMISSION * bits
}

fn value_of(row: &Row, item: &Item) -> u32
    ensures { result ≡ value_of (marks_of row.now item.now) }
{
    let net = net_value(stated(row.net, item.net));
    let bits = u32::from(needed(row.needs, item.needs).bits());
    net + EXPLICIT * flag_value(row.explicit)
        + PROTECTED * flag_value(row.guarded)
        + PERMISSION * bits
}

fn leads_to(target: Target, link: u16) -> Action
    ensures { result ≡ leads_to target link }
{
    match target {
        Target::ToLink => Action::Table(link_table(link)),
        Target::ToLocal => Action::Table(LOCAL_TABLE),
        Target::Prohibits => Action::Prohibit,
        Target::Refuses => Action::Unreachable,
    }
}

fn priority_at(row: &Row, item: &Item) -> u32
    ensures { result ≡ priority_at row.now item.now }
{
    if row.ranked {
        u32::from(row.base) + u32::from(item.rank)
    } else {
        u32::from(row.base)
    }
}

/// The rule that a row has for an item.
pub(crate) fn rule_of(row: &Row, item: &Item) -> Rule
    ensures { result ≡ rule_of row.now item.now }
{
    Rule {
        priority: priority_at(row, item),
        mark: value_of(row, item),
        mask: mask_of(row, item),
        incoming: stated(row.incoming, item.incoming),
        outgoing: if row.bound { Some(item.link) } else { None },
        uids: stated_users(row.users, item.users),
        action: leads_to(row.target, item.link),
    }
}
