//! The rules of a row: for networks, whole or in part, for lockdown ranges and for pairs.
ghost use Rattle.std.specs.Prelude.{◌≡◌, ◌++◌, map, flat_map, IfOk};
ghost use Rattle.std.specs.Option.{option_map};
ghost use Rattle.network_store.specs.Store.{nets_of};
ghost use Rattle.networks.specs.Kinds.{ranges_of};
ghost use Rattle.policy_state.specs.Rows.{
  nothing,
  net_item,
  link_item,
  user_item,
  split_item,
  items_at,
  items_in,
};
ghost use Rattle.policy_state.specs.Table.{rule_of};
ghost use Rattle.policy_state.specs.declared.row.Item.{Item};
ghost use Rattle.policy_state.specs.declared.row.NetworkPart.TheVariants.{Whole, EachInterface, EachRange, EachDefault};
ghost use Rattle.rule_compile.specs.Shapes.{shape_net};

use crate::rule::rule_of;
use crate::shape::Shape;
use fwmark::Permission;
use network_store::StoredNetworks;
use policy_state::{Item, NetworkPart, NetworkSet, Row, TetherPair};
use rule_match::Rule;
use std::alloc::AllocError;
use uid_ranges::{Ranked, UidRange};

/// The item of a row that has one rule for all.
pub(crate) fn nothing() -> Item
    ensures { result ≡ nothing }
{
    Item {
        net: 0,
        needs: Permission::Nothing,
        incoming: 0,
        link: 0,
        users: None,
        rank: 0,
    }
}

/// What a row has one rule for, whatever the networks are.
pub(crate) trait HasItem: Copy {
    ghost item: { Self → Item };

    fn item(self) -> Item
        ensures { result ≡ item self };
}

impl HasItem for UidRange {
    ghost use Rattle.policy_state.specs.Rows.{range_item};

    ghost item = { range_item };

    fn item(self) -> Item {
        Item {
            users: Some(self),
            ..nothing()
        }
    }
}

impl HasItem for TetherPair {
    ghost use Rattle.policy_state.specs.Rows.{pair_item};

    ghost item = { pair_item };

    fn item(self) -> Item {
        Item {
            incoming: self.input,
            link: self.out,
            ..nothing()
        }
    }
}

fn net_item(network: &Shape) -> Item
    ensures { result ≡ net_item (shape_net network.now) }
{
    Item {
        net: network.id,
        needs: network.kind.permission(),
        ..nothing()
    }
}

fn link_item(network: &Shape, link: u16) -> Item
    ensures { result ≡ link_item (shape_net network.now) link }
{
    Item {
        incoming: link,
        link,
        ..net_item(network)
    }
}

fn user_item(network: &Shape, link: u16, range: Ranked) -> Item
    ensures { result ≡ user_item (shape_net network.now) link range }
{
    Item {
        users: Some(range.users),
        rank: range.rank,
        ..link_item(network, link)
    }
}

fn split_item(network: &Shape, needs: Permission, link: u16) -> Item
    ensures { result ≡ split_item (shape_net network.now) needs link }
{
    Item {
        net: network.id,
        needs,
        link,
        ..nothing()
    }
}

fn push_interfaces(rules: &mut Vec<Rule>, row: &Row, network: &Shape) -> Result<(), AllocError>
    ensures { IfOk result (λ _. rules.new.items ≡ rules.old.items ++
        map (rule_of row.now) (map (link_item (shape_net network.now)) network.now.links.now)) }
{
    for link in network.links {
        rules.push(rule_of(row, &link_item(network, *link)))?;
    }
    Ok(())
}

fn push_ranges_at(
    rules: &mut Vec<Rule>,
    row: &Row,
    network: &Shape,
    link: u16,
) -> Result<(), AllocError>
    ensures { IfOk result (λ _. rules.new.items ≡ rules.old.items ++
        map (rule_of row.now) (map (user_item (shape_net network.now) link)
        (ranges_of (shape_net network.now).kind))) }
{
    for range in network.kind.ranges() {
        rules.push(rule_of(row, &user_item(network, link, *range)))?;
    }
    Ok(())
}

/// Appends a row's rules for each interface with each range.
fn push_ranges(rules: &mut Vec<Rule>, row: &Row, network: &Shape) -> Result<(), AllocError>
    ensures { IfOk result (λ _. rules.new.items ≡ rules.old.items ++ map (rule_of row.now)
        (flat_map (λ link. map (user_item (shape_net network.now) link)
        (ranges_of (shape_net network.now).kind)) network.now.links.now)) }
{
    for link in network.links {
        push_ranges_at(rules, row, network, *link)?;
    }
    Ok(())
}

/// Appends a row's rules of a network for these interfaces of the default network, which asks for the permission.
fn push_interfaces_of(
    rules: &mut Vec<Rule>,
    row: &Row,
    network: &Shape,
    needs: Permission,
    links: &[u16],
) -> Result<(), AllocError>
    ensures { IfOk result (λ _. rules.new.items ≡ rules.old.items ++
        map (rule_of row.now) (map (split_item (shape_net network.now) needs) links.now)) }
{
    for link in links {
        rules.push(rule_of(row, &split_item(network, needs, *link)))?;
    }
    Ok(())
}

/// Appends a row's rules of a network for the interfaces of the default network.
fn push_split(
    rules: &mut Vec<Rule>,
    row: &Row,
    home: Option<Shape>,
    network: &Shape,
) -> Result<(), AllocError>
    ensures { IfOk result (λ _. rules.new.items ≡ rules.old.items ++ map (rule_of row.now)
        (items_in EachDefault (option_map shape_net home.entry) (shape_net network.now))) }
{
    match home {
        Some(home) => {
            push_interfaces_of(rules, row, network, home.kind.permission(), home.links)
        }
        None => Ok(()),
    }
}

/// Appends a row's rules for this part of a network, where this is the default network.
fn push_part(
    rules: &mut Vec<Rule>,
    row: &Row,
    part: NetworkPart,
    home: Option<Shape>,
    network: &Shape,
) -> Result<(), AllocError>
    ensures { IfOk result (λ _. rules.new.items ≡ rules.old.items ++ map (rule_of row.now)
        (items_in part (option_map shape_net home.entry) (shape_net network.now))) }
{
    match part {
        NetworkPart::Whole => {
            rules.push(rule_of(row, &net_item(network)))?;
            Ok(())
        }
        NetworkPart::EachInterface => push_interfaces(rules, row, network),
        NetworkPart::EachRange => push_ranges(rules, row, network),
        NetworkPart::EachDefault => push_split(rules, row, home, network),
    }
}

/// Appends a row's rules for this part of a network where the row has rules for it.
pub(crate) fn push_network(
    rules: &mut Vec<Rule>,
    row: &Row,
    set: NetworkSet,
    part: NetworkPart,
    default: Option<u16>,
    home: Option<Shape>,
    network: &Shape,
) -> Result<(), AllocError>
    ensures { IfOk result (λ _. rules.new.items ≡ rules.old.items ++ map (rule_of row.now)
        (items_at set part default (option_map shape_net home.entry) (shape_net network.now))) }
{
    if network.is_picked(set, default) {
        push_part(rules, row, part, home, network)
    } else {
        Ok(())
    }
}

/// Appends a row's rules for this part of each of these networks, in the order of their creation.
pub(crate) fn push_networks(
    rules: &mut Vec<Rule>,
    row: &Row,
    set: NetworkSet,
    part: NetworkPart,
    default: Option<u16>,
    home: Option<Shape>,
    networks: &StoredNetworks,
) -> Result<(), AllocError>
    ensures { IfOk result (λ _. rules.new.items ≡ rules.old.items ++ map (rule_of row.now) (flat_map
        (items_at set part default (option_map shape_net home.entry)) (nets_of networks.now))) }
{
    for place in 0..networks.len() {
        if let Some(network) = networks.at(place) {
            push_network(rules, row, set, part, default, home, &Shape::of(network))?;
        }
    }
    Ok(())
}

/// Appends a row's rule for each of these.
pub(crate) fn push_each<T: HasItem>(
    rules: &mut Vec<Rule>,
    row: &Row,
    each: &[T],
) -> Result<(), AllocError>
    ensures { IfOk result (λ _. rules.new.items ≡ rules.old.items ++
        map (rule_of row.now) (map T.item each.now)) }
{
    for one in each {
        rules.push(rule_of(row, &one.item()))?;
    }
    Ok(())
}
