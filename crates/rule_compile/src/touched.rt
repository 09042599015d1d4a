//! The part of a state that a change touches, and the rules that the rows have for it.
ghost use Rattle.std.specs.Prelude.{◌≡◌, ◌++◌, ◌∷◌, [], map, flat_map, Some, None, IfOk, OnOk};
ghost use Rattle.std.specs.Option.{option_map};
ghost use Rattle.network_store.specs.Store.{nets_of};
ghost use Rattle.network_store.specs.Stored.{net_of};
ghost use Rattle.rule_kinds.specs.Kind.{rule_kind};
ghost use Rattle.policy_state.specs.Rows.{items_at, default_of, default_among};
ghost use Rattle.policy_state.specs.Table.{rule_of, in_order};
ghost use Rattle.policy_state.specs.declared.row.NetworkPart.TheVariants.{EachDefault};
ghost use Rattle.rule_compile.specs.PartOf.{part_of, unrouted_part, own_items};
ghost use Rattle.rule_compile.specs.Shapes.{shape_net, unrouted};
ghost use Rattle.rule_compile.specs.Touched as parts;

use crate::part::Extent;
use crate::rows::{push_each, push_network, push_networks};
use crate::shape::Shape;
use network_store::StoredNetworks;
use policy_state::{NetworkPart, NetworkSet, OnePer, ROWS, Row, TetherPair};
use rule_match::Rule;
use std::alloc::{AllocError, Global};
use uid_ranges::UidRange;

/// The part of a state that a change touches.
#[derive(Clone, Copy)]
pub(crate) struct Touched<'a> {
    /// Which rows' rules of the network.
    pub(crate) extent: Extent,
    /// The network, with those of its interfaces and ranges that are touched.
    pub(crate) network: Option<Shape<'a>>,
    /// The id of the default network.
    pub(crate) default: Option<u16>,
    /// The default network, with those of its interfaces by which split rules of VPNs come or go.
    pub(crate) home: Option<Shape<'a>>,
    /// Whose split rules come or go, where that isn't the network alone.
    pub(crate) others: Option<&'a StoredNetworks>,
    pub(crate) lockdown: &'a [UidRange],
    pub(crate) pairs: &'a [TetherPair],
}

/// No part.
pub(crate) fn untouched<'a>() -> Touched<'a>
    ensures { part_of result ≡ parts.no_part }
{
    Touched {
        extent: Extent::Whole,
        network: None,
        default: None,
        home: None,
        others: None,
        lockdown: &[],
        pairs: &[],
    }
}

fn reaches(extent: Extent, set: NetworkSet, part: NetworkPart) -> bool
    ensures { result ≡ parts.reaches extent set part }
{
    match extent {
        Extent::Whole => true,
        Extent::Links => matches!(part, NetworkPart::EachInterface | NetworkPart::EachRange),
        Extent::Ranges => matches!(part, NetworkPart::EachRange),
        Extent::Default => matches!(set, NetworkSet::OfDefault),
    }
}

/// Appends a row's rules for the network that is touched.
fn push_own(
    rules: &mut Vec<Rule>,
    row: &Row,
    set: NetworkSet,
    part: NetworkPart,
    touched: &Touched,
) -> Result<(), AllocError>
    ensures { IfOk result (λ _. rules.new.items ≡ rules.old.items ++
        map (rule_of row.now) (own_items set part (part_of touched.now))) }
{
    match &touched.network {
        Some(network) if reaches(touched.extent, set, part) => {
            push_network(rules, row, set, part, touched.default, None, network)
        }
        _ => Ok(()),
    }
}

/// Appends a row's rules for the interfaces of the default network that are touched.
fn push_splits(
    rules: &mut Vec<Rule>,
    row: &Row,
    set: NetworkSet,
    touched: &Touched,
) -> Result<(), AllocError>
    ensures { IfOk result (λ _. rules.new.items ≡ rules.old.items ++ map (rule_of row.now) (flat_map
        (items_at set EachDefault touched.now.default (part_of touched.now).home)
        (parts.splitting (part_of touched.now)))) }
{
    let Some(home) = &touched.home else {
        return Ok(());
    };
    if home.links.is_empty() {
        return Ok(());
    }
    let part = NetworkPart::EachDefault;
    if let Some(networks) = touched.others {
        return push_networks(
            rules,
            row,
            set,
            part,
            touched.default,
            touched.home,
            networks,
        );
    }
    match &touched.network {
        Some(network) => push_network(
            rules,
            row,
            set,
            part,
            touched.default,
            touched.home,
            network,
        ),
        None => Ok(()),
    }
}

fn push_row(rules: &mut Vec<Rule>, row: &Row, touched: &Touched) -> Result<(), AllocError>
    ensures { IfOk result (λ _. rules.new.items ≡ rules.old.items ++
        map (rule_of row.now) (parts.part_items row.now.per (part_of touched.now))) }
{
    match row.per {
        OnePer::Once => Ok(()),
        OnePer::EachLockdown => push_each(rules, row, touched.lockdown),
        OnePer::EachPair => push_each(rules, row, touched.pairs),
        OnePer::EachOf(set, NetworkPart::Whole) => {
            push_own(rules, row, set, NetworkPart::Whole, touched)
        }
        OnePer::EachOf(set, NetworkPart::EachInterface) => {
            push_own(rules, row, set, NetworkPart::EachInterface, touched)
        }
        OnePer::EachOf(set, NetworkPart::EachRange) => {
            push_own(rules, row, set, NetworkPart::EachRange, touched)
        }
        OnePer::EachOf(set, NetworkPart::EachDefault) => push_splits(rules, row, set, touched),
    }
}

fn push_rows(rules: &mut Vec<Rule>, rows: &[Row], touched: &Touched) -> Result<(), AllocError>
    ensures { IfOk result (λ _. rules.new.items ≡ rules.old.items ++ flat_map
        (λ row. map (rule_of row) (parts.part_items row.per (part_of touched.now))) rows.now) }
{
    for row in rows {
        push_row(rules, row, touched)?;
    }
    Ok(())
}

/// The rules that the rows have for this part of a state, row by row.
pub(crate) fn touched_rules(alloc: Global, touched: &Touched) -> Result<Vec<Rule>, AllocError>
    ensures { IfOk result (λ rules. rules.items ≡ parts.part_rules (part_of touched.now)) }
{
    let mut rules = Vec::new(alloc);
    push_rows(&mut rules, &ROWS, touched)?;
    Ok(rules)
}

/// Puts rules in order of priority. Rules of one priority keep their order.
pub(crate) fn put_in_order(rules: &mut Vec<Rule>) -> Result<(), AllocError>
    ensures { OnOk result (rules.new.items ≡ in_order rule_kind rules.old.items) }
{
    rules.sort_by_key(|rule| rule.priority)
}
