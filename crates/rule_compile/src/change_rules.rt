//! The rules that come and the rules that go with a change.
ghost use Rattle.std.specs.Prelude.{◌≡◌, if◌then◌else◌, IfOk};
ghost use Rattle.network_store.specs.Stored.{bare_net, net_of};
ghost use Rattle.rule_compile.specs.PartOf.{net_part};
ghost use Rattle.rule_compile.specs.Shapes.{shape_kind};
ghost use Rattle.rule_compile.specs.Touched as parts;

use crate::change_parts::{
    asking_part, asks_other, default_part, gone_part, link_part, new_part, pairs_by, pairs_like,
    pairs_of, ranges_among, ranges_like, ranges_part, ranked, same_default,
};
use crate::part::PartOfNetwork;
use crate::shape::{Shape, ShapeKind};
use crate::touched::{Touched, touched_rules, untouched};
use fwmark::Permission;
use network_store::StoredNetwork;
use policy_state::{Change, State, TetherPair};
use rule_match::Rule;
use std::alloc::{AllocError, Global};
use uid_ranges::UidRange;

/// The rules of a network that comes, which has no interfaces yet.
fn network_comes(
    alloc: Global,
    state: &State,
    net: u16,
    kind: ShapeKind,
) -> Result<Vec<Rule>, AllocError>
    ensures { IfOk result (λ rules. rules.items ≡ parts.part_rules
        (parts.new_part state.now (bare_net net (shape_kind kind.entry)))) }
{
    let network = Shape {
        id: net,
        kind,
        links: &[],
    };
    touched_rules(alloc, &new_part(state, network))
}

/// The rules of the network with this permission, where its own becomes another one.
fn asking_rules(
    alloc: Global,
    state: &State,
    network: &StoredNetwork,
    becomes: Permission,
    asked: Permission,
) -> Result<Vec<Rule>, AllocError>
    ensures { IfOk result (λ rules. rules.items ≡ parts.part_rules
        (if parts.asks_other becomes (net_of network.now) then
        parts.asking_part state.now (net_of network.now) asked else parts.no_part)) }
{
    if !asks_other(network, becomes) {
        return Ok(Vec::new(alloc));
    }
    touched_rules(alloc, &asking_part(state, network, asked))
}

fn stored_rules(
    alloc: Global,
    state: &State,
    network: &StoredNetwork,
    part: PartOfNetwork,
) -> Result<Vec<Rule>, AllocError>
    ensures { IfOk result (λ rules. rules.items ≡
        parts.part_rules (net_part part.entry state.now (net_of network.now))) }
{
    match part {
        PartOfNetwork::Whole => {
            let pairs = pairs_of(alloc, state.pairs(), network)?;
            touched_rules(alloc, &gone_part(state, network, &pairs))
        }
        PartOfNetwork::Link { link } => {
            touched_rules(alloc, &link_part(state, network, &[link], &[]))
        }
        PartOfNetwork::LinkAndPairs { link } => {
            let pairs = pairs_by(alloc, state.pairs(), link)?;
            touched_rules(alloc, &link_part(state, network, &[link], &pairs))
        }
        PartOfNetwork::RangesAt { rank, ranges } => {
            let ranked = ranked(alloc, ranges, rank)?;
            touched_rules(alloc, &ranges_part(state, network, &ranked))
        }
        PartOfNetwork::RangesAmong { ranges } => {
            let among = ranges_among(alloc, &network.kind, ranges)?;
            touched_rules(alloc, &ranges_part(state, network, &among))
        }
        PartOfNetwork::PermissionLeft { becomes } => {
            asking_rules(alloc, state, network, becomes, network.kind.permission())
        }
        PartOfNetwork::PermissionGot { becomes } => {
            asking_rules(alloc, state, network, becomes, becomes)
        }
    }
}

/// The rules of this part of the network of this id: none, if there is no such network.
fn network_rules(
    alloc: Global,
    state: &State,
    net: u16,
    part: PartOfNetwork,
) -> Result<Vec<Rule>, AllocError>
    ensures { IfOk result (λ rules. rules.items ≡
        parts.part_rules (parts.of_net state.now net (net_part part.entry state.now))) }
{
    match state.networks().get(net) {
        Some(network) => stored_rules(alloc, state, network, part),
        None => Ok(Vec::new(alloc)),
    }
}

/// The rules of the default network where it becomes another one than it is: of the one that it is, or becomes.
fn default_becomes(
    alloc: Global,
    state: &State,
    becomes: Option<u16>,
    default: Option<u16>,
) -> Result<Vec<Rule>, AllocError>
    ensures { IfOk result (λ rules. rules.items ≡ parts.part_rules
        (if parts.same_default state.now.default becomes then parts.no_part else
        parts.default_part state.now default)) }
{
    if same_default(state.default_net(), becomes) {
        return Ok(Vec::new(alloc));
    }
    touched_rules(alloc, &default_part(state, default))
}

fn lockdown_rules(alloc: Global, lockdown: &[UidRange]) -> Result<Vec<Rule>, AllocError>
    ensures { IfOk result (λ rules. rules.items ≡
        parts.part_rules (record parts.no_part { lockdown = lockdown.now })) }
{
    let touched = Touched {
        lockdown,
        ..untouched()
    };
    touched_rules(alloc, &touched)
}

fn pair_rules(alloc: Global, pairs: &[TetherPair]) -> Result<Vec<Rule>, AllocError>
    ensures { IfOk result (λ rules. rules.items ≡
        parts.part_rules (record parts.no_part { pairs = pairs.now })) }
{
    let touched = Touched {
        pairs,
        ..untouched()
    };
    touched_rules(alloc, &touched)
}

/// The rules of the part of a state that a change makes go, row by row.
pub(crate) fn rules_that_go(
    alloc: Global,
    state: &State,
    change: &Change,
) -> Result<Vec<Rule>, AllocError>
    ensures { IfOk result (λ rules. rules.items ≡
        parts.part_rules (parts.go_part state.now change.now)) }
{
    match *change {
        Change::NetworkGoes { net } => network_rules(alloc, state, net, PartOfNetwork::Whole),
        Change::InterfaceGoes { net, link } => {
            network_rules(alloc, state, net, PartOfNetwork::LinkAndPairs { link })
        }
        Change::RangesGo { net, ranges } => {
            network_rules(alloc, state, net, PartOfNetwork::RangesAmong { ranges })
        }
        Change::DefaultBecomes { default } => {
            default_becomes(alloc, state, default, state.default_net())
        }
        Change::NetworkPermission { net, permission } => {
            let part = PartOfNetwork::PermissionLeft {
                becomes: permission,
            };
            network_rules(alloc, state, net, part)
        }
        Change::LockdownGoes { range } => {
            let ranges = ranges_like(alloc, state.lockdown(), range)?;
            lockdown_rules(alloc, &ranges)
        }
        Change::PairGoes { pair } => {
            let pairs = pairs_like(alloc, state.pairs(), pair)?;
            pair_rules(alloc, &pairs)
        }
        Change::Nothing
        | Change::LinkComes { .. }
        | Change::LinkGoes { .. }
        | Change::PhysicalComes { .. }
        | Change::VirtualComes { .. }
        | Change::InterfaceComes { .. }
        | Change::RouteComes { .. }
        | Change::RouteGoes { .. }
        | Change::RangesCome { .. }
        | Change::UserPermission { .. }
        | Change::UserForgotten { .. }
        | Change::ProtectAllowed { .. }
        | Change::ProtectDenied { .. }
        | Change::LockdownComes { .. }
        | Change::PairComes { .. } => Ok(Vec::new(alloc)),
    }
}

/// The rules of the part that it makes come, row by row.
pub(crate) fn rules_that_come(
    alloc: Global,
    state: &State,
    change: &Change,
) -> Result<Vec<Rule>, AllocError>
    ensures { IfOk result (λ rules. rules.items ≡
        parts.part_rules (parts.come_part state.now change.now)) }
{
    match *change {
        Change::PhysicalComes { net, permission } => {
            let kind = ShapeKind::Physical {
                permission,
                apps: &[],
            };
            network_comes(alloc, state, net, kind)
        }
        Change::VirtualComes { net, secure } => {
            let kind = ShapeKind::Virtual { secure, users: &[] };
            network_comes(alloc, state, net, kind)
        }
        Change::InterfaceComes { net, link } => {
            network_rules(alloc, state, net, PartOfNetwork::Link { link })
        }
        Change::RangesCome { net, rank, ranges } => {
            network_rules(alloc, state, net, PartOfNetwork::RangesAt { rank, ranges })
        }
        Change::DefaultBecomes { default } => default_becomes(alloc, state, default, default),
        Change::NetworkPermission { net, permission } => {
            let part = PartOfNetwork::PermissionGot {
                becomes: permission,
            };
            network_rules(alloc, state, net, part)
        }
        Change::LockdownComes { range } => lockdown_rules(alloc, &[range]),
        Change::PairComes { pair } => pair_rules(alloc, &[pair]),
        Change::Nothing
        | Change::LinkComes { .. }
        | Change::LinkGoes { .. }
        | Change::NetworkGoes { .. }
        | Change::InterfaceGoes { .. }
        | Change::RouteComes { .. }
        | Change::RouteGoes { .. }
        | Change::RangesGo { .. }
        | Change::UserPermission { .. }
        | Change::UserForgotten { .. }
        | Change::ProtectAllowed { .. }
        | Change::ProtectDenied { .. }
        | Change::LockdownGoes { .. }
        | Change::PairGoes { .. } => Ok(Vec::new(alloc)),
    }
}
