//! What a change touches of a state.
ghost use Rattle.std.specs.Prelude.{◌≡◌, ◌==◌, ◌∷◌, [], ℕ, filter, if◌then◌else◌, Some, None, IfOk};
ghost use Rattle.std.specs.Option.{option_map};
ghost use Rattle.network_store.specs.Store.{nets_of};
ghost use Rattle.network_store.specs.Stored.{kind_of, net_of};
ghost use Rattle.networks.specs.Kinds.{ranges_of};
ghost use Rattle.networks.specs.Network.{has_link};
ghost use Rattle.networks.specs.declared.network.Network.{Network};
ghost use Rattle.policy_state.specs.Good.{IsGood};
ghost use Rattle.policy_state.specs.Rows.{default_of, default_among};
ghost use Rattle.policy_state.specs.Step.{is_pair};
ghost use Rattle.rule_compile.specs.PartOf.{part_of, unrouted_part};
ghost use Rattle.rule_compile.specs.Shapes.{shape_net, unrouted};
ghost use Rattle.rule_compile.specs.Touched as parts;
ghost use Rattle.uid_ranges.specs.Ranges.{has};
ghost use Rattle.uid_ranges.specs.Ranks.{all_at};

use crate::part::Extent;
use crate::shape::Shape;
use crate::touched::{Touched, untouched};
use fwmark::Permission;
use network_store::{StoredKind, StoredNetwork, StoredNetworks};
use policy_state::{NetworkSet, State, TetherPair, default_network, picks};
use std::alloc::{AllocError, Global};
use uid_ranges::{Ranked, UidRange};

/// The network of this id as the default one.
pub(crate) fn home_of(state: &State, default: Option<u16>) -> Option<Shape>
    ensures value { option_map shape_net result ≡
        option_map unrouted (default_among state.now.networks default) }
    ensures good { IsGood state.now }
{
    match default_network(state.networks(), default) {
        Some(network) => Some(Shape::of(network)),
        None => None,
    }
}

fn is_home(state: &State, network: &StoredNetwork) -> bool
    ensures { result ≡ parts.is_home state.now (net_of network.now) }
{
    picks(NetworkSet::OfDefault, state.default_net(), network)
}

/// The network in this shape, where it is the default one.
fn home_as<'a>(state: &State, network: &StoredNetwork, shape: Shape<'a>) -> Option<Shape<'a>>
    ensures { option_map shape_net result ≡
        (if parts.is_home state.now (net_of network.now) then Some (shape_net shape.entry) else None) }
{
    if is_home(state, network) {
        Some(shape)
    } else {
        None
    }
}

/// A network that comes.
pub(crate) fn new_part<'a>(state: &'a State, network: Shape<'a>) -> Touched<'a>
    ensures { (n : Network) → shape_net network.entry ≡ unrouted n
        → part_of result ≡ unrouted_part (parts.new_part state.now n) }
{
    let default = state.default_net();
    Touched {
        network: Some(network),
        default,
        home: home_of(state, default),
        ..untouched()
    }
}

/// Whose split rules go with the network, where it isn't the network alone: with the default one those of all VPNs.
fn others_of<'a>(state: &'a State, network: &StoredNetwork) -> Option<&'a StoredNetworks>
    ensures { option_map (λ networks. nets_of networks.now) result ≡
        (if parts.is_home state.now (net_of network.now) then Some state.now.networks else None) }
{
    if is_home(state, network) {
        Some(state.networks())
    } else {
        None
    }
}

/// A network that goes, with these pairs.
pub(crate) fn gone_part<'a>(
    state: &'a State,
    network: &'a StoredNetwork,
    pairs: &'a [TetherPair],
) -> Touched<'a>
    requires { pairs.now ≡ filter (λ p. has_link (net_of network.now) p.out) state.now.pairs }
    ensures { part_of result ≡ unrouted_part (parts.gone_part state.now (net_of network.now)) }
{
    Touched {
        others: others_of(state, network),
        pairs,
        ..new_part(state, Shape::of(network))
    }
}

/// One interface of a network, with these pairs.
pub(crate) fn link_part<'a>(
    state: &'a State,
    network: &'a StoredNetwork,
    links: &'a [u16],
    pairs: &'a [TetherPair],
) -> Touched<'a>
    ensures { (link : ℕ) → links.now ≡ link ∷ []
        → part_of result ≡ record (unrouted_part (parts.link_part state.now (net_of network.now)
        link)) { pairs = pairs.now } }
{
    let shape = Shape {
        links,
        ..Shape::of(network)
    };
    Touched {
        extent: Extent::Links,
        network: Some(shape),
        default: state.default_net(),
        home: home_as(state, network, shape),
        others: Some(state.networks()),
        pairs,
        ..untouched()
    }
}

/// Ranges of a network.
pub(crate) fn ranges_part<'a>(
    state: &'a State,
    network: &'a StoredNetwork,
    ranges: &'a [Ranked],
) -> Touched<'a>
    ensures { part_of result ≡
        unrouted_part (parts.ranges_part state.now (net_of network.now) ranges.now) }
{
    let shape = Shape::of(network);
    Touched {
        extent: Extent::Ranges,
        network: Some(Shape {
            kind: shape.kind.having(ranges),
            ..shape
        }),
        default: state.default_net(),
        ..untouched()
    }
}

/// A network that asks for this permission.
pub(crate) fn asking_part<'a>(
    state: &'a State,
    network: &'a StoredNetwork,
    permission: Permission,
) -> Touched<'a>
    ensures { part_of result ≡
        unrouted_part (parts.asking_part state.now (net_of network.now) permission) }
{
    let whole = Shape::of(network);
    let shape = Shape {
        kind: whole.kind.asking(permission),
        ..whole
    };
    Touched {
        network: Some(shape),
        default: state.default_net(),
        home: home_as(state, network, shape),
        others: Some(state.networks()),
        ..untouched()
    }
}

/// The default network, where this is its id.
pub(crate) fn default_part<'a>(state: &'a State, default: Option<u16>) -> Touched<'a>
    ensures { part_of result ≡ unrouted_part (parts.default_part state.now default) }
{
    let home = home_of(state, default);
    Touched {
        extent: Extent::Default,
        network: home,
        default,
        home,
        others: Some(state.networks()),
        ..untouched()
    }
}

pub(crate) fn same_default(one: Option<u16>, other: Option<u16>) -> bool
    ensures { result ≡ parts.same_default one other }
{
    match (one, other) {
        (None, None) => true,
        (Some(one), Some(other)) => one == other,
        (None, Some(_)) | (Some(_), None) => false,
    }
}

/// Whether the network is physical and asks for another permission than this.
pub(crate) fn asks_other(network: &StoredNetwork, permission: Permission) -> bool
    ensures { result ≡ parts.asks_other permission (net_of network.now) }
{
    network.kind.is_physical() && network.kind.permission().bits() != permission.bits()
}

/// The pairs that go out by the link.
pub(crate) fn pairs_by(
    alloc: Global,
    pairs: &[TetherPair],
    link: u16,
) -> Result<Vec<TetherPair>, AllocError>
    ensures { IfOk result (λ by. by.items ≡ filter (λ p. p.out == link) pairs.now) }
{
    pairs
        .iter()
        .copied()
        .filter(|pair| pair.out == link)
        .collect(alloc)
}

/// The pairs that go out by an interface of the network.
pub(crate) fn pairs_of(
    alloc: Global,
    pairs: &[TetherPair],
    network: &StoredNetwork,
) -> Result<Vec<TetherPair>, AllocError>
    ensures { IfOk result (λ by. by.items ≡
        filter (λ p. has_link (net_of network.now) p.out) pairs.now) }
{
    pairs
        .iter()
        .copied()
        .filter(|pair| network.has_link(pair.out))
        .collect(alloc)
}

/// The pair, as often as it is there.
pub(crate) fn pairs_like(
    alloc: Global,
    pairs: &[TetherPair],
    pair: TetherPair,
) -> Result<Vec<TetherPair>, AllocError>
    ensures { IfOk result (λ like. like.items ≡ filter (is_pair pair) pairs.now) }
{
    pairs
        .iter()
        .copied()
        .filter(|other| other.input == pair.input && other.out == pair.out)
        .collect(alloc)
}

/// The range, as often as it is there.
pub(crate) fn ranges_like(
    alloc: Global,
    ranges: &[UidRange],
    range: UidRange,
) -> Result<Vec<UidRange>, AllocError>
    ensures { IfOk result (λ like. like.items ≡ filter (has (range ∷ [])) ranges.now) }
{
    ranges
        .iter()
        .copied()
        .filter(|other| other.is_same(&range))
        .collect(alloc)
}

fn is_among(users: UidRange, list: &[UidRange]) -> bool
    ensures { result ≡ has list.now users }
{
    list.iter().any(|other| users.is_same(other))
}

/// Those of a network's ranges that are among these.
pub(crate) fn ranges_among(
    alloc: Global,
    kind: &StoredKind,
    list: &[UidRange],
) -> Result<Vec<Ranked>, AllocError>
    ensures { IfOk result (λ among. among.items ≡
        filter (λ r. has list.now r.users) (ranges_of (kind_of kind.now))) }
{
    kind.ranges()
        .iter()
        .copied()
        .filter(|range| is_among(range.users, list))
        .collect(alloc)
}

/// The ranges, each with the rank.
pub(crate) fn ranked(
    alloc: Global,
    ranges: &[UidRange],
    rank: u8,
) -> Result<Vec<Ranked>, AllocError>
    ensures { IfOk result (λ ranked. ranked.items ≡ all_at rank ranges.now) }
{
    ranges
        .iter()
        .map(|users| Ranked {
            users: *users,
            rank,
        })
        .collect(alloc)
}
