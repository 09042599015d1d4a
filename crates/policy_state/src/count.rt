//! How many rules a state has, and how many after a change, without going over its networks.
ghost use Rattle.std.specs.Prelude.{◌≡◌, ◌≤◌, ◌&&◌, ◌+◌, ◌*◌, ◌∷◌, [], ℕ, List, None, length, nat_lt};
ghost use Rattle.fwmark.specs.declared.permission.Permission.{Permission};
ghost use Rattle.network_store.specs.Stored.{kind_of};
ghost use Rattle.networks.specs.Kinds.{is_physical};
ghost use Rattle.networks.specs.Lists.{find_link};
ghost use Rattle.networks.specs.Network.{local_network};
ghost use Rattle.policy_state.specs.Change.{Fits, turned};
ghost use Rattle.policy_state.specs.Counts.{rule_count};
ghost use Rattle.policy_state.specs.Good.{IsGood, most_networks, most_ranges, most_rules};
ghost use Rattle.policy_state.specs.Parts.{view_of, IsTallied};
ghost use Rattle.policy_state.specs.Rows.{default_among, is_default, links_of};
ghost use Rattle.policy_state.specs.Step.{with_net, with_link, with_ranges, with_permission};
ghost use Rattle.policy_state.specs.Tallies as tallies;
ghost use Rattle.policy_state.specs.View.{StateView};
ghost use Rattle.uid_ranges.specs.declared.range.UidRange.{UidRange};

use crate::change::Change;
use crate::parts::Parts;
use crate::picked::{default_network, is_default};
use crate::state::State;
use fwmark::Permission;
use network_store::{StoredKind, StoredNetwork};

/// The most rules that a kernel is given in each family.
const MOST_RULES: u64 = 40000;

/// How many rules the networks have for themselves, and how many VPNs there are: each VPN has a rule more for each interface of
/// the default network.
#[derive(Clone, Copy, Debug)]
pub struct Tallies {
    pub own: u64,
    pub virtuals: u64,
}

impl Tallies {
    pub(crate) fn nothing() -> Tallies
        ensures { result ≡ record { own = 0; virtuals = 0 } }
    {
        Tallies {
            own: 0,
            virtuals: 0,
        }
    }

    // Those of the local network alone.
    pub(crate) fn at_start() -> Tallies
        ensures { result ≡ tallies.tallies_of (local_network ∷ []) }
    {
        Tallies {
            own: 1,
            virtuals: 0,
        }
    }
}

fn rules_in_all(own: u64, virtuals: u64, links: u64, lockdown: u64, pairs: u64) -> u64
    requires few_rules { tallies.rules_in_all own virtuals links lockdown pairs ≤ most_rules }
    requires few { virtuals ≤ most_networks }
    ensures { result ≡ tallies.rules_in_all own virtuals links lockdown pairs }
{
    own + (virtuals + 1) * links + lockdown + pairs + 2
}

// How many rules each interface of a physical network has that asks for this permission.
fn per_link_asking(permission: Permission) -> u64
    ensures value { result ≡ tallies.per_link_asking permission }
    ensures few { result ≤ 4 }
{
    match permission {
        Permission::Nothing => 4,
        Permission::Network | Permission::System => 3,
    }
}

// How many rules each interface of a network of this kind has.
pub(crate) fn per_link(kind: &StoredKind) -> u64
    ensures value { result ≡ tallies.per_link (kind_of kind.now) }
    ensures few { result ≤ 4 }
{
    match kind {
        StoredKind::Local => 2,
        StoredKind::Physical { permission, .. } => per_link_asking(*permission),
        StoredKind::Virtual { .. } => 3,
    }
}

// And how many it has with each range.
pub(crate) fn per_range(kind: &StoredKind) -> u64
    ensures value { result ≡ tallies.per_range (kind_of kind.now) }
    ensures few { result ≤ 3 }
{
    match kind {
        StoredKind::Local => 0,
        StoredKind::Physical { .. } => 1,
        StoredKind::Virtual { .. } => 3,
    }
}

impl Parts {
    // How many interfaces the default network has, where this is its id.
    fn links_by(&self, default: Option<u16>) -> u64
        requires { IsGood (view_of self.now) }
        ensures value { result ≡
            length (links_of (default_among (view_of self.now).networks default)) }
        ensures few { result ≤ 8 }
    {
        match default_network(&self.networks, default) {
            Some(network) => network.interfaces.len() as u64,
            None => 0,
        }
    }

    // The tallies, which are as small as a state's.
    pub(crate) fn few_tallies(&self) -> Tallies
        requires good { IsGood (view_of self.now) }
        requires tallied { IsTallied self.now }
        ensures value { result ≡ tallies.tallies_of (view_of self.now).networks }
        ensures few_rules { result.own ≤ most_rules }
        ensures few { result.virtuals ≤ most_networks }
    {
        self.tallies
    }

    // Whether the network, which has this id, is the default one.
    fn is_default(&self, net: u16, network: &StoredNetwork) -> bool
        ensures { result ≡
            (is_default (view_of self.now).default net && is_physical (kind_of network.now.kind)) }
    {
        is_default(self.default, net) && network.kind.is_physical()
    }

    /// How many rules the kernel has in each family for the state, beside its own.
    pub(crate) fn rule_count(&self) -> u64
        requires good { IsGood (view_of self.now) }
        requires tallied { IsTallied self.now }
        ensures value { result ≡ rule_count (view_of self.now) }
        ensures few { result ≤ most_rules }
    {
        let tallies = self.few_tallies();
        rules_in_all(
            tallies.own,
            tallies.virtuals,
            self.links_by(self.default),
            self.lockdown.len() as u64,
            self.pairs.len() as u64,
        )
    }

    // How many after the link became an interface of the network.
    fn rules_with_link(&self, net: u16) -> u64
        requires good { IsGood (view_of self.now) }
        requires tallied { IsTallied self.now }
        ensures { (link : ℕ) → find_link link (view_of self.now).networks ≡ None →
            result ≡ rule_count (with_net net (with_link link) (view_of self.now)) }
    {
        let Some(network) = self.networks.get(net) else {
            return self.rule_count();
        };
        let ranges = network.kind.ranges().len() as u64;
        let rules = self.rule_count() + per_link(&network.kind) + per_range(&network.kind) * ranges;
        if self.is_default(net, network) {
            rules + self.few_tallies().virtuals + 1
        } else {
            rules
        }
    }

    // How many after so many ranges came to the network.
    fn rules_with_ranges(&self, net: u16, more: u64) -> u64
        requires good { IsGood (view_of self.now) }
        requires tallied { IsTallied self.now }
        requires few { more ≤ most_ranges }
        ensures { (rank : ℕ) (ranges : List UidRange) → length ranges ≡ more →
            result ≡ rule_count (with_net net (with_ranges rank ranges) (view_of self.now)) }
    {
        let Some(network) = self.networks.get(net) else {
            return self.rule_count();
        };
        let links = network.interfaces.len() as u64;
        self.rule_count() + per_range(&network.kind) * (links * more)
    }

    // How many after the network asks for this permission.
    fn rules_asking(&self, net: u16, permission: Permission) -> u64
        requires good { IsGood (view_of self.now) }
        requires tallied { IsTallied self.now }
        ensures { result ≡
            rule_count (with_net net (with_permission permission) (view_of self.now)) }
    {
        let Some(network) = self.networks.get(net) else {
            return self.rule_count();
        };
        if !network.kind.is_physical() {
            return self.rule_count();
        }
        let links = network.interfaces.len() as u64;
        let rules = self.rule_count() + per_link_asking(permission) * links;
        rules - per_link(&network.kind) * links
    }

    // How many where this is the id of the default network.
    fn rules_by_default(&self, default: Option<u16>) -> u64
        requires good { IsGood (view_of self.now) }
        requires tallied { IsTallied self.now }
        ensures { result ≡ rule_count (record (view_of self.now) { default = default }) }
    {
        let each = self.few_tallies().virtuals + 1;
        let rules = self.rule_count() + each * self.links_by(default);
        rules - each * self.links_by(self.default)
    }

    /// Whether the state would have more rules after the change than a kernel is given.
    pub(crate) fn has_too_many_rules(&self, change: &Change) -> bool
        requires good { IsGood (view_of self.now) }
        requires tallied { IsTallied self.now }
        requires fits { Fits change.now (view_of self.now) }
        ensures { result ≡
            nat_lt most_rules (rule_count (turned change.now (view_of self.now))) }
    {
        match *change {
            Change::VirtualComes { .. } => {
                self.rule_count() + self.links_by(self.default) > MOST_RULES
            }
            Change::InterfaceComes { net, .. } => self.rules_with_link(net) > MOST_RULES,
            Change::RangesCome { net, ranges, .. } => {
                self.rules_with_ranges(net, ranges.len() as u64) > MOST_RULES
            }
            Change::DefaultBecomes { default } => self.rules_by_default(default) > MOST_RULES,
            Change::NetworkPermission { net, permission } => {
                self.rules_asking(net, permission) > MOST_RULES
            }
            Change::LockdownComes { .. } => self.rule_count() + 1 > MOST_RULES,
            Change::PairComes { .. } => self.rule_count() + 1 > MOST_RULES,
            // by all others no rule comes
            Change::Nothing => false,
            Change::LinkComes { .. } => false,
            Change::LinkGoes { .. } => false,
            Change::PhysicalComes { .. } => false,
            Change::NetworkGoes { .. } => false,
            Change::InterfaceGoes { .. } => false,
            Change::RouteComes { .. } => false,
            Change::RouteGoes { .. } => false,
            Change::RangesGo { .. } => false,
            Change::UserPermission { .. } => false,
            Change::UserForgotten { .. } => false,
            Change::ProtectAllowed { .. } => false,
            Change::ProtectDenied { .. } => false,
            Change::LockdownGoes { .. } => false,
            Change::PairGoes { .. } => false,
        }
    }
}

/// How many rules the kernel has in each family for the state, beside its own. Takes no memory and goes over nothing.
pub fn rule_count(state: &State) -> u64
    ensures { result ≡ rule_count state.now }
{
    state.parts.rule_count()
}
