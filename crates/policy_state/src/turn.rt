// A change is made, and the tallies follow it by what the one network that it may touch has before and after it.
ghost use Rattle.std.specs.Prelude.{◌≡◌, ◌≤◌, ◌+◌, ◌-◌};
ghost use Rattle.network_store.specs.Stored.{kind_of, net_of as stored_net};
ghost use Rattle.policy_state.specs.Change.{Fits, turned};
ghost use Rattle.policy_state.specs.ChangedNet.{net_of, shares_of};
ghost use Rattle.policy_state.specs.Good.{IsGood, IsNetwork, most_rules};
ghost use Rattle.policy_state.specs.Parts.{view_of, IsTallied};
ghost use Rattle.policy_state.specs.Room.{HasRoom};
ghost use Rattle.policy_state.specs.Tallies as tallies;

use crate::change::Change;
use crate::count::{Tallies, per_link, per_range};
use crate::parts::Parts;
use network_store::{StoredKind, StoredNetwork};

impl Change<'_> {
    // The one network that it may touch.
    fn net(&self) -> Option<u16>
        ensures { result ≡ net_of self.now }
    {
        match *self {
            Change::PhysicalComes { net, .. } => Some(net),
            Change::VirtualComes { net, .. } => Some(net),
            Change::NetworkGoes { net } => Some(net),
            Change::InterfaceComes { net, .. } => Some(net),
            Change::InterfaceGoes { net, .. } => Some(net),
            Change::RouteComes { net, .. } => Some(net),
            Change::RouteGoes { net, .. } => Some(net),
            Change::RangesCome { net, .. } => Some(net),
            Change::RangesGo { net, .. } => Some(net),
            Change::NetworkPermission { net, .. } => Some(net),
            Change::Nothing
            | Change::LinkComes { .. }
            | Change::LinkGoes { .. }
            | Change::DefaultBecomes { .. }
            | Change::UserPermission { .. }
            | Change::UserForgotten { .. }
            | Change::ProtectAllowed { .. }
            | Change::ProtectDenied { .. }
            | Change::LockdownComes { .. }
            | Change::LockdownGoes { .. }
            | Change::PairComes { .. }
            | Change::PairGoes { .. } => None,
        }
    }
}

// How many rules a network of this kind has by itself.
fn alone(kind: &StoredKind) -> u64
    ensures value { result ≡ tallies.alone (kind_of kind.now) }
    ensures few { result ≤ 1 }
{
    match kind {
        StoredKind::Local => 1,
        StoredKind::Physical { .. } => 0,
        StoredKind::Virtual { .. } => 0,
    }
}

// How many rules the network has for itself.
fn own_of(network: &StoredNetwork) -> u64
    requires { IsNetwork (stored_net network.now) }
    ensures value { result ≡ tallies.own (stored_net network.now) }
    ensures few { result ≤ 100000 }
{
    let links = network.interfaces.len() as u64;
    let ranges = network.kind.ranges().len() as u64;
    alone(&network.kind)
        + per_link(&network.kind) * links
        + per_range(&network.kind) * (links * ranges)
}

impl Parts {
    // What the network of this id has of the tallies, where there is one.
    fn shares_of(&self, net: Option<u16>) -> Tallies
        requires { IsGood (view_of self.now) }
        ensures value { result ≡ shares_of net (view_of self.now).networks }
        ensures few_rules { result.own ≤ 100000 }
        ensures few { result.virtuals ≤ 1 }
    {
        let Some(id) = net else {
            return Tallies::nothing();
        };
        let Some(network) = self.networks.get(id) else {
            return Tallies::nothing();
        };
        Tallies {
            own: own_of(network),
            virtuals: if network.kind.is_virtual() { 1 } else { 0 },
        }
    }

    /// Makes the change, in the room that is there.
    pub(crate) fn turn(&mut self, change: &Change)
        requires good { IsGood (view_of self.old) }
        requires good_after { IsGood (turned change.now (view_of self.old)) }
        requires tallied { IsTallied self.old }
        requires fits { Fits change.now (view_of self.old) }
        requires room { HasRoom change.now self.old }
        ensures view { view_of self.new ≡ turned change.now (view_of self.old) }
        ensures tallied { IsTallied self.new }
    {
        let net = change.net();
        let kept = self.few_tallies();
        let before = self.shares_of(net);
        self.commit(change);
        let after = self.shares_of(net);
        self.tallies = Tallies {
            own: kept.own + after.own - before.own,
            virtuals: kept.virtuals + after.virtuals - before.virtuals,
        };
    }
}
