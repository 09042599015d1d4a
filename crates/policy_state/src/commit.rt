// A change that is made in the room that is there, so that it can't fail.
ghost use Rattle.std.specs.Prelude.{◌≡◌, ◌==◌, filter, not, [], ◌∷◌, None, Some, if◌then◌else◌};
ghost use Rattle.std.specs.Option.{option_map};
ghost use Rattle.network_store.specs.Store.{nets_of};
ghost use Rattle.networks.specs.Lists.{find_link};
ghost use Rattle.policy_state.specs.Change.{turned, has_link_at, Fits};
ghost use Rattle.policy_state.specs.Good.{IsWellFormed};
ghost use Rattle.policy_state.specs.Parts.{view_of};
ghost use Rattle.policy_state.specs.Room.{HasRoom};
ghost use Rattle.policy_state.specs.Step.{is_pair, without_net, without_interface};
ghost use Rattle.uid_ranges.specs.Ranges.{without};

use crate::change::Change;
use crate::parts::Parts;
use crate::tether::TetherPair;
use network_store::StoredNetworks;
use networks::LinkRoute;
use uid_ranges::UidRange;

// Takes the range out. The others keep their order.
fn take_range(ranges: &mut Vec<UidRange>, range: &UidRange)
    ensures { ranges.new.items ≡ without ranges.old.items (range.now ∷ []) }
{
    ranges.retain(|other| !other.is_same(range));
}

fn is_pair(pair: &TetherPair, other: &TetherPair) -> bool
    ensures { result ≡ is_pair pair.now other.now }
{
    other.input == pair.input && other.out == pair.out
}

// Takes the pair out. The others keep their order.
fn take_pair(pairs: &mut Vec<TetherPair>, pair: &TetherPair)
    ensures { pairs.new.items ≡ filter (λ p. not (is_pair pair.now p)) pairs.old.items }
{
    pairs.retain(|other| !is_pair(pair, other));
}

// Takes the pairs out that go out by this link.
fn take_pairs_by(pairs: &mut Vec<TetherPair>, link: u16)
    ensures { pairs.new.items ≡ filter (λ p. not (p.out == link)) pairs.old.items }
{
    pairs.retain(|pair| pair.out != link);
}

// Takes the pairs out that go out by an interface of this network.
fn take_pairs_of(pairs: &mut Vec<TetherPair>, networks: &StoredNetworks, net: u16)
    ensures { pairs.new.items ≡
        filter (λ p. not (has_link_at net (nets_of networks.now) p.out)) pairs.old.items }
{
    let Some(network) = networks.get(net) else {
        return;
    };
    pairs.retain(|pair| !network.has_link(pair.out));
}

// The default network after this one is gone.
fn default_without(default: Option<u16>, net: u16) -> Option<u16>
    ensures { result ≡
        elim default [ Some id ↦ if id == net then None else Some id | None ↦ None ] }
{
    match default {
        Some(id) if id == net => None,
        Some(id) => Some(id),
        None => None,
    }
}

impl Parts {
    // Takes the network out, and the tether pairs that go out by its interfaces. It is the default no more.
    fn drop_network(&mut self, net: u16)
        requires { IsWellFormed (view_of self.old) }
        ensures { view_of self.new ≡ without_net net (view_of self.old) }
    {
        take_pairs_of(&mut self.pairs, &self.networks, net);
        self.default = default_without(self.default, net);
        self.networks.destroy(net);
    }

    // Takes the interface out of its network, with its routes and the tether pairs that go out by it.
    fn drop_interface(&mut self, net: u16, link: u16)
        requires formed { IsWellFormed (view_of self.old) }
        requires owner { option_map (λ n. n.id) (find_link link (view_of self.old).networks)
            ≡ Some net }
        ensures { view_of self.new ≡ without_interface net link (view_of self.old) }
    {
        self.networks.remove_interface(net, link);
        take_pairs_by(&mut self.pairs, link);
    }

    /// Makes the change, in the room that is there.
    pub(crate) fn commit(&mut self, change: &Change)
        requires formed { IsWellFormed (view_of self.old) }
        requires fits { Fits change.now (view_of self.old) }
        requires room { HasRoom change.now self.old }
        ensures { view_of self.new ≡ turned change.now (view_of self.old) }
    {
        match *change {
            Change::Nothing => {}
            Change::LinkComes { link } => self.links.add(link),
            Change::LinkGoes { name } => self.links.remove(&name),
            Change::PhysicalComes { net, permission } => {
                self.networks.create_physical(net, permission);
            }
            Change::VirtualComes { net, secure } => self.networks.create_virtual(net, secure),
            Change::NetworkGoes { net } => self.drop_network(net),
            Change::InterfaceComes { net, link } => self.networks.add_interface(net, link),
            Change::InterfaceGoes { net, link } => self.drop_interface(net, link),
            Change::RouteComes { net, link, route } => {
                self.networks.add_route(net, LinkRoute { link, route });
            }
            Change::RouteGoes { net, link, key } => self.networks.remove_route(net, link, &key),
            Change::RangesCome { net, rank, ranges } => {
                self.networks.add_ranges(net, ranges, rank);
            }
            Change::RangesGo { net, ranges } => self.networks.remove_ranges(net, ranges),
            Change::DefaultBecomes { default } => self.default = default,
            Change::NetworkPermission { net, permission } => {
                self.networks.set_permission(net, permission);
            }
            Change::UserPermission { uid, permission } => self.permissions.set(uid, permission),
            Change::UserForgotten { uid } => self.permissions.forget(uid),
            Change::ProtectAllowed { uid } => self.protectable.add(uid),
            Change::ProtectDenied { uid } => self.protectable.remove(uid),
            Change::LockdownComes { range } => self.lockdown.push_reserved(range),
            Change::LockdownGoes { range } => take_range(&mut self.lockdown, &range),
            Change::PairComes { pair } => self.pairs.push_reserved(pair),
            Change::PairGoes { pair } => take_pair(&mut self.pairs, &pair),
        }
    }
}
