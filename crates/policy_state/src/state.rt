ghost use Rattle.std.specs.Prelude.{◌≡◌, IfOk};
ghost use Rattle.network_store.specs.Store.{nets_of};
ghost use Rattle.policy_state.specs.Good.{IsGood};
ghost use Rattle.policy_state.specs.Step.{is_protectable};
ghost use Rattle.policy_state.specs.Users.{permission_of};
ghost use Rattle.policy_state.specs.View.{StateView, start, link_named, name_of};

use crate::count::Tallies;
use crate::parts::Parts;
use crate::tether::TetherPair;
use crate::users::{PermissionTable, ProtectList};
use fwmark::Permission;
use link_table::{Link, LinkTable};
use net_names::Name;
use network_store::StoredNetworks;
use std::alloc::{AllocError, Global};
use std::marker::Model;
use uid_ranges::{Uid, UidRange};

/// What the policy goes by. A state doesn't change: a command makes a new one.
#[derive(Drop)]
pub struct State {
    pub(crate) parts: Parts,
}

impl Model for State {
    ghost use Rattle.policy_state.specs.Good.{IsGood};
    ghost use Rattle.policy_state.specs.Parts.{view_of, IsTallied};
    ghost use Rattle.policy_state.specs.View.{StateView};

    ghost Value = { StateView };

    ghost view = { λ s. view_of s.parts };

    ghost invariant = { λ s. IsGood (view_of s.parts) × IsTallied s.parts };
}

impl State {
    /// The state at the start: `lo` and the local network, and nothing else.
    pub fn start(alloc: Global) -> Result<State, AllocError>
        ensures { IfOk result (λ state. state ≡ start) }
    {
        let parts = Parts {
            alloc,
            links: LinkTable::start(alloc)?,
            networks: StoredNetworks::start(alloc)?,
            permissions: PermissionTable::empty(alloc),
            protectable: ProtectList::empty(alloc),
            lockdown: Vec::new(alloc),
            pairs: Vec::new(alloc),
            default: None,
            tallies: Tallies::at_start(),
        };
        Ok(State { parts })
    }

    /// The index of the link of this name.
    pub fn link_named(&self, name: &Name) -> Option<u16>
        ensures { result ≡ link_named self.now name.now }
    {
        self.parts.links.index_of(name)
    }

    /// The name of the link of this index.
    pub fn name_of(&self, index: u16) -> Option<Name>
        ensures { result ≡ name_of self.now index }
    {
        self.parts.links.name_of(index)
    }

    /// The links, in the order of their addition.
    pub fn links(&self) -> &[Link]
        ensures { result.now ≡ self.now.links }
    {
        self.parts.links.as_slice()
    }

    /// The networks, in the order of their creation.
    pub fn networks(&self) -> &StoredNetworks
        ensures value { nets_of result.now ≡ self.now.networks }
        ensures good { IsGood self.now }
    {
        &self.parts.networks
    }

    /// The permission that was set for the user.
    pub fn permission_of(&self, uid: Uid) -> Option<Permission>
        ensures { result ≡ permission_of self.now uid }
    {
        self.parts.permissions.get(uid)
    }

    /// Whether the user is one of those who may protect their sockets from VPNs.
    pub fn is_protectable(&self, uid: Uid) -> bool
        ensures { result ≡ is_protectable self.now uid }
    {
        self.parts.protectable.has(uid)
    }

    /// The ranges that are locked down, in the order of their addition.
    pub fn lockdown(&self) -> &[UidRange]
        ensures value { result.now ≡ self.now.lockdown }
        ensures good { IsGood self.now }
    {
        self.parts.lockdown.as_slice()
    }

    /// The tether pairs, in the order of their addition.
    pub fn pairs(&self) -> &[TetherPair]
        ensures { result.now ≡ self.now.pairs }
    {
        self.parts.pairs.as_slice()
    }

    /// The id of the default network.
    pub fn default_net(&self) -> Option<u16>
        ensures { result ≡ self.now.default }
    {
        self.parts.default
    }
}
