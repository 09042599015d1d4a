ghost use Rattle.std.specs.Prelude.{◌≡◌, IfOk};
ghost use Rattle.network_store.specs.Store.{nets_of};
ghost use Rattle.policy_state.specs.Parts.{view_of};

use crate::count::Tallies;
use crate::tether::TetherPair;
use crate::users::{PermissionTable, ProtectList};
use link_table::LinkTable;
use network_store::StoredNetworks;
use std::alloc::{AllocError, Global};
use uid_ranges::UidRange;

/// What a state is made of, before it is known that all of it fits together.
#[derive(Drop)]
pub struct Parts {
    pub(crate) alloc: Global,
    pub(crate) links: LinkTable,
    pub(crate) networks: StoredNetworks,
    pub(crate) permissions: PermissionTable,
    pub(crate) protectable: ProtectList,
    pub(crate) lockdown: Vec<UidRange>,
    pub(crate) pairs: Vec<TetherPair>,
    pub(crate) default: Option<u16>,
    /// How many rules the networks have, kept up to date so that no network is gone over to count them.
    pub(crate) tallies: Tallies,
}

impl Parts {
    fn copy_of_networks(&self) -> Result<(LinkTable, StoredNetworks), AllocError>
        ensures { IfOk result (λ copies. (copies.0.links ≡ self.now.links.links) ×
            (nets_of copies.1 ≡ nets_of self.now.networks)) }
    {
        let links = self.links.copy()?;
        let networks = self.networks.copy()?;
        Ok((links, networks))
    }

    fn copy_of_users(&self) -> Result<(PermissionTable, ProtectList), AllocError>
        ensures { IfOk result (λ copies.
            (copies.0.permissions ≡ self.now.permissions.permissions) ×
            (copies.1.users ≡ self.now.protectable.users)) }
    {
        let permissions = self.permissions.copy()?;
        let protectable = self.protectable.copy()?;
        Ok((permissions, protectable))
    }

    fn copy_of_lists(&self) -> Result<(Vec<UidRange>, Vec<TetherPair>), AllocError>
        ensures { IfOk result (λ copies. (copies.0.items ≡ self.now.lockdown.items) ×
            (copies.1.items ≡ self.now.pairs.items)) }
    {
        let lockdown = Vec::from_slice(self.alloc, self.lockdown.as_slice())?;
        let pairs = Vec::from_slice(self.alloc, self.pairs.as_slice())?;
        Ok((lockdown, pairs))
    }

    // The same parts.
    pub(crate) fn copy(&self) -> Result<Parts, AllocError>
        ensures view { IfOk result (λ parts. view_of parts ≡ view_of self.now) }
        ensures tallies { IfOk result (λ parts. parts.tallies ≡ self.now.tallies) }
    {
        let (links, networks) = self.copy_of_networks()?;
        let (permissions, protectable) = self.copy_of_users()?;
        let (lockdown, pairs) = self.copy_of_lists()?;
        Ok(Parts {
            alloc: self.alloc,
            links,
            networks,
            permissions,
            protectable,
            lockdown,
            pairs,
            default: self.default,
            tallies: self.tallies,
        })
    }
}
