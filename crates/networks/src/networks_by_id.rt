ghost use Rattle.std.specs.Prelude.{◌≡◌, ◌∷◌, [], length, IfOk, slice_get};
ghost use Rattle.std.specs.Option.{option_copied};
ghost use Rattle.networks.specs.Network.{local_network};
ghost use Rattle.networks.specs.Lists.{find_id, find_link, put_net, drop_net};

use crate::kind::Kind;
use crate::network::{LinkRoutes, Links, Network};
use indexmap::IndexMap;
use std::alloc::{AllocError, Global};
use std::marker::Model;

/// The id of the local network, as netd has it.
pub const LOCAL_ID: u16 = 99;

/// The networks in the order of their creation.
#[derive(Debug, Drop)]
pub struct Networks {
    by_id: IndexMap<u16, Network>,
}

impl Model for Networks {
    ghost use Rattle.std.specs.Prelude.{List};
    ghost use Rattle.std.specs.Map.{values_of};
    ghost use Rattle.networks.specs.declared.network.Network.{Network};
    ghost use Rattle.networks.specs.Lists.{StandAtIds};

    ghost Value = { List Network };

    ghost view = { λ networks. values_of networks.by_id.entries };

    ghost invariant = { λ networks. StandAtIds networks.by_id.entries };
}

// A map with equal entries in the same order.
fn copy_map(networks: &IndexMap<u16, Network>) -> Result<IndexMap<u16, Network>, AllocError>
    ensures { IfOk result (λ copy. copy.entries ≡ networks.now.entries) }
{
    networks.clone()
}

impl Networks {
    /// The local network alone.
    pub fn start(alloc: Global) -> Result<Networks, AllocError>
        ensures { IfOk result (λ networks. networks ≡ local_network ∷ []) }
    {
        let mut by_id = IndexMap::new(alloc);
        let local = Network {
            id: LOCAL_ID,
            kind: Kind::Local,
            interfaces: Links::empty(alloc),
            routes: LinkRoutes::empty(alloc),
        };
        by_id.insert(LOCAL_ID, local)?;
        Ok(Networks { by_id })
    }

    pub fn len(&self) -> usize
        ensures { result ≡ length self.now }
    {
        self.by_id.len()
    }

    /// The network at a place, from 0.
    pub fn at(&self, place: usize) -> Option<&Network>
        ensures { option_copied result ≡ slice_get self.now place }
    {
        match self.by_id.get_index(place) {
            Some((_, network)) => Some(network),
            None => None,
        }
    }

    pub fn get(&self, id: u16) -> Option<&Network>
        ensures { option_copied result ≡ find_id id self.now }
    {
        self.by_id.get(&id)
    }

    /// The network of which the link is an interface.
    pub fn network_of(&self, link: u16) -> Option<&Network>
        ensures { option_copied result ≡ find_link link self.now }
    {
        self.by_id.values().find(|network| network.has_link(link))
    }

    /// Equal networks in the same order.
    pub fn copy(&self) -> Result<Networks, AllocError>
        ensures { IfOk result (λ copy. copy ≡ self.now) }
    {
        let by_id = copy_map(&self.by_id)?;
        Ok(Networks { by_id })
    }

    /// With this network in the place of the one with its id, or last.
    pub fn put(&self, network: Network) -> Result<Networks, AllocError>
        ensures { IfOk result (λ networks. networks ≡ put_net network self.now) }
    {
        let mut by_id = copy_map(&self.by_id)?;
        by_id.insert(network.id, network)?;
        Ok(Networks { by_id })
    }

    /// Without the network of this id. The others keep their order.
    pub fn drop_id(&self, id: u16) -> Result<Networks, AllocError>
        ensures { IfOk result (λ networks. networks ≡ drop_net id self.now) }
    {
        let mut by_id = copy_map(&self.by_id)?;
        by_id.shift_remove(&id);
        Ok(Networks { by_id })
    }
}
