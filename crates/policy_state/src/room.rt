// Room for a change, which is made before it.
ghost use Rattle.std.specs.Prelude.{◌≡◌, OnOk};
ghost use Rattle.policy_state.specs.Parts.{view_of};
ghost use Rattle.policy_state.specs.Room.{HasRoom};

use crate::change::Change;
use crate::parts::Parts;
use std::alloc::AllocError;

impl Parts {
    /// Takes the memory that the change will need. What is seen of the parts stays, whatever the result.
    pub(crate) fn make_room(&mut self, change: &Change) -> Result<(), AllocError>
        ensures view { view_of self.new ≡ view_of self.old }
        ensures room { OnOk result (HasRoom change.now self.new) }
        ensures tallies { self.new.tallies ≡ self.old.tallies }
    {
        match *change {
            Change::LinkComes { .. } => self.links.reserve(1),
            Change::PhysicalComes { .. } | Change::VirtualComes { .. } => {
                self.networks.reserve_network()
            }
            Change::InterfaceComes { .. } => self.networks.reserve_interface(),
            Change::RouteComes { net, .. } => self.networks.reserve_route(net),
            Change::RangesCome { net, ranges, .. } => {
                self.networks.reserve_ranges(net, ranges.len())
            }
            Change::UserPermission { .. } => self.permissions.reserve(),
            Change::ProtectAllowed { .. } => self.protectable.reserve(),
            Change::LockdownComes { .. } => self.lockdown.reserve(1),
            Change::PairComes { .. } => self.pairs.reserve(1),
            Change::Nothing
            | Change::LinkGoes { .. }
            | Change::NetworkGoes { .. }
            | Change::InterfaceGoes { .. }
            | Change::RouteGoes { .. }
            | Change::RangesGo { .. }
            | Change::DefaultBecomes { .. }
            | Change::NetworkPermission { .. }
            | Change::UserForgotten { .. }
            | Change::ProtectDenied { .. }
            | Change::LockdownGoes { .. }
            | Change::PairGoes { .. } => Ok(()),
        }
    }
}
