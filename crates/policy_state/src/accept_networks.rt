// Whether a network or an interface may come, change or go.
ghost use Rattle.std.specs.Prelude.{◌≡◌, None, IfNone, IfOk};
ghost use Rattle.std.specs.Result.{result_err};
ghost use Rattle.fwmark.specs.declared.permission.Permission.TheVariants as needs;
ghost use Rattle.commands.specs.declared.command.Command.TheVariants as command;
ghost use Rattle.policy_state.specs.Accept.{Makes};
ghost use Rattle.policy_state.specs.Good.{IsGood};
ghost use Rattle.networks.specs.Lists.{find_id};
ghost use Rattle.policy_state.specs.Parts.{view_of};
ghost use Rattle.policy_state.specs.Step as step;

use crate::accept_links::is_lo;
use crate::change::Change;
use crate::parts::Parts;
use fwmark::Permission;
use net_names::{Code, Name};
use network_store::MOST_INTERFACES;
use networks::LOCAL_ID;

/// The most networks, with the local one.
const MOST_NETWORKS: usize = 1000;

/// The least id of a network that can be created.
const LEAST_ID: u16 = 100;

impl Parts {
    // Why no network of this id can be created.
    fn id_refusal(&self, net: u16) -> Option<Code>
        ensures code { result ≡ step.first_that_holds
            (step.reasons (view_of self.now) (command.CreatePhysical net needs.Nothing)) }
        ensures fresh { IfNone result (find_id net (view_of self.now).networks ≡ None) }
    {
        if net < LEAST_ID {
            return Some(Code::Invalid);
        }
        if self.networks.get(net).is_some() {
            return Some(Code::Exists);
        }
        if self.networks.len() >= MOST_NETWORKS {
            return Some(Code::NoSpace);
        }
        None
    }

    pub(crate) fn physical_comes(
        &self,
        net: u16,
        permission: Permission,
    ) -> Result<Change<'static>, Code>
        ensures code { result_err result ≡ step.first_that_holds
            (step.reasons (view_of self.now) (command.CreatePhysical net permission)) }
        ensures makes { IfOk result
            (Makes (view_of self.now) (command.CreatePhysical net permission)) }
    {
        match self.id_refusal(net) {
            Some(code) => Err(code),
            None => Ok(Change::PhysicalComes { net, permission }),
        }
    }

    pub(crate) fn virtual_comes(&self, net: u16, secure: bool) -> Result<Change<'static>, Code>
        ensures code { result_err result ≡ step.first_that_holds
            (step.reasons (view_of self.now) (command.CreateVirtual net secure)) }
        ensures makes { IfOk result
            (Makes (view_of self.now) (command.CreateVirtual net secure)) }
    {
        match self.id_refusal(net) {
            Some(code) => Err(code),
            None => Ok(Change::VirtualComes { net, secure }),
        }
    }

    pub(crate) fn network_goes(&self, net: u16) -> Result<Change<'static>, Code>
        ensures code { result_err result ≡ step.first_that_holds
            (step.reasons (view_of self.now) (command.Destroy net)) }
        ensures makes { IfOk result (Makes (view_of self.now) (command.Destroy net)) }
    {
        if net == LOCAL_ID {
            return Err(Code::Invalid);
        }
        if self.networks.get(net).is_none() {
            return Err(Code::NoNetwork);
        }
        Ok(Change::NetworkGoes { net })
    }

    pub(crate) fn interface_comes(&self, net: u16, name: &Name) -> Result<Change<'static>, Code>
        requires { IsGood (view_of self.now) }
        ensures code { result_err result ≡ step.first_that_holds
            (step.reasons (view_of self.now) (command.InterfaceAdd net name.now)) }
        ensures makes { IfOk result
            (Makes (view_of self.now) (command.InterfaceAdd net name.now)) }
    {
        let Some(network) = self.networks.get(net) else {
            return Err(Code::NoNetwork);
        };
        if is_lo(name) {
            return Err(Code::Invalid);
        }
        let Some(link) = self.links.index_of(name) else {
            return Err(Code::NoDevice);
        };
        if network.has_link(link) {
            return Ok(Change::Nothing);
        }
        if self.is_in_any(link) {
            return Err(Code::Busy);
        }
        if network.interfaces.len() >= MOST_INTERFACES {
            return Err(Code::NoSpace);
        }
        Ok(Change::InterfaceComes { net, link })
    }

    pub(crate) fn interface_goes(&self, net: u16, name: &Name) -> Result<Change<'static>, Code>
        requires { IsGood (view_of self.now) }
        ensures code { result_err result ≡ step.first_that_holds
            (step.reasons (view_of self.now) (command.InterfaceRemove net name.now)) }
        ensures makes { IfOk result
            (Makes (view_of self.now) (command.InterfaceRemove net name.now)) }
    {
        let Some(network) = self.networks.get(net) else {
            return Err(Code::NoNetwork);
        };
        let Some(link) = self.links.index_of(name) else {
            return Ok(Change::Nothing);
        };
        if !network.has_link(link) {
            return Ok(Change::Nothing);
        }
        Ok(Change::InterfaceGoes { net, link })
    }

    // Why there is no physical network of this id.
    fn physical_refusal(&self, net: u16) -> Option<Code>
        ensures { result ≡ step.first_that_holds
            (step.reasons (view_of self.now) (command.DefaultSet net)) }
    {
        let Some(network) = self.networks.get(net) else {
            return Some(Code::NoNetwork);
        };
        if !network.kind.is_physical() {
            return Some(Code::Invalid);
        }
        None
    }

    pub(crate) fn default_set(&self, net: u16) -> Result<Change<'static>, Code>
        ensures code { result_err result ≡ step.first_that_holds
            (step.reasons (view_of self.now) (command.DefaultSet net)) }
        ensures makes { IfOk result (Makes (view_of self.now) (command.DefaultSet net)) }
    {
        match self.physical_refusal(net) {
            Some(code) => Err(code),
            None => Ok(Change::DefaultBecomes { default: Some(net) }),
        }
    }

    pub(crate) fn permission_set(
        &self,
        net: u16,
        permission: Permission,
    ) -> Result<Change<'static>, Code>
        ensures code { result_err result ≡ step.first_that_holds
            (step.reasons (view_of self.now) (command.PermissionNetwork net permission)) }
        ensures makes { IfOk result
            (Makes (view_of self.now) (command.PermissionNetwork net permission)) }
    {
        match self.physical_refusal(net) {
            Some(code) => Err(code),
            None => Ok(Change::NetworkPermission { net, permission }),
        }
    }
}
