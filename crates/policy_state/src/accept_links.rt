// Whether a link may come or go.
ghost use Rattle.std.specs.Prelude.{◌≡◌, ◌==◌, IfOk, codes};
ghost use Rattle.std.specs.List.{list_any};
ghost use Rattle.std.specs.Result.{result_err};
ghost use Rattle.std.specs.Str.{bytes_eq};
ghost use Rattle.commands.specs.declared.command.Command.TheVariants as command;
ghost use Rattle.policy_state.specs.Accept.{Makes};
ghost use Rattle.policy_state.specs.Parts.{view_of};
ghost use Rattle.policy_state.specs.Step as step;

use crate::change::Change;
use crate::parts::Parts;
use link_table::Link;
use net_names::{Code, Name};

/// The most links, with `lo`.
const MOST_LINKS: usize = 4096;

/// The least index of a link that can be added: `lo` has index 1.
const LEAST_INDEX: u16 = 2;

pub(crate) fn is_lo(name: &Name) -> bool
    ensures { result ≡ bytes_eq name.now (codes "lo") }
{
    name.as_bytes() == b"lo".as_slice()
}

impl Parts {
    pub(crate) fn link_comes(&self, name: &Name, index: u16) -> Result<Change<'static>, Code>
        ensures code { result_err result ≡ step.first_that_holds
            (step.reasons (view_of self.now) (command.LinkAdd name.now index)) }
        ensures makes { IfOk result
            (Makes (view_of self.now) (command.LinkAdd name.now index)) }
    {
        if index < LEAST_INDEX {
            return Err(Code::Invalid);
        }
        if self.links.is_taken(name, index) {
            return Err(Code::Exists);
        }
        if self.links.len() >= MOST_LINKS {
            return Err(Code::NoSpace);
        }
        let link = Link { name: *name, index };
        Ok(Change::LinkComes { link })
    }

    // Whether the link is the input of a tether pair.
    fn is_input(&self, link: u16) -> bool
        ensures { result ≡ step.is_input (view_of self.now) link }
    {
        self.pairs.iter().any(|pair| pair.input == link)
    }

    // Whether the link is an interface of some network.
    pub(crate) fn is_in_any(&self, link: u16) -> bool
        ensures { result ≡ step.is_in_any (view_of self.now) link }
    {
        self.networks.network_of(link).is_some()
    }

    pub(crate) fn link_goes(&self, name: &Name) -> Result<Change<'static>, Code>
        ensures code { result_err result ≡ step.first_that_holds
            (step.reasons (view_of self.now) (command.LinkRemove name.now)) }
        ensures makes { IfOk result (Makes (view_of self.now) (command.LinkRemove name.now)) }
    {
        let Some(link) = self.links.index_of(name) else {
            return Err(Code::NoDevice);
        };
        if is_lo(name) {
            return Err(Code::Invalid);
        }
        if self.is_in_any(link) || self.is_input(link) {
            return Err(Code::Busy);
        }
        Ok(Change::LinkGoes { name: *name })
    }
}
