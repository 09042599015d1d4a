// Whether a tether pair may come or go.
ghost use Rattle.std.specs.Prelude.{◌≡◌, IfOk};
ghost use Rattle.std.specs.Result.{result_err};
ghost use Rattle.commands.specs.declared.command.Command.TheVariants as command;
ghost use Rattle.policy_state.specs.Accept.{Makes};
ghost use Rattle.policy_state.specs.Parts.{view_of};
ghost use Rattle.policy_state.specs.Step as step;

use crate::change::Change;
use crate::parts::Parts;
use crate::tether::TetherPair;
use net_names::{Code, Name};
use rule_match::LOOPBACK;

/// The most tether pairs.
const MOST_PAIRS: usize = 1000;

impl Parts {
    // Whether the pair is one of those that there are.
    fn has_pair(&self, pair: TetherPair) -> bool
        ensures { result ≡ step.has_pair (view_of self.now) pair.input pair.out }
    {
        self.pairs
            .iter()
            .any(|other| other.input == pair.input && other.out == pair.out)
    }

    pub(crate) fn pair_comes(&self, input: &Name, out: &Name) -> Result<Change<'static>, Code>
        ensures code { result_err result ≡ step.first_that_holds
            (step.reasons (view_of self.now) (command.TetherAdd input.now out.now)) }
        ensures makes { IfOk result
            (Makes (view_of self.now) (command.TetherAdd input.now out.now)) }
    {
        let Some(came) = self.links.index_of(input) else {
            return Err(Code::NoDevice);
        };
        let Some(goes) = self.links.index_of(out) else {
            return Err(Code::NoDevice);
        };
        let Some(network) = self.networks.network_of(goes) else {
            return Err(Code::NoDevice);
        };
        if came == goes || came == LOOPBACK || network.kind.is_local() {
            return Err(Code::Invalid);
        }
        let pair = TetherPair {
            input: came,
            out: goes,
        };
        if self.has_pair(pair) {
            return Err(Code::Exists);
        }
        if self.pairs.len() >= MOST_PAIRS {
            return Err(Code::NoSpace);
        }
        Ok(Change::PairComes { pair })
    }

    pub(crate) fn pair_goes(&self, input: &Name, out: &Name) -> Result<Change<'static>, Code>
        ensures code { result_err result ≡ step.first_that_holds
            (step.reasons (view_of self.now) (command.TetherRemove input.now out.now)) }
        ensures makes { IfOk result
            (Makes (view_of self.now) (command.TetherRemove input.now out.now)) }
    {
        let Some(came) = self.links.index_of(input) else {
            return Err(Code::NoEntry);
        };
        let Some(goes) = self.links.index_of(out) else {
            return Err(Code::NoEntry);
        };
        let pair = TetherPair {
            input: came,
            out: goes,
        };
        if !self.has_pair(pair) {
            return Err(Code::NoEntry);
        }
        Ok(Change::PairGoes { pair })
    }
}
