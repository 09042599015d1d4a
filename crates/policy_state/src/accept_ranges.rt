// Whether ranges of UIDs may come to a network or to lockdown, or go.
ghost use Rattle.std.specs.Prelude.{◌≡◌, ◌∷◌, [], false, IfOk};
ghost use Rattle.std.specs.List.{list_all};
ghost use Rattle.std.specs.Result.{result_err};
ghost use Rattle.network_store.specs.Stored.{kind_of};
ghost use Rattle.networks.specs.Kinds.{ranges_of};
ghost use Rattle.commands.specs.declared.command.Command.TheVariants as command;
ghost use Rattle.policy_state.specs.Accept.{Makes, takes};
ghost use Rattle.policy_state.specs.Change.{Fits, turned};
ghost use Rattle.policy_state.specs.Good.{IsGood};
ghost use Rattle.policy_state.specs.Parts.{view_of};
ghost use Rattle.policy_state.specs.Routed.{is_routed};
ghost use Rattle.policy_state.specs.Step as step;
ghost use Rattle.uid_ranges.specs.Ranks.{has_users};
ghost use Rattle.uid_ranges.specs.Ranges.{has, lists_meet};

use crate::change::Change;
use crate::parts::Parts;
use net_names::Code;
use network_store::StoredKind;
use uid_ranges::{LAST_RANK, UidRange, self_meets};

/// The most ranges of a network.
const MOST_RANGES: usize = 1000;

/// The most ranges that are locked down at a time.
const MOST_LOCKDOWN_RANGES: usize = 1000;

/// Users of a VPN, or apps of a physical network.
#[derive(Clone, Copy, Debug)]
pub enum RangeKind {
    Users,
    Apps,
}

// Whether networks of this kind have such ranges.
fn takes(which: RangeKind, kind: &StoredKind) -> bool
    ensures { result ≡ takes which (kind_of kind.now) }
{
    match which {
        RangeKind::Users => kind.is_virtual(),
        RangeKind::Apps => kind.is_physical(),
    }
}

// Whether each of these very ranges is one of the network.
fn has_each(kind: &StoredKind, ranges: &[UidRange]) -> bool
    ensures { result ≡ list_all (has_users (ranges_of (kind_of kind.now))) ranges.now }
{
    ranges.iter().all(|range| kind.has(*range))
}

impl Parts {
    pub(crate) fn ranges_come<'a>(
        &self,
        which: RangeKind,
        net: u16,
        rank: u8,
        ranges: &'a [UidRange],
    ) -> Result<Change<'a>, Code>
        requires { IsGood (view_of self.now) }
        ensures code { result_err result ≡ step.first_that_holds
            (step.ranges_come_reasons (takes which) (view_of self.now) net rank ranges.now) }
        ensures turned { IfOk result (λ change. turned change (view_of self.now) ≡
            step.with_net net (step.with_ranges rank ranges.now) (view_of self.now)) }
        ensures fits { IfOk result (λ change. Fits change (view_of self.now)) }
        ensures routes { IfOk result (λ change. is_routed change ≡ false) }
    {
        let Some(network) = self.networks.get(net) else {
            return Err(Code::NoNetwork);
        };
        if !takes(which, &network.kind) || self_meets(ranges) || rank > LAST_RANK {
            return Err(Code::Invalid);
        }
        if network.kind.meets(ranges) || self.networks.kin_meet(net, ranges, rank) {
            return Err(Code::Exists);
        }
        if network.kind.ranges().len() + ranges.len() > MOST_RANGES {
            return Err(Code::NoSpace);
        }
        Ok(Change::RangesCome { net, rank, ranges })
    }

    pub(crate) fn ranges_go<'a>(
        &self,
        which: RangeKind,
        net: u16,
        ranges: &'a [UidRange],
    ) -> Result<Change<'a>, Code>
        ensures code { result_err result ≡ step.first_that_holds
            (step.ranges_go_reasons (takes which) (view_of self.now) net ranges.now) }
        ensures turned { IfOk result (λ change. turned change (view_of self.now) ≡
            step.with_net net (step.without_ranges ranges.now) (view_of self.now)) }
        ensures fits { IfOk result (λ change. Fits change (view_of self.now)) }
        ensures routes { IfOk result (λ change. is_routed change ≡ false) }
    {
        let Some(network) = self.networks.get(net) else {
            return Err(Code::NoNetwork);
        };
        if !takes(which, &network.kind) || self_meets(ranges) {
            return Err(Code::Invalid);
        }
        if !has_each(&network.kind, ranges) {
            return Err(Code::NoEntry);
        }
        Ok(Change::RangesGo { net, ranges })
    }

    // Whether a range that is locked down meets this one.
    fn is_met(&self, range: &UidRange) -> bool
        ensures { result ≡ lists_meet (view_of self.now).lockdown (range.now ∷ []) }
    {
        self.lockdown.iter().any(|other| other.meets(range))
    }

    // Whether this very range is locked down.
    fn is_locked(&self, range: &UidRange) -> bool
        ensures { result ≡ has (view_of self.now).lockdown range.now }
    {
        self.lockdown.iter().any(|other| range.is_same(other))
    }

    pub(crate) fn lockdown_comes(&self, range: UidRange) -> Result<Change<'static>, Code>
        ensures code { result_err result ≡ step.first_that_holds
            (step.reasons (view_of self.now) (command.LockdownAdd range)) }
        ensures makes { IfOk result (Makes (view_of self.now) (command.LockdownAdd range)) }
    {
        if self.is_met(&range) {
            return Err(Code::Exists);
        }
        if self.lockdown.len() >= MOST_LOCKDOWN_RANGES {
            return Err(Code::NoSpace);
        }
        Ok(Change::LockdownComes { range })
    }

    pub(crate) fn lockdown_goes(&self, range: UidRange) -> Result<Change<'static>, Code>
        ensures code { result_err result ≡ step.first_that_holds
            (step.reasons (view_of self.now) (command.LockdownRemove range)) }
        ensures makes { IfOk result (Makes (view_of self.now) (command.LockdownRemove range)) }
    {
        if !self.is_locked(&range) {
            return Err(Code::NoEntry);
        }
        Ok(Change::LockdownGoes { range })
    }
}
