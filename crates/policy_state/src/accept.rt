// Whether a command is accepted, and what it changes then. Nothing is gone over and no memory is taken.
ghost use Rattle.std.specs.Prelude.{◌≡◌, IfOk};
ghost use Rattle.std.specs.Result.{result_err};
ghost use Rattle.policy_state.specs.Accept.{Makes};
ghost use Rattle.policy_state.specs.Change.{turned};
ghost use Rattle.policy_state.specs.Good.{IsGood};
ghost use Rattle.policy_state.specs.Parts.{view_of, IsTallied};
ghost use Rattle.policy_state.specs.Step as step;

use crate::accept_ranges::RangeKind;
use crate::change::Change;
use crate::parts::Parts;
use crate::state::State;
use commands::Command;
use net_names::Code;

impl Parts {
    // What the command changes, unless there is a reason against it other than the number of rules.
    fn change_of<'a>(&self, command: &'a Command) -> Result<Change<'a>, Code>
        requires { IsGood (view_of self.now) }
        ensures code { result_err result ≡
            step.first_that_holds (step.reasons (view_of self.now) command.now) }
        ensures makes { IfOk result (Makes (view_of self.now) command.now) }
    {
        match command {
            Command::LinkAdd { name, index } => self.link_comes(name, *index),
            Command::LinkRemove { name } => self.link_goes(name),
            Command::CreatePhysical { net, permission } => self.physical_comes(*net, *permission),
            Command::CreateVirtual { net, secure } => self.virtual_comes(*net, *secure),
            Command::Destroy { net } => self.network_goes(*net),
            Command::InterfaceAdd { net, name } => self.interface_comes(*net, name),
            Command::InterfaceRemove { net, name } => self.interface_goes(*net, name),
            Command::RouteAdd {
                net,
                name,
                prefix,
                way,
            } => self.route_comes(*net, name, *prefix, *way),
            Command::RouteRemove {
                net,
                name,
                prefix,
                special,
            } => self.route_goes(*net, name, *prefix, *special),
            Command::UsersAdd { net, rank, ranges } => {
                self.ranges_come(RangeKind::Users, *net, *rank, ranges.as_slice())
            }
            Command::UsersRemove { net, ranges } => {
                self.ranges_go(RangeKind::Users, *net, ranges.as_slice())
            }
            Command::AppAdd { net, rank, ranges } => {
                self.ranges_come(RangeKind::Apps, *net, *rank, ranges.as_slice())
            }
            Command::AppRemove { net, ranges } => {
                self.ranges_go(RangeKind::Apps, *net, ranges.as_slice())
            }
            Command::DefaultSet { net } => self.default_set(*net),
            Command::DefaultClear => Ok(Change::DefaultBecomes { default: None }),
            Command::PermissionNetwork { net, permission } => {
                self.permission_set(*net, *permission)
            }
            Command::PermissionUser { uid, permission } => {
                self.user_permission(*uid, *permission)
            }
            Command::PermissionClear { uid } => Ok(Change::UserForgotten { uid: *uid }),
            Command::ProtectAllow { uid } => self.protect_allowed(*uid),
            Command::ProtectDeny { uid } => Ok(Change::ProtectDenied { uid: *uid }),
            Command::LockdownAdd { range } => self.lockdown_comes(*range),
            Command::LockdownRemove { range } => self.lockdown_goes(*range),
            Command::TetherAdd { input, out } => self.pair_comes(input, out),
            Command::TetherRemove { input, out } => self.pair_goes(input, out),
        }
    }

    /// What the command changes, or the code of the first reason against it.
    pub(crate) fn accept<'a>(&self, command: &'a Command) -> Result<Change<'a>, Code>
        requires good { IsGood (view_of self.now) }
        requires tallied { IsTallied self.now }
        ensures code { result_err result ≡ step.refusal (view_of self.now) command.now }
        ensures makes { IfOk result (Makes (view_of self.now) command.now) }
    {
        let change = match self.change_of(command) {
            Ok(change) => change,
            Err(code) => return Err(code),
        };
        if self.has_too_many_rules(&change) {
            return Err(Code::NoSpace);
        }
        Ok(change)
    }
}

impl State {
    /// What the command changes, or the code of the first reason against it.
    pub fn accept<'a>(&self, command: &'a Command) -> Result<Change<'a>, Code>
        ensures code { result_err result ≡ step.refusal self.now command.now }
        ensures makes { IfOk result (Makes self.now command.now) }
        ensures good { IfOk result (λ change. IsGood (turned change self.now)) }
    {
        command.fits_types();
        self.parts.accept(command)
    }
}
