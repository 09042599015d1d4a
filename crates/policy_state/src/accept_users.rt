// Whether a user's permission or protection may change.
ghost use Rattle.std.specs.Prelude.{◌≡◌, IfOk};
ghost use Rattle.std.specs.Result.{result_err};
ghost use Rattle.fwmark.specs.declared.permission.Permission.{Permission};
ghost use Rattle.commands.specs.declared.command.Command.TheVariants as command;
ghost use Rattle.policy_state.specs.Accept.{Makes};
ghost use Rattle.policy_state.specs.Parts.{view_of};
ghost use Rattle.policy_state.specs.Step as step;

use crate::change::Change;
use crate::parts::Parts;
use fwmark::Permission;
use net_names::Code;
use uid_ranges::Uid;

/// The most users whose permission was set, and the most who may protect their sockets.
const MOST_USERS: usize = 10000;

impl Parts {
    // Whether a permission was set for the user.
    fn has_permission(&self, uid: Uid) -> bool
        ensures { result ≡ step.has_permission (view_of self.now) uid }
    {
        self.permissions.get(uid).is_some()
    }

    pub(crate) fn user_permission(
        &self,
        uid: Uid,
        permission: Permission,
    ) -> Result<Change<'static>, Code>
        ensures code { result_err result ≡ step.first_that_holds
            (step.reasons (view_of self.now) (command.PermissionUser uid permission)) }
        ensures makes { IfOk result
            (Makes (view_of self.now) (command.PermissionUser uid permission)) }
    {
        if !self.has_permission(uid) && self.permissions.len() >= MOST_USERS {
            return Err(Code::NoSpace);
        }
        Ok(Change::UserPermission { uid, permission })
    }

    pub(crate) fn protect_allowed(&self, uid: Uid) -> Result<Change<'static>, Code>
        ensures code { result_err result ≡ step.first_that_holds
            (step.reasons (view_of self.now) (command.ProtectAllow uid)) }
        ensures makes { IfOk result (Makes (view_of self.now) (command.ProtectAllow uid)) }
    {
        if !self.protectable.has(uid) && self.protectable.len() >= MOST_USERS {
            return Err(Code::NoSpace);
        }
        Ok(Change::ProtectAllowed { uid })
    }
}
