ghost use Rattle.std.specs.Prelude.{◌≡◌, ◌≤◌, ◌<◌, ◌++◌, ◌∷◌, [], filter, not, length, if◌then◌else◌, OnOk, IfOk};
ghost use Rattle.std.specs.List.{list_any, find};
ghost use Rattle.std.specs.Option.{option_map};
ghost use Rattle.policy_state.specs.Step.{is_of_user, is_user, with_permission_of};

use fwmark::Permission;
use indexmap::{IndexMap, IndexSet};
use std::alloc::{AllocError, Global};
use std::marker::Model;
use uid_ranges::Uid;

/// The permission that was set for a user.
#[derive(Clone, Copy, Debug, PartialEq, Eq)]
pub struct UserPermission {
    pub uid: Uid,
    pub permission: Permission,
}

/// The permissions that were set, in the order in which users got their first one, found by user without a search. A permission
/// is set in room that was made before, so that it can't fail.
#[derive(Drop)]
pub(crate) struct PermissionTable {
    by_uid: IndexMap<Uid, Permission>,
}

impl Model for PermissionTable {
    ghost use Rattle.indexmap.specs.IndexMap.{spare};
    ghost use Rattle.policy_state.specs.UserLists.{PermissionsView, permissions_in};

    ghost Value = { PermissionsView };

    ghost view = { λ t. record {
      permissions = permissions_in t.by_uid.entries;
      room = spare t.by_uid;
    } };
}

impl PermissionTable {
    /// No permissions. It takes no memory.
    pub(crate) fn empty(alloc: Global) -> PermissionTable
        ensures { result.permissions ≡ [] }
    {
        PermissionTable {
            by_uid: IndexMap::new(alloc),
        }
    }

    /// The same permissions.
    pub(crate) fn copy(&self) -> Result<PermissionTable, AllocError>
        ensures { IfOk result (λ table. table.permissions ≡ self.now.permissions) }
    {
        Ok(PermissionTable {
            by_uid: self.by_uid.clone()?,
        })
    }

    /// For how many users a permission is set.
    pub(crate) fn len(&self) -> usize
        ensures { result ≡ length self.now.permissions }
    {
        self.by_uid.len()
    }

    /// The permission that is set for the user.
    pub(crate) fn get(&self, uid: Uid) -> Option<Permission>
        ensures { result ≡
            option_map (λ p. p.permission) (find (is_of_user uid) self.now.permissions) }
    {
        self.by_uid.get(&uid).copied()
    }

    /// Makes room for one user more. The permissions stay.
    pub(crate) fn reserve(&mut self) -> Result<(), AllocError>
        ensures permissions { self.new.permissions ≡ self.old.permissions }
        ensures room { OnOk result (0 < self.new.room) }
    {
        self.by_uid.reserve(1)
    }

    /// Sets the user's permission in the place of an earlier one, or as the last, in the room that is there.
    pub(crate) fn set(&mut self, uid: Uid, permission: Permission)
        requires { 0 < self.old.room }
        ensures { self.new.permissions ≡ with_permission_of uid permission self.old.permissions }
    {
        let _ = self.by_uid.insert(uid, permission);
    }

    /// Takes the user's permission out. The others keep their order.
    pub(crate) fn forget(&mut self, uid: Uid)
        ensures { self.new.permissions ≡
            filter (λ p. not (is_of_user uid p)) self.old.permissions }
    {
        self.by_uid.retain(|other, _| *other != uid);
    }
}

/// The users who may protect their sockets from VPNs, in the order of their addition, found without a search. A user is added in
/// room that was made before, so that the addition can't fail.
#[derive(Drop)]
pub(crate) struct ProtectList {
    users: IndexSet<Uid>,
}

impl Model for ProtectList {
    ghost use Rattle.indexmap.specs.IndexSet.{spare};
    ghost use Rattle.policy_state.specs.UserLists.{ProtectView};

    ghost Value = { ProtectView };

    ghost view = { λ l. record {
      users = l.users.keys;
      room = spare l.users;
    } };
}

impl ProtectList {
    /// No users. It takes no memory.
    pub(crate) fn empty(alloc: Global) -> ProtectList
        ensures { result.users ≡ [] }
    {
        ProtectList {
            users: IndexSet::new(alloc),
        }
    }

    /// The same users.
    pub(crate) fn copy(&self) -> Result<ProtectList, AllocError>
        ensures { IfOk result (λ list. list.users ≡ self.now.users) }
    {
        Ok(ProtectList {
            users: self.users.clone()?,
        })
    }

    pub(crate) fn len(&self) -> usize
        ensures { result ≡ length self.now.users }
    {
        self.users.len()
    }

    /// Whether the user is one of them.
    pub(crate) fn has(&self, uid: Uid) -> bool
        ensures { result ≡ list_any (is_user uid) self.now.users }
    {
        self.users.contains(&uid)
    }

    /// Makes room for one user more. The users stay.
    pub(crate) fn reserve(&mut self) -> Result<(), AllocError>
        ensures users { self.new.users ≡ self.old.users }
        ensures room { OnOk result (0 < self.new.room) }
    {
        self.users.reserve(1)
    }

    /// Adds the user as the last, unless it is one of them, in the room that is there.
    pub(crate) fn add(&mut self, uid: Uid)
        requires { 0 < self.old.room }
        ensures { self.new.users ≡ (if list_any (is_user uid) self.old.users then
            self.old.users else self.old.users ++ uid ∷ []) }
    {
        let _ = self.users.insert(uid);
    }

    /// Takes the user out. The others keep their order.
    pub(crate) fn remove(&mut self, uid: Uid)
        ensures { self.new.users ≡ filter (λ u. not (is_user uid u)) self.old.users }
    {
        self.users.retain(|other| *other != uid);
    }
}
