ghost use Rattle.std.specs.Prelude.{◌≡◌};
ghost use Rattle.word_text.specs.Kinds.{kinds_in};
ghost use Rattle.script_reader.specs.declared.form.TheConstants.{FORMS};

use word_text::Kind;

/// The forms of lines.
#[derive(Clone, Copy)]
pub enum Form {
    Packet,
    PacketOn,
    Trace,
    Passed,
    RouteAdd,
    RouteAddVia,
    RouteAddUnreachable,
    RouteAddThrow,
    RouteRemove,
    RouteRemoveSpecial,
    LockdownAdd,
    LockdownRemove,
    UsersAdd,
    UsersAddRank,
    UsersRemove,
    AppAdd,
    AppRemove,
    InterfaceAdd,
    InterfaceRemove,
    DefaultSet,
    DefaultClear,
    PermissionNetwork,
    PermissionUser,
    PermissionClear,
    SocketOpen,
    SocketClose,
    SocketBind,
    SocketUnbind,
    SocketConnect,
    SocketAccept,
    SocketSelect,
    SocketProtect,
    SocketSelectFor,
    Access,
    LinkAdd,
    LinkRemove,
    CreatePhysical,
    CreateSecure,
    CreateBypassable,
    Destroy,
    ProtectAllow,
    ProtectDeny,
    TetherAdd,
    TetherRemove,
    WatchOff,
    Watch,
    ShowRules4,
    ShowRules6,
    ShowTable,
    ShowNetworks,
    ShowSockets,
}

/// A form, and how many of its first words are those of the form before it.
#[derive(Clone, Copy)]
pub struct Entry {
    pub form: Form,
    pub shared: usize,
}

/// All forms, in the order in which they are tried.
#[rattlefmt::skip]
pub const FORMS: [Entry; 51] = [
    Entry { form: Form::Packet, shared: 0 },
    Entry { form: Form::PacketOn, shared: 4 },
    Entry { form: Form::Trace, shared: 0 },
    Entry { form: Form::Passed, shared: 0 },
    Entry { form: Form::RouteAdd, shared: 0 },
    Entry { form: Form::RouteAddVia, shared: 5 },
    Entry { form: Form::RouteAddUnreachable, shared: 5 },
    Entry { form: Form::RouteAddThrow, shared: 5 },
    Entry { form: Form::RouteRemove, shared: 1 },
    Entry { form: Form::RouteRemoveSpecial, shared: 5 },
    Entry { form: Form::LockdownAdd, shared: 0 },
    Entry { form: Form::LockdownRemove, shared: 1 },
    Entry { form: Form::UsersAdd, shared: 0 },
    Entry { form: Form::UsersAddRank, shared: 3 },
    Entry { form: Form::UsersRemove, shared: 1 },
    Entry { form: Form::AppAdd, shared: 0 },
    Entry { form: Form::AppRemove, shared: 1 },
    Entry { form: Form::InterfaceAdd, shared: 0 },
    Entry { form: Form::InterfaceRemove, shared: 1 },
    Entry { form: Form::DefaultSet, shared: 0 },
    Entry { form: Form::DefaultClear, shared: 1 },
    Entry { form: Form::PermissionNetwork, shared: 0 },
    Entry { form: Form::PermissionUser, shared: 1 },
    Entry { form: Form::PermissionClear, shared: 1 },
    Entry { form: Form::SocketOpen, shared: 0 },
    Entry { form: Form::SocketClose, shared: 1 },
    Entry { form: Form::SocketBind, shared: 1 },
    Entry { form: Form::SocketUnbind, shared: 1 },
    Entry { form: Form::SocketConnect, shared: 1 },
    Entry { form: Form::SocketAccept, shared: 1 },
    Entry { form: Form::SocketSelect, shared: 1 },
    Entry { form: Form::SocketProtect, shared: 1 },
    Entry { form: Form::SocketSelectFor, shared: 1 },
    Entry { form: Form::Access, shared: 0 },
    Entry { form: Form::LinkAdd, shared: 0 },
    Entry { form: Form::LinkRemove, shared: 1 },
    Entry { form: Form::CreatePhysical, shared: 0 },
    Entry { form: Form::CreateSecure, shared: 3 },
    Entry { form: Form::CreateBypassable, shared: 4 },
    Entry { form: Form::Destroy, shared: 1 },
    Entry { form: Form::ProtectAllow, shared: 0 },
    Entry { form: Form::ProtectDeny, shared: 1 },
    Entry { form: Form::TetherAdd, shared: 0 },
    Entry { form: Form::TetherRemove, shared: 1 },
    Entry { form: Form::WatchOff, shared: 0 },
    Entry { form: Form::Watch, shared: 1 },
    Entry { form: Form::ShowRules4, shared: 0 },
    Entry { form: Form::ShowRules6, shared: 2 },
    Entry { form: Form::ShowTable, shared: 1 },
    Entry { form: Form::ShowNetworks, shared: 1 },
    Entry { form: Form::ShowSockets, shared: 1 },
];

/// The entries of all forms.
pub fn entries() -> &'static [Entry]
    ensures { result.now ≡ FORMS }
{
    &FORMS
}

impl Form {
    ghost use Rattle.script_reader.specs.Rows.{kinds_of};

    /// The words of this form.
    #[rattlefmt::skip]
    pub fn kinds(self) -> &'static [Kind]
        ensures { kinds_in result.now ≡ kinds_of self }
    {
        use word_text::Kind::{Addr, Index, Mark, Name, Net, Other, Permission, Prefix, Range, Ranges, Rank, Table, Uid, Word};
        match self {
            Form::Packet => &[Word(b"packet"), Uid, Mark, Addr],
            Form::PacketOn => &[Word(b"packet"), Uid, Mark, Addr, Word(b"on"), Name],
            Form::Trace => &[Word(b"trace"), Name, Addr],
            Form::Passed => &[Word(b"passed"), Name, Addr],
            Form::RouteAdd => &[Word(b"route"), Word(b"add"), Net, Name, Prefix],
            Form::RouteAddVia => &[Word(b"route"), Word(b"add"), Net, Name, Prefix, Word(b"via"), Addr],
            Form::RouteAddUnreachable => &[Word(b"route"), Word(b"add"), Net, Name, Prefix, Word(b"unreachable")],
            Form::RouteAddThrow => &[Word(b"route"), Word(b"add"), Net, Name, Prefix, Word(b"throw")],
            Form::RouteRemove => &[Word(b"route"), Word(b"remove"), Net, Name, Prefix],
            Form::RouteRemoveSpecial => &[Word(b"route"), Word(b"remove"), Net, Name, Prefix, Word(b"special")],
            Form::LockdownAdd => &[Word(b"lockdown"), Word(b"add"), Range],
            Form::LockdownRemove => &[Word(b"lockdown"), Word(b"remove"), Range],
            Form::UsersAdd => &[Word(b"users"), Word(b"add"), Net, Ranges],
            Form::UsersAddRank => &[Word(b"users"), Word(b"add"), Net, Word(b"rank"), Rank, Ranges],
            Form::UsersRemove => &[Word(b"users"), Word(b"remove"), Net, Ranges],
            Form::AppAdd => &[Word(b"app"), Word(b"add"), Net, Rank, Ranges],
            Form::AppRemove => &[Word(b"app"), Word(b"remove"), Net, Ranges],
            Form::InterfaceAdd => &[Word(b"interface"), Word(b"add"), Net, Name],
            Form::InterfaceRemove => &[Word(b"interface"), Word(b"remove"), Net, Name],
            Form::DefaultSet => &[Word(b"default"), Word(b"set"), Net],
            Form::DefaultClear => &[Word(b"default"), Word(b"clear")],
            Form::PermissionNetwork => &[Word(b"permission"), Word(b"network"), Net, Permission],
            Form::PermissionUser => &[Word(b"permission"), Word(b"user"), Uid, Permission],
            Form::PermissionClear => &[Word(b"permission"), Word(b"clear"), Uid],
            Form::SocketOpen => &[Word(b"socket"), Word(b"open"), Name, Uid],
            Form::SocketClose => &[Word(b"socket"), Word(b"close"), Name],
            Form::SocketBind => &[Word(b"socket"), Word(b"bind"), Name, Other],
            Form::SocketUnbind => &[Word(b"socket"), Word(b"unbind"), Name],
            Form::SocketConnect => &[Word(b"socket"), Word(b"connect"), Name],
            Form::SocketAccept => &[Word(b"socket"), Word(b"accept"), Name, Uid, Other],
            Form::SocketSelect => &[Word(b"socket"), Word(b"select"), Name, Net],
            Form::SocketProtect => &[Word(b"socket"), Word(b"protect"), Name],
            Form::SocketSelectFor => &[Word(b"socket"), Word(b"selectfor"), Name, Uid],
            Form::Access => &[Word(b"access"), Uid, Net],
            Form::LinkAdd => &[Word(b"link"), Word(b"add"), Name, Index],
            Form::LinkRemove => &[Word(b"link"), Word(b"remove"), Name],
            Form::CreatePhysical => &[Word(b"network"), Word(b"create"), Net, Word(b"physical"), Permission],
            Form::CreateSecure => &[Word(b"network"), Word(b"create"), Net, Word(b"virtual"), Word(b"secure")],
            Form::CreateBypassable => &[Word(b"network"), Word(b"create"), Net, Word(b"virtual"), Word(b"bypassable")],
            Form::Destroy => &[Word(b"network"), Word(b"destroy"), Net],
            Form::ProtectAllow => &[Word(b"protect"), Word(b"allow"), Uid],
            Form::ProtectDeny => &[Word(b"protect"), Word(b"deny"), Uid],
            Form::TetherAdd => &[Word(b"tether"), Word(b"add"), Name, Other],
            Form::TetherRemove => &[Word(b"tether"), Word(b"remove"), Name, Other],
            Form::WatchOff => &[Word(b"watch"), Word(b"off")],
            Form::Watch => &[Word(b"watch"), Name, Addr],
            Form::ShowRules4 => &[Word(b"show"), Word(b"rules"), Word(b"4")],
            Form::ShowRules6 => &[Word(b"show"), Word(b"rules"), Word(b"6")],
            Form::ShowTable => &[Word(b"show"), Word(b"table"), Table],
            Form::ShowNetworks => &[Word(b"show"), Word(b"networks")],
            Form::ShowSockets => &[Word(b"show"), Word(b"sockets")],
        }
    }
}
