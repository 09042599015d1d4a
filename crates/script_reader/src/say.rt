ghost use Rattle.std.specs.Prelude.{◌≡◌, Some, if◌then◌else◌};
ghost use Rattle.script_reader.specs.declared.form.Form.TheVariants as form;
ghost use Rattle.commands.specs.declared.command.Command.TheVariants as command;
ghost use Rattle.script_reader.specs.declared.line.Line.TheVariants as line;
ghost use Rattle.script_reader.specs.Parts.{IsPartsOf};
ghost use Rattle.script_reader.specs.Rows.{says};

use crate::form::Form;
use crate::line::{Line, ShowLine, SocketLine, TraceLine};
use commands::{Command, Ranges, Way};
use net_names::Name;
use prefixes::{Family, Prefix};
use uid_ranges::UidRange;
use word_text::Values;

/// The line of this form with these values and ranges.
#[rattlefmt::skip]
pub fn say(form: Form, v: &Values, ranges: Ranges) -> Line
    ensures { result ≡ says form v.now ranges }
{
    match form {
        Form::Packet => Line::Trace(TraceLine::Made { uid: v.uid, mark: v.mark, dest: v.addr, link: None }),
        Form::PacketOn => Line::Trace(TraceLine::Made { uid: v.uid, mark: v.mark, dest: v.addr, link: Some(v.name) }),
        Form::Trace => Line::Trace(TraceLine::Trace { name: v.name, dest: v.addr }),
        Form::Passed => Line::Trace(TraceLine::Passed { link: v.name, dest: v.addr }),
        Form::RouteAdd => Line::Control(Command::RouteAdd { net: v.net, name: v.name, prefix: v.prefix, way: Way::Direct }),
        Form::RouteAddVia => Line::Control(Command::RouteAdd { net: v.net, name: v.name, prefix: v.prefix, way: Way::Via(v.addr) }),
        Form::RouteAddUnreachable => Line::Control(Command::RouteAdd { net: v.net, name: v.name, prefix: v.prefix, way: Way::Unreachable }),
        Form::RouteAddThrow => Line::Control(Command::RouteAdd { net: v.net, name: v.name, prefix: v.prefix, way: Way::Throw }),
        Form::RouteRemove => Line::Control(Command::RouteRemove { net: v.net, name: v.name, prefix: v.prefix, special: false }),
        Form::RouteRemoveSpecial => Line::Control(Command::RouteRemove { net: v.net, name: v.name, prefix: v.prefix, special: true }),
        Form::LockdownAdd => Line::Control(Command::LockdownAdd { range: v.range }),
        Form::LockdownRemove => Line::Control(Command::LockdownRemove { range: v.range }),
        Form::UsersAdd => Line::Control(Command::UsersAdd { net: v.net, rank: 0, ranges }),
        Form::UsersAddRank => Line::Control(Command::UsersAdd { net: v.net, rank: v.rank, ranges }),
        Form::UsersRemove => Line::Control(Command::UsersRemove { net: v.net, ranges }),
        Form::AppAdd => Line::Control(Command::AppAdd { net: v.net, rank: v.rank, ranges }),
        Form::AppRemove => Line::Control(Command::AppRemove { net: v.net, ranges }),
        Form::InterfaceAdd => Line::Control(Command::InterfaceAdd { net: v.net, name: v.name }),
        Form::InterfaceRemove => Line::Control(Command::InterfaceRemove { net: v.net, name: v.name }),
        Form::DefaultSet => Line::Control(Command::DefaultSet { net: v.net }),
        Form::DefaultClear => Line::Control(Command::DefaultClear),
        Form::PermissionNetwork => Line::Control(Command::PermissionNetwork { net: v.net, permission: v.permission }),
        Form::PermissionUser => Line::Control(Command::PermissionUser { uid: v.uid, permission: v.permission }),
        Form::PermissionClear => Line::Control(Command::PermissionClear { uid: v.uid }),
        Form::SocketOpen => Line::Socket(SocketLine::Open { name: v.name, uid: v.uid }),
        Form::SocketClose => Line::Socket(SocketLine::Close { name: v.name }),
        Form::SocketBind => Line::Socket(SocketLine::Bind { name: v.name, link: v.other }),
        Form::SocketUnbind => Line::Socket(SocketLine::Unbind { name: v.name }),
        Form::SocketConnect => Line::Socket(SocketLine::Connect { name: v.name }),
        Form::SocketAccept => Line::Socket(SocketLine::Accept { name: v.name, uid: v.uid, link: v.other }),
        Form::SocketSelect => Line::Socket(SocketLine::Select { name: v.name, net: v.net }),
        Form::SocketProtect => Line::Socket(SocketLine::Protect { name: v.name }),
        Form::SocketSelectFor => Line::Socket(SocketLine::SelectFor { name: v.name, user: v.uid }),
        Form::Access => Line::Socket(SocketLine::Access { uid: v.uid, net: v.net }),
        Form::LinkAdd => Line::Control(Command::LinkAdd { name: v.name, index: v.index }),
        Form::LinkRemove => Line::Control(Command::LinkRemove { name: v.name }),
        Form::CreatePhysical => Line::Control(Command::CreatePhysical { net: v.net, permission: v.permission }),
        Form::CreateSecure => Line::Control(Command::CreateVirtual { net: v.net, secure: true }),
        Form::CreateBypassable => Line::Control(Command::CreateVirtual { net: v.net, secure: false }),
        Form::Destroy => Line::Control(Command::Destroy { net: v.net }),
        Form::ProtectAllow => Line::Control(Command::ProtectAllow { uid: v.uid }),
        Form::ProtectDeny => Line::Control(Command::ProtectDeny { uid: v.uid }),
        Form::TetherAdd => Line::Control(Command::TetherAdd { input: v.name, out: v.other }),
        Form::TetherRemove => Line::Control(Command::TetherRemove { input: v.name, out: v.other }),
        Form::WatchOff => Line::Trace(TraceLine::WatchOff),
        Form::Watch => Line::Trace(TraceLine::Watch { name: v.name, dest: v.addr }),
        Form::ShowRules4 => Line::Show(ShowLine::Rules { family: Family::V4 }),
        Form::ShowRules6 => Line::Show(ShowLine::Rules { family: Family::V6 }),
        Form::ShowTable => Line::Show(ShowLine::Table { number: v.table }),
        Form::ShowNetworks => Line::Show(ShowLine::Networks),
        Form::ShowSockets => Line::Show(ShowLine::Sockets),
    }
}

// The form of a line that gives a VPN users: a rank of 0 isn't written.
#[rattlefmt::skip]
fn users_parts(net: u16, rank: u8, ranges: &[UidRange]) -> (Form, Values, &[UidRange])
    ensures { IsPartsOf (line.Control (command.UsersAdd net rank ranges.now)) (Some result) }
{
    let none = Values::nothing();
    if rank == 0 {
        (Form::UsersAdd, Values { net, ..none }, ranges)
    } else {
        (Form::UsersAddRank, Values { net, rank, ..none }, ranges)
    }
}

// The form and the values of a line that traces packets.
#[rattlefmt::skip]
fn trace_parts(traced: &TraceLine) -> (Form, Values, &[UidRange])
    ensures { IsPartsOf (line.Trace traced.now) (Some result) }
{
    let none = Values::nothing();
    match traced {
        TraceLine::Made { uid, mark, dest, link: None } => (Form::Packet, Values { uid: *uid, mark: *mark, addr: *dest, ..none }, &[]),
        TraceLine::Made { uid, mark, dest, link: Some(link) } => (Form::PacketOn, Values { uid: *uid, mark: *mark, addr: *dest, name: *link, ..none }, &[]),
        TraceLine::Trace { name, dest } => (Form::Trace, Values { name: *name, addr: *dest, ..none }, &[]),
        TraceLine::Passed { link, dest } => (Form::Passed, Values { name: *link, addr: *dest, ..none }, &[]),
        TraceLine::WatchOff => (Form::WatchOff, none, &[]),
        TraceLine::Watch { name, dest } => (Form::Watch, Values { name: *name, addr: *dest, ..none }, &[]),
    }
}

// The form and the values of a route that comes.
#[rattlefmt::skip]
fn route_parts(net: u16, name: Name, prefix: Prefix, way: Way) -> (Form, Values, &'static [UidRange])
    ensures { IsPartsOf (line.Control (command.RouteAdd net name prefix way)) (Some result) }
{
    let direct = Values { net, name, prefix, ..Values::nothing() };
    match way {
        Way::Direct => (Form::RouteAdd, direct, &[]),
        Way::Via(addr) => (Form::RouteAddVia, Values { addr, ..direct }, &[]),
        Way::Unreachable => (Form::RouteAddUnreachable, direct, &[]),
        Way::Throw => (Form::RouteAddThrow, direct, &[]),
    }
}

// The form of a route that goes.
fn route_removal(special: bool) -> Form
    ensures { result ≡ (if special then form.RouteRemoveSpecial else form.RouteRemove) }
{
    if special {
        Form::RouteRemoveSpecial
    } else {
        Form::RouteRemove
    }
}

// The form of a VPN that comes.
fn vpn_creation(secure: bool) -> Form
    ensures { result ≡ (if secure then form.CreateSecure else form.CreateBypassable) }
{
    if secure {
        Form::CreateSecure
    } else {
        Form::CreateBypassable
    }
}

// The form and the values of a command.
#[rattlefmt::skip]
fn command_parts(asked: &Command) -> (Form, Values, &[UidRange])
    ensures { IsPartsOf (line.Control asked.now) (Some result) }
{
    let none = Values::nothing();
    match asked {
        Command::RouteAdd { net, name, prefix, way } => route_parts(*net, *name, *prefix, *way),
        Command::RouteRemove { net, name, prefix, special } => (route_removal(*special), Values { net: *net, name: *name, prefix: *prefix, ..none }, &[]),
        Command::CreateVirtual { net, secure } => (vpn_creation(*secure), Values { net: *net, ..none }, &[]),
        Command::LockdownAdd { range } => (Form::LockdownAdd, Values { range: *range, ..none }, &[]),
        Command::LockdownRemove { range } => (Form::LockdownRemove, Values { range: *range, ..none }, &[]),
        Command::UsersAdd { net, rank, ranges } => users_parts(*net, *rank, ranges.as_slice()),
        Command::UsersRemove { net, ranges } => (Form::UsersRemove, Values { net: *net, ..none }, ranges.as_slice()),
        Command::AppAdd { net, rank, ranges } => (Form::AppAdd, Values { net: *net, rank: *rank, ..none }, ranges.as_slice()),
        Command::AppRemove { net, ranges } => (Form::AppRemove, Values { net: *net, ..none }, ranges.as_slice()),
        Command::InterfaceAdd { net, name } => (Form::InterfaceAdd, Values { net: *net, name: *name, ..none }, &[]),
        Command::InterfaceRemove { net, name } => (Form::InterfaceRemove, Values { net: *net, name: *name, ..none }, &[]),
        Command::DefaultSet { net } => (Form::DefaultSet, Values { net: *net, ..none }, &[]),
        Command::DefaultClear => (Form::DefaultClear, none, &[]),
        Command::PermissionNetwork { net, permission } => (Form::PermissionNetwork, Values { net: *net, permission: *permission, ..none }, &[]),
        Command::PermissionUser { uid, permission } => (Form::PermissionUser, Values { uid: *uid, permission: *permission, ..none }, &[]),
        Command::PermissionClear { uid } => (Form::PermissionClear, Values { uid: *uid, ..none }, &[]),
        Command::LinkAdd { name, index } => (Form::LinkAdd, Values { name: *name, index: *index, ..none }, &[]),
        Command::LinkRemove { name } => (Form::LinkRemove, Values { name: *name, ..none }, &[]),
        Command::CreatePhysical { net, permission } => (Form::CreatePhysical, Values { net: *net, permission: *permission, ..none }, &[]),
        Command::Destroy { net } => (Form::Destroy, Values { net: *net, ..none }, &[]),
        Command::ProtectAllow { uid } => (Form::ProtectAllow, Values { uid: *uid, ..none }, &[]),
        Command::ProtectDeny { uid } => (Form::ProtectDeny, Values { uid: *uid, ..none }, &[]),
        Command::TetherAdd { input, out } => (Form::TetherAdd, Values { name: *input, other: *out, ..none }, &[]),
        Command::TetherRemove { input, out } => (Form::TetherRemove, Values { name: *input, other: *out, ..none }, &[]),
    }
}

// The form and the values of a line about a socket.
#[rattlefmt::skip]
fn socket_parts(call: &SocketLine) -> (Form, Values, &[UidRange])
    ensures { IsPartsOf (line.Socket call.now) (Some result) }
{
    let none = Values::nothing();
    match call {
        SocketLine::Open { name, uid } => (Form::SocketOpen, Values { name: *name, uid: *uid, ..none }, &[]),
        SocketLine::Close { name } => (Form::SocketClose, Values { name: *name, ..none }, &[]),
        SocketLine::Bind { name, link } => (Form::SocketBind, Values { name: *name, other: *link, ..none }, &[]),
        SocketLine::Unbind { name } => (Form::SocketUnbind, Values { name: *name, ..none }, &[]),
        SocketLine::Connect { name } => (Form::SocketConnect, Values { name: *name, ..none }, &[]),
        SocketLine::Accept { name, uid, link } => (Form::SocketAccept, Values { name: *name, uid: *uid, other: *link, ..none }, &[]),
        SocketLine::Select { name, net } => (Form::SocketSelect, Values { name: *name, net: *net, ..none }, &[]),
        SocketLine::Protect { name } => (Form::SocketProtect, Values { name: *name, ..none }, &[]),
        SocketLine::SelectFor { name, user } => (Form::SocketSelectFor, Values { name: *name, uid: *user, ..none }, &[]),
        SocketLine::Access { uid, net } => (Form::Access, Values { uid: *uid, net: *net, ..none }, &[]),
    }
}

// The form and the values of a line that shows something.
#[rattlefmt::skip]
fn show_parts(shown: &ShowLine) -> (Form, Values, &[UidRange])
    ensures { IsPartsOf (line.Show shown.now) (Some result) }
{
    let none = Values::nothing();
    match shown {
        ShowLine::Rules { family: Family::V4 } => (Form::ShowRules4, none, &[]),
        ShowLine::Rules { family: Family::V6 } => (Form::ShowRules6, none, &[]),
        ShowLine::Table { number } => (Form::ShowTable, Values { table: *number, ..none }, &[]),
        ShowLine::Networks => (Form::ShowNetworks, none, &[]),
        ShowLine::Sockets => (Form::ShowSockets, none, &[]),
    }
}

/// The form of a line, its values and its ranges. A blank line has none.
pub fn parts(line: &Line) -> Option<(Form, Values, &[UidRange])>
    ensures { IsPartsOf line.now result }
{
    match line {
        Line::Blank => None,
        Line::Trace(traced) => Some(trace_parts(traced)),
        Line::Control(asked) => Some(command_parts(asked)),
        Line::Socket(call) => Some(socket_parts(call)),
        Line::Show(shown) => Some(show_parts(shown)),
    }
}
