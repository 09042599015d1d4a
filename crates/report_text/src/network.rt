ghost use Rattle.number_text.specs.Appends.{Appends};
ghost use Rattle.policy_state.specs.Rows.{is_default};
ghost use Rattle.report_text.specs.Lists.{comma};
ghost use Rattle.report_text.specs.Links.{link_text};
ghost use Rattle.report_text.specs.NetworkTexts.{
  apps_text,
  default_text,
  kind_text,
  names_text,
  network_line,
  network_text,
  networks_text,
  rank_text,
  ranked_text,
  ranges_text,
  security_text,
};
ghost use Rattle.word_text.specs.Grammar.{permission_text};
ghost use Rattle.network_store.specs.Store.{nets_of};
ghost use Rattle.network_store.specs.Stored as stored;
ghost use Rattle.std.specs.Fmt.{decimal};
ghost use Rattle.std.specs.List.{join_with_byte};
ghost use Rattle.std.specs.Prelude.{◌≡◌, ◌<◌, ◌++◌, ◌∷◌, [], Some, codes, flat_map, length, map, slice_get};

use crate::link::write_link;
use fwmark::Permission;
use network_store::{StoredKind, StoredNetwork, StoredNetworks};
use number_text::{append_byte, append_bytes, write_decimal};
use policy_state::State;
use std::alloc::AllocError;
use uid_ranges::Ranked;
use word_text::{write_permission, write_range};

fn write_link_and_comma(state: &State, link: u16, out: &mut Vec<u8>) -> Result<(), AllocError>
    ensures { Appends out.old out.new result (link_text state.now link ++ comma ∷ []) }
{
    write_link(state, link, out)?;
    append_byte(b',', out)
}

// Appends the names of links with a comma between each two.
fn write_joined_names(state: &State, links: &[u16], out: &mut Vec<u8>) -> Result<(), AllocError>
    ensures { Appends out.old out.new result
        (join_with_byte comma (map (link_text state.now) links.now)) }
{
    match links {
        [] => Ok(()),
        [link] => write_link(state, *link, out),
        [link, more @ ..] => {
            write_link_and_comma(state, *link, out)?;
            write_joined_names(state, more, out)
        }
    }
}

fn write_names(state: &State, links: &[u16], out: &mut Vec<u8>) -> Result<(), AllocError>
    ensures { Appends out.old out.new result (names_text state.now links.now) }
{
    if links.is_empty() {
        return append_byte(b'-', out);
    }
    write_joined_names(state, links, out)
}

fn write_rank(rank: u8, out: &mut Vec<u8>) -> Result<(), AllocError>
    ensures { Appends out.old out.new result (rank_text rank) }
{
    if rank == 0 {
        return Ok(());
    }
    append_byte(b'@', out)?;
    write_decimal(u64::from(rank), out)
}

fn write_ranked(range: Ranked, out: &mut Vec<u8>) -> Result<(), AllocError>
    ensures { Appends out.old out.new result (ranked_text range) }
{
    write_range(range.users, out)?;
    write_rank(range.rank, out)
}

fn write_ranked_and_comma(range: Ranked, out: &mut Vec<u8>) -> Result<(), AllocError>
    ensures { Appends out.old out.new result (ranked_text range ++ comma ∷ []) }
{
    write_ranked(range, out)?;
    append_byte(b',', out)
}

// Appends ranges with a comma between each two.
fn write_joined_ranges(ranges: &[Ranked], out: &mut Vec<u8>) -> Result<(), AllocError>
    ensures { Appends out.old out.new result
        (join_with_byte comma (map ranked_text ranges.now)) }
{
    match ranges {
        [] => Ok(()),
        [range] => write_ranked(*range, out),
        [range, more @ ..] => {
            write_ranked_and_comma(*range, out)?;
            write_joined_ranges(more, out)
        }
    }
}

fn write_ranges(ranges: &[Ranked], out: &mut Vec<u8>) -> Result<(), AllocError>
    ensures { Appends out.old out.new result (ranges_text ranges.now) }
{
    if ranges.is_empty() {
        return append_byte(b'-', out);
    }
    write_joined_ranges(ranges, out)
}

fn write_security(secure: bool, out: &mut Vec<u8>) -> Result<(), AllocError>
    ensures { Appends out.old out.new result (security_text secure) }
{
    if secure {
        append_bytes(b"secure", out)
    } else {
        append_bytes(b"bypassable", out)
    }
}

fn write_virtual(secure: bool, users: &[Ranked], out: &mut Vec<u8>) -> Result<(), AllocError>
    ensures { Appends out.old out.new result
        (codes "virtual " ++ security_text secure ++ codes " users " ++ ranges_text users.now) }
{
    append_bytes(b"virtual ", out)?;
    write_security(secure, out)?;
    append_bytes(b" users ", out)?;
    write_ranges(users, out)
}

fn write_default(is_default: bool, out: &mut Vec<u8>) -> Result<(), AllocError>
    ensures { Appends out.old out.new result (default_text is_default) }
{
    if is_default {
        append_bytes(b" default", out)
    } else {
        Ok(())
    }
}

fn write_apps(apps: &[Ranked], out: &mut Vec<u8>) -> Result<(), AllocError>
    ensures { Appends out.old out.new result (apps_text apps.now) }
{
    if apps.is_empty() {
        return Ok(());
    }
    append_bytes(b" apps ", out)?;
    write_ranges(apps, out)
}

fn write_physical(
    permission: Permission,
    is_default: bool,
    apps: &[Ranked],
    out: &mut Vec<u8>,
) -> Result<(), AllocError>
    ensures { Appends out.old out.new result (codes "physical " ++ permission_text permission
        ++ default_text is_default ++ apps_text apps.now) }
{
    append_bytes(b"physical ", out)?;
    write_permission(permission, out)?;
    write_default(is_default, out)?;
    write_apps(apps, out)
}

fn write_kind(kind: &StoredKind, is_default: bool, out: &mut Vec<u8>) -> Result<(), AllocError>
    ensures { Appends out.old out.new result (kind_text is_default (stored.kind_of kind.now)) }
{
    match kind {
        StoredKind::Local => append_bytes(b"local", out),
        StoredKind::Physical { permission, apps } => {
            write_physical(*permission, is_default, apps.as_slice(), out)
        }
        StoredKind::Virtual { secure, users } => write_virtual(*secure, users.as_slice(), out),
    }
}

fn is_default(state: &State, id: u16) -> bool
    ensures { result ≡ is_default state.now.default id }
{
    match state.default_net() {
        None => false,
        Some(default) => default == id,
    }
}

fn write_id_and_kind(
    state: &State,
    network: &StoredNetwork,
    out: &mut Vec<u8>,
) -> Result<(), AllocError>
    ensures { Appends out.old out.new result (decimal network.now.id ++ codes " "
        ++ kind_text (is_default state.now.default network.now.id) (stored.net_of network.now).kind) }
{
    write_decimal(u64::from(network.id), out)?;
    append_byte(b' ', out)?;
    write_kind(&network.kind, is_default(state, network.id), out)
}

/// Appends a network, without spaces before it and without a line feed.
pub fn write_network(
    state: &State,
    network: &StoredNetwork,
    out: &mut Vec<u8>,
) -> Result<(), AllocError>
    ensures { Appends out.old out.new result (network_text state.now (stored.net_of network.now)) }
{
    write_id_and_kind(state, network, out)?;
    append_bytes(b" interfaces ", out)?;
    write_names(state, network.interfaces.as_slice(), out)
}

fn write_line(state: &State, network: &StoredNetwork, out: &mut Vec<u8>) -> Result<(), AllocError>
    ensures { Appends out.old out.new result (network_line state.now (stored.net_of network.now)) }
{
    append_bytes(b"  ", out)?;
    write_network(state, network, out)?;
    append_byte(b'\n', out)
}

fn network_at(networks: &StoredNetworks, place: usize) -> &StoredNetwork
    requires { place < length (nets_of networks.now) }
    ensures { slice_get (nets_of networks.now) place ≡ Some (stored.net_of result.now) }
{
    networks.at(place).unwrap()
}

fn write_lines(
    state: &State,
    networks: &StoredNetworks,
    out: &mut Vec<u8>,
) -> Result<(), AllocError>
    ensures { Appends out.old out.new result
        (flat_map (network_line state.now) (nets_of networks.now)) }
{
    for place in 0..networks.len() {
        write_line(state, network_at(networks, place), out)?;
    }
    Ok(())
}

/// Appends how many networks there are, and each network in the order of their creation.
pub fn write_networks(state: &State, out: &mut Vec<u8>) -> Result<(), AllocError>
    ensures { Appends out.old out.new result (networks_text state.now) }
{
    let networks = state.networks();
    write_decimal(networks.len() as u64, out)?;
    append_bytes(b" networks\n", out)?;
    write_lines(state, networks, out)
}
