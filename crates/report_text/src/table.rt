ghost use Rattle.number_text.specs.Appends.{Appends};
ghost use Rattle.kernel_model.specs.State.{routes_of};
ghost use Rattle.kernel_model.specs.View.{state_of};
ghost use Rattle.report_text.specs.RouteTexts.{route_line, route_text, routes_text, way_text};
ghost use Rattle.prefixes.specs.declared.route.Out.TheVariants as outs;
ghost use Rattle.std.specs.Prelude.{◌≡◌, ◌<◌, Some, flat_map, length, slice_get};

use crate::link::write_link;
use crate::verdict::write_gateway;
use addr_text::write_prefix;
use kernel_model::Kernel;
use number_text::{append_byte, append_bytes, write_decimal};
use policy_state::State;
use prefixes::{Addr, Out, Prefix, Route};
use std::alloc::AllocError;

fn write_device(
    state: &State,
    prefix: Prefix,
    link: u16,
    gateway: Option<Addr>,
    out: &mut Vec<u8>,
) -> Result<(), AllocError>
    ensures { Appends out.old out.new result (way_text state.now prefix (outs.Dev link gateway)) }
{
    write_prefix(prefix, out)?;
    write_gateway(gateway, out)?;
    append_bytes(b" dev ", out)?;
    write_link(state, link, out)
}

/// Appends a route, without spaces before it and without a line feed.
pub fn write_route(state: &State, route: &Route, out: &mut Vec<u8>) -> Result<(), AllocError>
    ensures { Appends out.old out.new result (route_text state.now route.now) }
{
    match route.out {
        Out::Dev { link, gateway } => write_device(state, route.prefix, link, gateway, out),
        Out::Unreachable => {
            append_bytes(b"unreachable ", out)?;
            write_prefix(route.prefix, out)
        }
        Out::Throw => {
            append_bytes(b"throw ", out)?;
            write_prefix(route.prefix, out)
        }
    }
}

fn write_line(state: &State, route: &Route, out: &mut Vec<u8>) -> Result<(), AllocError>
    ensures { Appends out.old out.new result (route_line state.now route.now) }
{
    append_bytes(b"  ", out)?;
    write_route(state, route, out)?;
    append_byte(b'\n', out)
}

fn route_at<K: Kernel>(kernel: &K, table: u32, place: u64) -> Route
    requires { place < length (routes_of table (state_of (K.seen kernel.now)).tables) }
    ensures { slice_get (routes_of table (state_of (K.seen kernel.now)).tables) place ≡
        Some result }
{
    kernel.route_at(table, place).unwrap()
}

fn write_lines<K: Kernel>(
    kernel: &K,
    state: &State,
    table: u32,
    out: &mut Vec<u8>,
) -> Result<(), AllocError>
    ensures { Appends out.old out.new result
        (flat_map (route_line state.now) (routes_of table (state_of (K.seen kernel.now)).tables)) }
{
    for place in 0..kernel.route_count(table) {
        let route = route_at(kernel, table, place);
        write_line(state, &route, out)?;
    }
    Ok(())
}

/// Appends how many routes a table has, and each route in the order of their addition.
pub fn write_table<K: Kernel>(
    kernel: &K,
    state: &State,
    table: u32,
    out: &mut Vec<u8>,
) -> Result<(), AllocError>
    ensures { Appends out.old out.new result
        (routes_text state.now (routes_of table (state_of (K.seen kernel.now)).tables)) }
{
    write_decimal(kernel.route_count(table), out)?;
    append_bytes(b" routes\n", out)?;
    write_lines(kernel, state, table, out)
}
