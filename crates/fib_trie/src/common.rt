// The bits that two prefixes have in common.
ghost use Rattle.std.specs.Prelude.{◌≡◌, ◌≢◌, ◌<◌, ◌≤◌, ◌+◌, ◌/◌, ◌*◌, ◌^◌};
ghost use Rattle.prefixes.specs.Addr.{width_of, family_of, first_bits, IsPrefix};
ghost use Rattle.fib_search.specs.Node.{bit_at};
ghost use Rattle.fib_search.specs.Alike.{IsAlike};

use fib_search::bit_at;
use prefixes::{Addr, Prefix};

// How many first bits two addresses have in common, from a number of them that they have up to a limit.
pub(crate) fn common(one: Addr, other: Addr, from: u8, limit: u8) -> u8
    requires alike { IsAlike one other from }
    requires within { from ≤ limit }
    requires width { limit ≤ width_of one }
    ensures alike { IsAlike one other result }
    ensures from { from ≤ result }
    ensures within { result ≤ limit }
    ensures apart { result < limit → bit_at one result ≢ bit_at other result }
{
    let mut len = from;
    while len < limit {
        if bit_at(one, len) != bit_at(other, len) {
            return len;
        }
        len += 1;
    }
    len
}

// The prefix of this length that an address has.
pub(crate) fn cut(addr: Addr, len: u8) -> Prefix
    requires some { 0 < len }
    requires within { len ≤ width_of addr }
    ensures len { result.len ≡ len }
    ensures alike { IsAlike result.base addr len }
{
    let base = cut_base(addr, len);
    Prefix { base, len }
}

fn cut_base(addr: Addr, len: u8) -> Addr
    requires some { 0 < len }
    requires within { len ≤ width_of addr }
    ensures prefix { IsPrefix result len }
    ensures alike { IsAlike result addr len }
{
    match addr {
        Addr::V4(value) => Addr::V4(cut_four(value, 32 - len)),
        Addr::V6(value) => Addr::V6(cut_six(value, 128 - len)),
    }
}

fn cut_four(value: u32, down: u8) -> u32
    requires { down < 32 }
    ensures { result ≡ value / 2 ^ down * 2 ^ down }
{
    let unit = 1 << down;
    value / unit * unit
}

fn cut_six(value: u128, down: u8) -> u128
    requires { down < 128 }
    ensures { result ≡ value / 2 ^ down * 2 ^ down }
{
    let unit = 1 << down;
    value / unit * unit
}
