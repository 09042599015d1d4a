ghost use Rattle.std.specs.Prelude.{◌≡◌, ◌+◌, ◌*◌, ◌≤◌, ◌<◌, ◌++◌, length, slice_get, vec_capacity, vec_len, IsOk, OnOk, Some};
ghost use Rattle.number_text.specs.Appends.{Appends};
ghost use Rattle.turn_text.specs.Texts.{answer_room};
ghost use Rattle.packet_trace.specs.Changes.{changes_since};
ghost use Rattle.netd_session.specs.Watches.{change_text, noted_text, request_room, request_text};

use kernel_model::Kernel;
use net_names::Name;
use number_text::{append_bytes, write_decimal};
use packet_trace::Watched;
use policy_state::State;
use prefixes::Addr;
use report_text::write_verdict;
use rule_match::Verdict;
use std::alloc::AllocError;

/// What is watched: the packets that a socket sends to an address.
#[derive(Clone, Copy, Drop)]
pub struct Watch {
    pub socket: Name,
    pub dest: Addr,
}

// Appends the number of a request and where the packet goes after it.
fn write_change(
    request: u64,
    verdict: &Verdict,
    state: &State,
    out: &mut Vec<u8>,
) -> Result<(), AllocError>
    ensures text { Appends out.old out.new result (change_text state.now request verdict.now) }
    ensures short { OnOk result (length (change_text state.now request verdict.now) ≤ 94) }
    ensures room { vec_len out.old + 94 ≤ vec_capacity out.old → IsOk result }
{
    append_bytes(b"request ", out)?;
    write_decimal(request, out)?;
    append_bytes(b" ", out)?;
    write_verdict(state, verdict, out)?;
    append_bytes(b"\n", out)
}

// Appends what is said of one request.
fn write_request(
    number: u32,
    request: u64,
    verdict: &Verdict,
    state: &State,
    out: &mut Vec<u8>,
) -> Result<(), AllocError>
    ensures text { Appends out.old out.new result (request_text number state.now request verdict.now) }
    ensures short { OnOk result
        (length (request_text number state.now request verdict.now) ≤ request_room) }
    ensures room { vec_len out.old + request_room ≤ vec_capacity out.old → IsOk result }
{
    write_decimal(u64::from(number), out)?;
    append_bytes(b": ", out)?;
    write_change(request, verdict, state, out)
}

// Appends what is said of one request, in the room that is there.
fn put_request(number: u32, request: u64, verdict: &Verdict, state: &State, out: &mut Vec<u8>)
    requires room { vec_len out.old + request_room ≤ vec_capacity out.old }
    ensures text { out.new.items ≡ out.old.items ++ request_text number state.now request verdict.now }
    ensures len { vec_len out.new ≤ vec_len out.old + request_room }
    ensures capacity { vec_capacity out.old ≤ vec_capacity out.new }
{
    let _ = write_request(number, request, verdict, state, out);
}

// The request that was noted at this place, and the verdict after it.
fn change_at<K: Kernel>(watched: &Watched<'_, K>, place: usize) -> (u64, Verdict)
    requires { place < length (changes_since watched.now.packet watched.now.since
        (K.seen watched.now.inner.now).journal) }
    ensures { slice_get (changes_since watched.now.packet watched.now.since
        (K.seen watched.now.inner.now).journal) place ≡ Some result }
{
    watched.seen_at(place).unwrap()
}

/// Appends what is said of each request after which the watched packet went another way, in the room that is there.
pub(crate) fn put_requests<K: Kernel>(
    number: u32,
    watched: &Watched<'_, K>,
    state: &State,
    out: &mut Vec<u8>,
)
    requires room { vec_len out.old
        + length (changes_since watched.now.packet watched.now.since (K.seen watched.now.inner.now).journal) * request_room
        + answer_room ≤ vec_capacity out.old }
    ensures text { out.new.items ≡ out.old.items ++ noted_text number state.now
        (changes_since watched.now.packet watched.now.since (K.seen watched.now.inner.now).journal) }
    ensures room { vec_len out.new + answer_room ≤ vec_capacity out.new }
{
    for place in 0..watched.seen_count() {
        let (request, verdict) = change_at(watched, place);
        put_request(number, request, &verdict, state, out);
    }
}
