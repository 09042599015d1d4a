ghost use Rattle.std.specs.Prelude.{◌≡◌, ◌<◌, Option, ℕ, None, get_or, length};
ghost use Rattle.route_chains.specs.Links.{AreChains};
ghost use Rattle.route_chains.specs.Found.{IsFound};

use crate::places::held;
use crate::slot::Slot;
use crate::test::Test;

/// Where a search ended: the place, and the place before it in the chain.
#[derive(Clone, Copy)]
pub struct Found {
    pub before: Option<usize>,
    pub at: Option<usize>,
}

fn head_of(heads: &[Option<usize>], chain: usize) -> Option<usize>
    requires { chain < length heads.now }
    ensures { result ≡ get_or heads.now chain None }
{
    heads[chain]
}

/// Goes along a chain to the first route that passes.
pub fn search<T: Test>(
    slots: &[Option<Slot>],
    heads: &[Option<usize>],
    chain: usize,
    test: &T,
) -> Found
    requires there { chain < length heads.now }
    requires chains { AreChains slots.now heads.now }
    ensures { IsFound slots.now chain (get_or heads.now chain None) (T.passes test.now)
        result.before result.at }
{
    let mut before = None;
    let mut at = head_of(heads, chain);
    while let Some(place) = at {
        let Some(slot) = held(slots, place) else {
            return Found { before, at };
        };
        if test.passes(&slot.route) {
            return Found { before, at };
        }
        before = at;
        at = slot.next;
    }
    Found { before, at }
}
