// Nodes that no route needs are given back.
ghost use Rattle.std.specs.Prelude.{◌≡◌, ◌<◌, ◌≤◌, ◌∷◌, [], None, Some, slice_set, vec_len, vec_capacity};
ghost use Rattle.prefixes.specs.Addr.{width_of};
ghost use Rattle.fib_search.specs.Node.{bit_at, pick};
ghost use Rattle.fib_search.specs.Trie.{IsTrie};
ghost use Rattle.route_chains.specs.Places.{held};
ghost use Rattle.fib_trie.specs.Branches.{nodes_of};
ghost use Rattle.fib_trie.specs.Reached.{IsPlaceOf};
ghost use Rattle.fib_trie.specs.Pruned.{IsUpper, IsUpperOf, IsPruned, IsFiledTrie, linked, only_child};

use crate::branch::Branch;
use crate::place::{find_place, next_of};
use fib_search::{bit_at, root_of};
use prefixes::Prefix;
use route_chains::{RouteChains, held, put};

/// A node above another, with its place.
#[derive(Clone, Copy)]
pub(crate) struct Upper {
    pub place: usize,
    pub branch: Branch,
}

/// The node above that of a prefix, or none above a root.
pub(crate) fn find_upper(
    branches: &[Option<Branch>],
    prefix: &Prefix,
    place: usize,
) -> Option<Upper>
    requires trie { IsTrie (nodes_of [] branches.now) [] }
    requires leads { IsPlaceOf branches.now prefix.now place }
    ensures { IsUpperOf branches.now prefix.now place result }
{
    let mut upper = None;
    let mut here = root_of(prefix.family());
    while here != place {
        let Some(branch) = held(branches, here) else {
            return None;
        };
        let Some(next) = next_of(&branch, prefix.base()) else {
            return None;
        };
        upper = Some(Upper {
            place: here,
            branch,
        });
        here = next;
    }
    upper
}

fn linked(branch: Branch, bit: bool, child: Option<usize>) -> Branch
    ensures { result ≡ linked bit child branch }
{
    if bit {
        Branch {
            prefix: branch.prefix,
            zero: branch.zero,
            one: child,
        }
    } else {
        Branch {
            prefix: branch.prefix,
            zero: child,
            one: branch.one,
        }
    }
}

fn only_child(branch: &Branch) -> Option<Option<usize>>
    ensures { result ≡ only_child branch.now }
{
    match (branch.zero, branch.one) {
        (None, child) => Some(child),
        (child, None) => Some(child),
        (Some(_), Some(_)) => None,
    }
}

/// Takes a node with one child at most out between the node above it and this child.
pub(crate) fn take_out(
    branches: &mut Vec<Option<Branch>>,
    place: usize,
    branch: Branch,
    upper: Upper,
    child: Option<usize>,
)
    requires stands { held branches.old.items place ≡ Some branch }
    requires upper { IsUpper branches.old.items branch.prefix place upper }
    requires only { only_child branch ≡ Some child }
    ensures pruned { IsPruned branches.old.items branches.new.items branch.prefix place }
    ensures len { vec_len branches.new ≡ vec_len branches.old }
    ensures capacity { vec_capacity branches.new ≡ vec_capacity branches.old }
{
    let _ = branch.prefix.len;
    let bit = bit_at(branch.prefix.base(), upper.branch.prefix.len());
    put(
        branches,
        upper.place,
        Some(linked(upper.branch, bit, child)),
    );
    put(branches, place, None);
}

// Takes the node of a prefix out, unless it is a root, has routes, or has two children. Answers the prefix of the node above.
fn give_back(
    branches: &mut Vec<Option<Branch>>,
    chains: &RouteChains,
    prefix: Prefix,
) -> Option<Prefix>
    requires trie { IsFiledTrie branches.old.items chains.now.entries }
    requires chains { vec_len branches.old ≤ chains.now.chains }
    ensures trie { IsFiledTrie branches.new.items chains.now.entries }
    ensures len { vec_len branches.new ≡ vec_len branches.old }
    ensures capacity { vec_capacity branches.new ≡ vec_capacity branches.old }
{
    let Some(place) = find_place(branches, prefix) else {
        return None;
    };
    let Some(branch) = held(branches, place) else {
        return None;
    };
    let None = chains.first(place, None) else {
        return None;
    };
    let Some(child) = only_child(&branch) else {
        return None;
    };
    let Some(upper) = find_upper(branches, &branch.prefix, place) else {
        return None;
    };
    let above = upper.branch.prefix;
    take_out(branches, place, branch, upper, child);
    Some(above)
}

/// Gives back the nodes that no route needs since a route of this prefix went.
pub(crate) fn prune(branches: &mut Vec<Option<Branch>>, chains: &RouteChains, prefix: Prefix)
    requires trie { IsFiledTrie branches.old.items chains.now.entries }
    requires chains { vec_len branches.old ≤ chains.now.chains }
    ensures trie { IsFiledTrie branches.new.items chains.now.entries }
    ensures len { vec_len branches.new ≡ vec_len branches.old }
    ensures capacity { vec_capacity branches.new ≡ vec_capacity branches.old }
{
    if let Some(above) = give_back(branches, chains, prefix) {
        let _ = give_back(branches, chains, above);
    }
}
