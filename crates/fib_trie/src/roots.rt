// The roots of a trie.
ghost use Rattle.std.specs.Prelude.{◌≡◌, ◌≢◌, ◌≤◌, ◌+◌, ◌*◌, ◌-◌, [], ◌∷◌, ◌++◌, None, Some, List, vec_len, vec_capacity};
ghost use Rattle.prefixes.specs.declared.route.Route.{Route};
ghost use Rattle.fib_search.specs.Trie.{IsTrie};
ghost use Rattle.fib_trie.specs.Branches.{nodes_of};
ghost use Rattle.prefixes.specs.Addr.{value_of};
ghost use Rattle.fib_trie.specs.Reached.{AreReached};
ghost use Rattle.fib_trie.specs.Roots.{IsBareRoot};

use crate::branch::Branch;
use prefixes::{Addr, Prefix};
use route_chains::push_held;

fn root(base: Addr) -> Branch
    requires { value_of base ≡ 0 }
    ensures { IsBareRoot result base }
{
    Branch {
        prefix: Prefix { base, len: 0 },
        zero: None,
        one: None,
    }
}

// Makes the two roots, where there are no branches.
pub(crate) fn ensure_roots(branches: &mut Vec<Option<Branch>>)
    requires room { 2 ≤ vec_capacity branches.old }
    ensures keeps { (routes : List Route) → IsTrie (nodes_of routes branches.old.items) routes
        → IsTrie (nodes_of routes branches.new.items) routes }
    ensures reaches { AreReached branches.old.items → AreReached branches.new.items }
    ensures stays { branches.old.items ≢ [] → branches.new.items ≡ branches.old.items }
    ensures some { branches.new.items ≢ [] }
    ensures len { vec_len branches.new ≤ vec_len branches.old + 2 * (1 - vec_len branches.old) }
    ensures capacity { vec_capacity branches.new ≡ vec_capacity branches.old }
{
    if branches.is_empty() {
        push_held(branches, root(Addr::V4(0)));
        push_held(branches, root(Addr::V6(0)));
    }
}
