use prefixes::{Prefix, Route};

/// A node of a trie: its prefix, the places of its two children, and a route of the node.
#[derive(Clone, Copy, Debug, PartialEq, Eq)]
pub struct NodeView {
    pub prefix: Prefix,
    pub zero: Option<usize>,
    pub one: Option<usize>,
    pub first: Option<Route>,
}

/// The nodes of a trie, whose every read is counted.
pub trait Nodes {
    ghost use Rattle.std.specs.Prelude.{◌≡◌, ◌+◌, ◌<◌, ℕ, List, Option};
    ghost use Rattle.std.specs.Option.{option_map};
    ghost use Rattle.prefixes.specs.declared.route.Route.{Route};
    ghost use Rattle.fib_search.specs.Node.{TrieNode, node_at, view_of};
    ghost use Rattle.fib_search.specs.Trie.{IsTrie};

    /// The nodes by place.
    ghost nodes: { Self → List (Option TrieNode) };

    /// The routes whose trie the nodes are.
    ghost routes: { Self → List Route };

    /// How many reads there were.
    ghost reads: { Self → ℕ };

    /// The node at a place, with its first route that suits the binding.
    fn read(&mut self, place: usize, bound: Option<u16>) -> Option<NodeView>
        requires { reads self.old < 18446744073709551615 }
        ensures value { result ≡ option_map (view_of bound) (node_at (nodes self.old) place) }
        ensures nodes { nodes self.new ≡ nodes self.old }
        ensures routes { routes self.new ≡ routes self.old }
        ensures reads { reads self.new ≡ reads self.old + 1 };

    /// They are a trie.
    ghost keeps: { (all : Self) → ∥ IsTrie (nodes all) (routes all) ∥₁ };
}
