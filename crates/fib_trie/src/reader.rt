ghost use Rattle.std.specs.Prelude.{◌≡◌, ◌+◌};
ghost use Rattle.fib_search.specs.Trie.{IsTrie};

use crate::table::TrieTable;
use fib_search::{NodeView, Nodes};

/// The nodes of a table, with a count of the reads.
#[derive(Drop)]
pub struct NodeReader<'a> {
    table: &'a TrieTable,
    reads: u64,
    ghost is_trie: { ∥ IsTrie table.now.nodes table.now.routes ∥₁ },
}

impl<'a> Nodes for NodeReader<'a> {
    ghost nodes = { λ reader. reader.table.now.nodes };

    ghost routes = { λ reader. reader.table.now.routes };

    ghost reads = { λ reader. reader.reads };

    fn read(&mut self, place: usize, bound: Option<u16>) -> Option<NodeView> {
        self.reads += 1;
        self.table.node(place, bound)
    }

    ghost keeps = { λ reader. reader.is_trie };
}

impl<'a> NodeReader<'a> {
    /// The nodes of this table, none of which was read yet.
    pub fn new(table: &'a TrieTable) -> NodeReader<'a>
        ensures table { result.table.now ≡ table.now }
        ensures reads { result.reads ≡ 0 }
    {
        table.is_trie();
        NodeReader { table, reads: 0 }
    }

    /// How many reads there were.
    pub fn reads(&self) -> u64
        ensures { result ≡ self.now.reads }
    {
        self.reads
    }
}
