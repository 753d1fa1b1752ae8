// A node's ending, and the nodes above it, by climbing its parents.

ghost use Rattle.std.specs.Prelude.{◌+◌, ◌≤◌, ◌<◌, ◌≡◌};
ghost use Rattle.book.specs.Book.{max_body};
ghost use Rattle.rules.specs.Lists.{over};
ghost use Rattle.tables.specs.Walks.{ending, depth, lifted};
ghost use Rattle.trie.specs.Lent.{tables_of};
ghost use Rattle.scan.specs.Ways.{Climbs, Along, Run};

use book::Book;
use trie::Tables;

// How far an ending is written: up to index n, and what is left is the ending of `at`.
#[derive(Clone, Copy)]
pub struct Spot {
    pub at: usize,
    pub n: usize,
}

// Writes on from index n, up to the first node whose parent is not the node before it. By counting, since a turn that went where a
// parent says would wait for it to be read; two nodes a turn.
fn spell_run(tables: &Tables, node: usize, n: usize, into: &mut [u8; Book::BODY]) -> Spot
    requires way { Climbs (tables_of tables.now) node × (0 < node) }
    requires room { n + depth (tables_of tables.now) node ≤ max_body }
    ensures { Along (tables_of tables.now) node n into.old result.at result.n into.new }
{
    let mut at = node;
    let mut to = n;
    while 2 < at {
        let below = at - 1;
        if usize::from(tables.parent[at]) != below {
            return Spot { at, n: to };
        }
        into[to] = tables.label[at];
        let on = to + 1;
        let under = below - 1;
        if usize::from(tables.parent[below]) != under {
            return Spot { at: below, n: on };
        }
        into[on] = tables.label[below];
        to = on + 1;
        at = under;
    }
    Spot { at, n: to }
}

// Writes the ending of `node` from index 0 on, and answers its length; the bytes behind it stay.
pub fn spell(tables: &Tables, node: usize, into: &mut [u8; Book::BODY]) -> usize
    requires { Climbs (tables_of tables.now) node }
    ensures length { result ≡ depth (tables_of tables.now) node }
    ensures bytes { into.new ≡ over (ending (tables_of tables.now) node) into.old }
{
    let mut at = node;
    let mut n = 0;
    // By hand: a turn goes where the one before it read.
    while at != 0 {
        let run = spell_run(tables, at, n, into);
        let end = run.at;
        let to = run.n;
        into[to] = tables.label[end];
        at = usize::from(tables.parent[end]);
        n = to + 1;
    }
    n
}

// The last node of the run from `node` up, and none below `low`: each before it has the node before it for parent. By counting too.
pub fn run_end(tables: &Tables, node: usize, low: usize) -> usize
    requires { Climbs (tables_of tables.now) node × (low ≤ node) }
    ensures { Run (tables_of tables.now) node low result }
{
    let mut at = node;
    while low < at {
        let below = at - 1;
        if usize::from(tables.parent[at]) != below {
            return at;
        }
        at = below;
    }
    at
}

// The node `n` above `node`; above the root is the root.
pub fn lift(tables: &Tables, node: usize, n: usize) -> usize
    requires { Climbs (tables_of tables.now) node }
    ensures { result ≡ lifted (tables_of tables.now) n node }
{
    let mut at = node;
    let mut left = n;
    // By hand, as `spell` is.
    while left != 0 {
        let low = at.saturating_sub(left);
        let end = run_end(tables, at, low);
        if end == low {
            return end;
        }
        left -= at - end + 1;
        at = usize::from(tables.parent[end]);
    }
    at
}
