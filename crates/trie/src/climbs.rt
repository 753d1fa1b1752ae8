// How deep a node lies, by the way up through its parents.
ghost use Rattle.std.specs.Prelude.{◌≡◌, ◌+◌, ◌-◌, ◌<◌, length};
ghost use Rattle.tables.specs.Walks.{depth};
ghost use Rattle.tables.specs.Shape.{Falling, up};
ghost use Rattle.trie.specs.Lent.{tables_of};

use crate::Tables;

// The depth of `node`, a step a parent.
fn climb(tables: &Tables, node: usize) -> usize
    requires { Falling (tables_of tables.now) (node + 1) × (node < length (tables_of tables.now).parent) }
    ensures { result ≡ depth (tables_of tables.now) node }
{
    let mut at = node;
    let mut steps: usize = 0;
    // By hand, since a turn goes where the one before it read.
    while at != 0 {
        at = usize::from(tables.parent[at]);
        steps += 1;
    }
    steps
}

// The depth of `node` below its parent `above`, where `before` is that of the node before it: only a parent further off has to be
// climbed from.
pub fn depth_at(tables: &Tables, node: usize, above: usize, before: usize) -> usize
    requires { Falling (tables_of tables.now) (node + 1) × (node < length (tables_of tables.now).parent) × (0 < node)
        × (above ≡ up (tables_of tables.now) node) × (before ≡ depth (tables_of tables.now) (node - 1)) }
    ensures { result ≡ depth (tables_of tables.now) node }
{
    if above == node - 1 {
        before + 1
    } else {
        climb(tables, above) + 1
    }
}
