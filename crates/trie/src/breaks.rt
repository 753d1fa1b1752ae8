// Refusal 9: the first node that breaks the tables, found in one pass over the nodes.
ghost use Rattle.std.specs.Prelude.{◌≡◌, ◌&&◌, ◌-◌, ◌≤◌, ◌<◌, leb, length};
ghost use Rattle.tables.specs.Tables.{shortest_table};
ghost use Rattle.tables.specs.Broken.{max_shift, linked, sound, first_break, broken, tested};
ghost use Rattle.tables.specs.Shape.{up};
ghost use Rattle.trie.specs.Answers.{tested_of, own_sound};
ghost use Rattle.trie.specs.Lent.{tables_of};
ghost use Rattle.trie.specs.NodeByNode.{Chain};

use crate::climbs::depth_at;
use crate::{Broken, Tables};
use book::Book;

// A link from `node` to `at` is 0, or leads to a later node with the parent `above`.
fn link_sound(tables: &Tables, count: usize, node: usize, at: usize, above: usize) -> bool
    requires { count ≤ length (tables_of tables.now).parent }
    ensures { result ≡ linked (tables_of tables.now) count node at above }
{
    at == 0 || (node < at && at < count && usize::from(tables.parent[at]) == above)
}

// A shift is 1 to 1,024.
fn shift_sound(by: u16) -> bool
    ensures { result ≡ (leb 1 by && leb by max_shift) }
{
    1 <= by && usize::from(by) <= Book::BODY
}

// The root has 0 for parent, label, token and sibling, its first child has it for parent, and its shift is in range.
fn root_sound(tables: &Tables, count: usize) -> bool
    requires { (count ≤ shortest_table (tables_of tables.now)) × (0 < count) }
    ensures { result ≡ sound (tables_of tables.now) count 0 }
{
    tables.parent[0] == 0
        && tables.label[0] == 0
        && tables.token[0] == 0
        && tables.next[0] == 0
        && link_sound(tables, count, 0, usize::from(tables.first[0]), 0)
        && shift_sound(tables.shift[0])
}

// The tests of a node after the root, but those of its parent and its depth.
fn own_sound(tables: &Tables, count: usize, node: usize) -> bool
    requires { (count ≤ shortest_table (tables_of tables.now)) × (node < count) }
    ensures { result ≡ own_sound (tables_of tables.now) count node }
{
    let above = usize::from(tables.parent[node]);
    usize::from(tables.token[node]) <= Book::TOKENS
        && link_sound(tables, count, node, usize::from(tables.first[node]), node)
        && link_sound(tables, count, node, usize::from(tables.next[node]), above)
        && shift_sound(tables.shift[node])
}

// The end of the chain from `node` on, `last` at the latest: each node before it passes, and the next node is its first child.
fn chain_end(tables: &Tables, count: usize, node: usize, last: usize) -> usize
    requires { (count ≤ shortest_table (tables_of tables.now)) × (node ≤ last) × (last < count) }
    ensures { Chain (tables_of tables.now) count node result × (result ≤ last) }
{
    let mut at = node;
    while at < last {
        // By counting, and tested before the link: a turn that went where a link leads would wait for it to be read.
        let after = at + 1;
        if usize::from(tables.parent[after]) != at
            || Book::TOKENS < usize::from(tables.token[at])
            || !link_sound(
                tables,
                count,
                at,
                usize::from(tables.next[at]),
                usize::from(tables.parent[at]),
            )
            || !shift_sound(tables.shift[at])
            || usize::from(tables.first[at]) != after
        {
            return at;
        }
        at = after;
    }
    at
}

// The first node after the root that breaks the tables, chain by chain.
fn later_break(tables: &Tables, count: usize) -> Result<(), Broken>
    requires { (count ≤ shortest_table (tables_of tables.now)) × (0 < count) × (up (tables_of tables.now) 0 ≡ 0) }
    ensures { tested_of result ≡ tested (first_break (tables_of tables.now) count (count - 1) 1) }
{
    let mut node = 1;
    let mut depth = 0;
    // By hand, since a turn goes on behind the chain that it tested.
    while node < count {
        let above = usize::from(tables.parent[node]);
        if node <= above {
            return Err(Broken { node });
        }
        // The parents up to here are smaller nodes, so the way up ends.
        depth = depth_at(tables, node, above, depth);
        if Book::BODY < depth {
            return Err(Broken { node });
        }
        let last = (count - 1).min(node + (Book::BODY - depth));
        let end = chain_end(tables, count, node, last);
        if !own_sound(tables, count, end) {
            return Err(Broken { node: end });
        }
        depth += end - node;
        node = end + 1;
    }
    Ok(())
}

// The shortest length where a table is shorter than the count, else the first node that breaks the tables.
pub fn first_break(tables: &Tables, count: usize) -> Result<(), Broken>
    ensures { tested_of result ≡ tested (broken (tables_of tables.now) count) }
{
    let shortest = tables.shortest();
    if shortest < count {
        return Err(Broken { node: shortest });
    }
    if count == 0 {
        return Ok(());
    }
    if !root_sound(tables, count) {
        return Err(Broken { node: 0 });
    }
    later_break(tables, count)
}
