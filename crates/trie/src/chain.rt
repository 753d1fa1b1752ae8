// The walk along the chain of a node's children, to the first whose label is the byte.
ghost use Rattle.std.specs.Prelude.{◌≡◌};
ghost use Rattle.rules.specs.Options.{option_of};
ghost use Rattle.tables.specs.Walks.{child_by};
ghost use Rattle.trie.specs.Lent.{tables_of};
ghost use Rattle.trie.specs.Chain.{walked, Kids};

use crate::Tables;
use crate::entries::{entry, label_at};

// From node `head` on, over at most `count` nodes, since a chain that no building made need not end: the first node with the label, or else
// the chain's last (0: the chain is empty).
pub fn walk(label: &[u8], next: &[u16], count: usize, head: usize, byte: u8) -> Result<usize, usize>
    ensures { result ≡ walked label.now next.now byte count 0 head }
{
    let mut at = head;
    let mut last = 0;
    let mut left = count;
    // By hand, since a turn goes where the one before it read.
    let found = loop {
        if left == 0 || at == 0 {
            break Err(last);
        }
        if label_at(label, at) == byte {
            break Ok(at);
        }
        last = at;
        at = entry(next, at);
        left -= 1;
    };
    found
}

// The child of `node` with the label `byte`.
pub fn child(tables: &Tables, count: usize, node: usize, byte: u8) -> Option<usize>
    ensures { option_of result ≡ child_by (tables_of tables.now) count node byte }
{
    match walk(
        tables.label,
        tables.next,
        count,
        entry(tables.first, node),
        byte,
    ) {
        Ok(at) => Some(at),
        Err(_) => None,
    }
}

// The root's children by label, 0 for none as in the tables: of two with one label the first, as a walk would find it.
pub fn root_children(tables: &Tables, count: usize) -> [u16; 256]
    ensures { Kids (tables_of tables.now).label (tables_of tables.now).first (tables_of tables.now).next count result }
{
    let mut kids = [0u16; 256];
    let mut at = entry(tables.first, 0);
    let mut left = count;
    // By hand as `walk` is.
    while left != 0 && at != 0 {
        let x = usize::from(label_at(tables.label, at));
        if kids[x] == 0 {
            kids[x] = at as u16;
        }
        at = entry(tables.next, at);
        left -= 1;
    }
    kids
}
