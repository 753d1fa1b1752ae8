// One byte more in lent tables: on to the child that is there, or to a new one.
ghost use Rattle.std.specs.Prelude.{◌≡◌, [], ◌∷◌, ◌+◌, ◌<◌};
ghost use Rattle.trie.specs.Lent.{written_of, SameMemory};
ghost use Rattle.trie.specs.InPlace.{Room, Ready, put_child, placed};

use crate::TablesMut;
use crate::chain::walk;
use crate::entries::entry;

// The number of nodes, and the node that the bytes so far lead to.
#[derive(Clone, Copy)]
pub struct Place {
    pub count: usize,
    pub node: usize,
}

// A new child of `node` behind `last`, the last of its children (0: it has none).
fn put_child(tables: &mut TablesMut, new: usize, node: usize, last: usize, byte: u8)
    requires { Room (written_of tables.old) (new + 1) × (new < 65536) × (node < new) × (last < new) }
    ensures put { written_of tables.new ≡ put_child (written_of tables.old) new node last byte }
    ensures lent { SameMemory tables.old tables.new }
{
    tables.parent[new] = node as u16;
    tables.label[new] = byte;
    tables.token[new] = 0;
    tables.first[new] = 0;
    tables.next[new] = 0;
    if last == 0 {
        tables.first[node] = new as u16;
    } else {
        tables.next[last] = new as u16;
    }
}

// On from where the bytes so far lead, by one byte.
pub fn step(tables: &mut TablesMut, from: Place, byte: u8) -> Place
    requires { Ready (written_of tables.old) from.count from.node 1 }
    ensures placed { record {
      tables = written_of tables.new;
      count = result.count;
      node = result.node;
    }
        ≡ placed (written_of tables.old) from.count from.node (byte ∷ []) }
    ensures lent { SameMemory tables.old tables.new }
{
    let Place { count, node } = from;
    let so_far = tables.shared();
    match walk(
        so_far.label,
        so_far.next,
        count,
        entry(so_far.first, node),
        byte,
    ) {
        Ok(at) => Place { count, node: at },
        Err(last) => {
            put_child(tables, count, node, last, byte);
            Place {
                count: count + 1,
                node: count,
            }
        }
    }
}
