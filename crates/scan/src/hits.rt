// The hits of a round that are left to be answered, by the nodes on the way up that carry a token.

ghost use Rattle.std.specs.Prelude.{◌<◌, ◌≡◌};
ghost use Rattle.tables.specs.Walks.{carrier};
ghost use Rattle.trie.specs.Lent.{tables_of};
ghost use Rattle.scan.specs.Calls.{owing, told};
ghost use Rattle.scan.specs.Results.{said_of};
ghost use Rattle.scan.specs.Ways.{Climbs, Nears};

use crate::{Answer, Scan};
use trie::Tables;

// From a node up, as long as each has the node before it for parent, the first that carries a token, or the last. By counting, since a
// turn that went where a parent says would wait for it to be read.
fn bare_end(tables: &Tables, node: usize) -> usize
    requires { Climbs (tables_of tables.now) node × (0 < node) }
    ensures { Nears (tables_of tables.now) node result × (0 < result) }
{
    let mut at = node;
    while 1 < at && tables.token[at] == 0 {
        let below = at - 1;
        if usize::from(tables.parent[at]) != below {
            return at;
        }
        at = below;
    }
    at
}

// Rule 3: the node of the longest token on the way from a node to the root; the root for none.
pub fn carrier(tables: &Tables, node: usize) -> usize
    requires { Climbs (tables_of tables.now) node }
    ensures { result ≡ carrier (tables_of tables.now) node }
{
    let mut at = node;
    // By hand: a turn goes where the one before it read.
    while at != 0 {
        let end = bare_end(tables, at);
        if tables.token[end] != 0 {
            return end;
        }
        at = usize::from(tables.parent[end]);
    }
    0
}

// The hits of this end are left, that of node v next; none where v is the root.
pub fn owe(scan: &mut Scan, end: usize, v: usize)
    ensures { scan.new ≡ owing scan.old end v }
{
    scan.end = if v == 0 { 0 } else { end };
    scan.hit = v;
}

// Answers the next hit that is left, and leaves those above it.
pub fn tell(scan: &mut Scan, tables: &Tables) -> Answer
    requires { Climbs (tables_of tables.now) scan.old.hit × (0 < scan.old.hit) }
    ensures { record { state = scan.new; answer = said_of result } ≡ told (tables_of tables.now) scan.old }
{
    let Scan { end, hit, .. } = *scan;
    let above = carrier(tables, usize::from(tables.parent[hit]));
    owe(scan, end, above);
    Answer::Hit(end, usize::from(tables.token[hit]))
}
