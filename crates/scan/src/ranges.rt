// Whether a state is in its ranges: the tests of refusal 10, over tables that pass refusal 9.

ghost use Rattle.std.specs.Prelude.{◌≤◌, ◌<◌, ◌≡◌, ◌&&◌, leb, ltb, eqb};
ghost use Rattle.std.proofs.Math.Option.{none};
ghost use Rattle.rules.specs.Lists.{any_of};
ghost use Rattle.book.specs.Book.{max_body, max_image};
ghost use Rattle.tables.specs.Broken.{broken};
ghost use Rattle.tables.specs.Unbroken.{Unbroken};
ghost use Rattle.tables.specs.Walks.{depth};
ghost use Rattle.trie.specs.Lent.{tables_of};
ghost use Rattle.scan.specs.State.{stretch_of, used, farthest, stretch_ok, stretches_ok, due_ok, up_to, end_ok, hit_ok, left_ok, in_range};
ghost use Rattle.scan.specs.Ways.{Climbs};
ghost use Rattle.scan.specs.Memory.{covers};

use crate::spell::run_end;
use crate::stretches::seek;
use crate::{Scan, Stretch};
use book::Book;
use trie::Tables;

// The ends of the ranges: of the node count, S, b past the end of the image, and the bytes supplied and taken from stretches.
const NODES: usize = 1 + Book::BODIES;

const SHORTEST: usize = Book::BODY;

const PAST: usize = Book::BODY;

pub const SUPPLIED: usize = 1000000000;

pub const SPARED: usize = 20000000000;

// Whether x lies in a range, both ends included: the range's own test, in the words of the definitions.
fn between(low: usize, x: usize, high: usize) -> bool
    ensures { result ≡ (leb low x && leb x high) }
{
    (low..=high).contains(&x)
}

// How deep a node lies, by climbing to the root, a run a turn.
fn climbed(tables: &Tables, node: usize) -> usize
    requires { Climbs (tables_of tables.now) node }
    ensures { result ≡ depth (tables_of tables.now) node }
{
    let mut at = node;
    let mut n = 0;
    // By hand: a turn goes where the one before it read.
    while at != 0 {
        let end = run_end(tables, at, 1);
        n += at - end + 1;
        at = usize::from(tables.parent[end]);
    }
    n
}

// Whether the node is below the count and so deep. Only such a node is climbed from.
fn lies(tables: &Tables, count: usize, node: usize, deep: usize) -> bool
    requires { Unbroken (tables_of tables.now) count }
    ensures { result ≡ (ltb node count && eqb (depth (tables_of tables.now) node) deep) }
{
    node < count && climbed(tables, node) == deep
}

// Whether a stretch is in range. The order of the tests keeps each difference and product within its type.
fn stretch_ok(scan: &Scan, tables: &Tables, m: Stretch) -> bool
    requires tree { Unbroken (tables_of tables.now) scan.now.count }
    requires boundary_bound { scan.now.boundary ≤ farthest max_image }
    ensures { result ≡ stretch_ok (tables_of tables.now) scan.now (stretch_of m) }
{
    if m.left >= m.right || m.right > scan.image {
        return false;
    }
    let long = m.right - m.left;
    if m.right >= scan.boundary || !lies(tables, scan.count, m.node, long) {
        return false;
    }
    4 * (scan.boundary - m.right) <= long
}

// Whether the slots in use come first, are in range and rise, and the others hold zeros.
fn stretches_ok(scan: &Scan, tables: &Tables) -> bool
    requires tree { Unbroken (tables_of tables.now) scan.now.count }
    requires boundary_bound { scan.now.boundary ≤ farthest max_image }
    ensures { result ≡ stretches_ok (tables_of tables.now) scan.now }
{
    // Where the last stretch ended, and whether an unused slot came.
    let mut from = 0;
    let mut over = false;
    for m in &scan.stretches {
        if m.in_use() {
            if over || m.left < from {
                return false;
            }
            if !stretch_ok(scan, tables, *m) {
                return false;
            }
            from = m.right;
        } else {
            over = true;
        }
    }
    true
}

// Whether a place lies in one of the stretches of the slots in use, which come first.
fn remembered(scan: &Scan, at: usize) -> bool
    ensures { result ≡ any_of (covers at) (used scan.now.stretches) }
{
    seek(&scan.stretches, at).is_some()
}

// Whether a byte is due only where the rules fetch one: they are not done, the round goes on, and the place is not remembered.
fn due_ok(scan: &Scan, tables: &Tables) -> bool
    requires tree { Unbroken (tables_of tables.now) scan.now.count }
    requires node_in_bounds { scan.now.node < scan.now.count }
    requires depth_le_boundary { scan.now.depth ≤ scan.now.boundary }
    ensures { result ≡ due_ok (tables_of tables.now) scan.now }
{
    if !scan.due {
        return true;
    }
    let node = scan.node;
    if scan.image < scan.boundary || tables.first[node] == 0 {
        return false;
    }
    scan.depth != scan.boundary && !remembered(scan, scan.boundary - 1 - scan.depth)
}

// Whether none of the slots in use, which come first, reaches past a place.
fn up_to(slots: &[Stretch; 5], end: usize) -> bool
    ensures { result ≡ up_to end (used slots.now) }
{
    slots
        .iter()
        .take_while(|s| s.in_use())
        .all(|s| s.ends_by(end))
}

// Whether the end of the hits that are left lies in the image and before b, and the round stands at its start.
fn end_ok(scan: &Scan) -> bool
    requires shortest_le_max_body { scan.now.shortest ≤ max_body }
    requires image_le_max_image { scan.now.image ≤ max_image }
    ensures { result ≡ end_ok scan.now }
{
    if scan.end > scan.image
        || scan.end >= scan.boundary
        || scan.boundary > scan.end + scan.shortest
    {
        return false;
    }
    if scan.node != 0 || scan.due {
        return false;
    }
    up_to(&scan.stretches, scan.end)
}

// Whether the node of the next hit that is left is below the count, carries a token, and is no deeper than its end.
fn hit_ok(scan: &Scan, tables: &Tables) -> bool
    requires { Unbroken (tables_of tables.now) scan.now.count }
    ensures { result ≡ hit_ok (tables_of tables.now) scan.now }
{
    let node = scan.hit;
    if node >= scan.count || tables.token[node] == 0 {
        return false;
    }
    climbed(tables, node) <= scan.end
}

// Whether the hits that are left are in range; with none the end is 0.
fn left_ok(scan: &Scan, tables: &Tables) -> bool
    requires tree { Unbroken (tables_of tables.now) scan.now.count }
    requires shortest_le_max_body { (scan.now.shortest ≤ max_body) × (scan.now.image ≤ max_image) }
    ensures { result ≡ left_ok (tables_of tables.now) scan.now }
{
    if scan.hit == 0 {
        return scan.end == 0;
    }
    hit_ok(scan, tables) && end_ok(scan)
}

// Whether the state is in its ranges. The count comes first: tables of no node hold nothing to read.
pub fn in_range(scan: &Scan, tables: &Tables) -> bool
    requires { broken (tables_of tables.now) scan.now.count ≡ none }
    ensures { result ≡ in_range (tables_of tables.now) scan.now }
{
    if !between(1, scan.count, NODES) || scan.image > Book::IMAGE {
        return false;
    }
    if !between(1, scan.shortest, SHORTEST) || !lies(tables, scan.count, scan.node, scan.depth) {
        return false;
    }
    if !between(scan.depth, scan.boundary, scan.image + PAST) {
        return false;
    }
    if scan.supplied > SUPPLIED || scan.spared > SPARED {
        return false;
    }
    if !stretches_ok(scan, tables) || !due_ok(scan, tables) {
        return false;
    }
    left_ok(scan, tables)
}
