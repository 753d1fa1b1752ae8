// A round's way down the tree, and the hits on it.
ghost use Rattle.std.specs.Prelude.{◌≤◌, ◌<◌, ◌≡◌, length};
ghost use Rattle.book.specs.Book.{max_body};
ghost use Rattle.image.specs.Rounds.{meeting, reached};
ghost use Rattle.image.specs.Walk.{tree_of, WalkableIn, KidsIn, DescendingIn, newest, ArrivedIn};
ghost use Rattle.image.specs.Runs.{FollowedIn};

use crate::given::Sweep;
use crate::runs::Runs;
use book::Book;
use trie::Tables;

// Where a round ended, by which closing byte, that no child has, and how many tokens it met on its way.
#[derive(Clone, Copy)]
pub struct Arrival {
    pub node: usize,
    pub depth: usize,
    pub closing: Option<u8>,
    pub met: usize,
}

// Where a way down has come to: a node, its depth, and how many tokens were met.
#[derive(Clone, Copy)]
pub struct Way {
    pub node: usize,
    pub depth: usize,
    pub met: usize,
}

// Keeps a token's number behind the n before it; 0 is none. Answers how many there are then. The count stands apart from the numbers, since each
// power of a run has its own over the same ones.
pub fn keep(kept: &mut [u16; Book::BODY], n: usize, number: u16) -> usize
    requires { n < length kept.old }
    ensures size { result ≡ length (meeting (newest kept.old n) number) }
    ensures kept { newest kept.new result ≡ meeting (newest kept.old n) number }
{
    if number == 0 {
        return n;
    }
    kept[n] = number;
    n + 1
}

// Rules 2 and 3 from a node on the way down from boundary b: as far as the image's bytes lead.
fn walk(sweep: &Sweep, b: usize, way: Way, kept: &mut [u16; Book::BODY]) -> Arrival
    requires place { (0 < b) × (b ≤ length sweep.now.image.now) }
    requires tables { WalkableIn sweep.now }
    requires way { DescendingIn sweep.now kept.old b way }
    requires room { (reached (tree_of sweep.now) sweep.now.image.now b).depth ≤ length kept.old }
    ensures { ArrivedIn sweep.now b kept.new result }
{
    let image = sweep.image;
    let Tables { token, first, .. } = sweep.tables;
    let mut node = way.node;
    let mut depth = way.depth;
    let mut met = way.met;
    // By hand: the loop is the rules' way down, a step a turn.
    while first[node] != 0 && depth != b {
        let x = image[b - 1 - depth];
        match sweep.child(node, x) {
            None => {
                return Arrival {
                    node,
                    depth,
                    closing: Some(x),
                    met,
                };
            }
            Some(v) => {
                node = v;
                depth += 1;
                met = keep(kept, met, token[v]);
            }
        }
    }
    Arrival {
        node,
        depth,
        closing: None,
        met,
    }
}

// Keeps the first n of the numbers.
fn copy(numbers: &[u16; Book::BODY], n: usize, kept: &mut [u16; Book::BODY])
    requires { n ≤ max_body }
    ensures { newest kept.new n ≡ newest numbers.now n }
{
    kept[..n].copy_from_slice(&numbers[..n]);
}

// Rules 2 and 3 where a run ends at boundary b: to its power at once, and on from there.
fn along(sweep: &Sweep, b: usize, runs: &Runs, kept: &mut [u16; Book::BODY]) -> Arrival
    requires place { (0 < b) × (b ≤ length sweep.now.image.now) }
    requires tables { WalkableIn sweep.now }
    requires followed { FollowedIn sweep.now runs.now }
    requires run { runs.now.till ≡ b }
    requires room { (reached (tree_of sweep.now) sweep.now.image.now b).depth ≤ length kept.old }
    ensures { ArrivedIn sweep.now b kept.new result }
{
    let depth = (b - runs.from).min(runs.known);
    let node = runs.power[depth];
    let met = runs.upto[depth];
    copy(&runs.numbers, met, kept);
    if runs.ended && depth < b - runs.from && sweep.tables.first[node] != 0 {
        return Arrival {
            node,
            depth,
            closing: Some(runs.byte),
            met,
        };
    }
    walk(sweep, b, Way { node, depth, met }, kept)
}

// Rules 2 and 3 in a round at boundary b: as far down as the image's bytes lead. The tokens on the way are kept, the longest last.
pub fn descend(sweep: &Sweep, b: usize, runs: &Runs, kept: &mut [u16; Book::BODY]) -> Arrival
    requires place { (0 < b) × (b ≤ length sweep.now.image.now) }
    requires tables { WalkableIn sweep.now }
    requires kids { KidsIn sweep.now }
    requires followed { FollowedIn sweep.now runs.now }
    requires room { (reached (tree_of sweep.now) sweep.now.image.now b).depth ≤ length kept.old }
    ensures { ArrivedIn sweep.now b kept.new result }
{
    if runs.till == b {
        return along(sweep, b, runs, kept);
    }
    let x = sweep.image[b - 1];
    let node = usize::from(sweep.kids[x as usize]);
    if node == 0 {
        return Arrival {
            node: 0,
            depth: 0,
            closing: Some(x),
            met: 0,
        };
    }
    let met = keep(kept, 0, sweep.tables.token[node]);
    let way = Way {
        node,
        depth: 1,
        met,
    };
    walk(sweep, b, way, kept)
}
