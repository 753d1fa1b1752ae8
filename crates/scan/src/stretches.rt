// Remembered stretches: the byte of a place that lies in one (rule 2), and what is remembered after a round (rules 4 and 6).

ghost use Rattle.std.specs.Prelude.{◌<◌, ◌≡◌, ◌≤◌, ◌^◌, leb};
ghost use Rattle.rules.specs.Lists.{All, select};
ghost use Rattle.rules.specs.Options.{option_of};
ghost use Rattle.rules.specs.Rules.{left_over, cut, kept, recall, ended};
ghost use Rattle.rules.specs.Stretches.{Lies, farther_of, stays, staying};
ghost use Rattle.trie.specs.Lent.{tables_of};
ghost use Rattle.scan.specs.State.{stretch_of, in_use, used, laid, max_stretches, config_of, tree_of};
ghost use Rattle.scan.specs.Memory.{covers, holding, holder_of, put_in, sift_in, filled_with};
ghost use Rattle.scan.specs.Within.{Goes};

use crate::{Scan, Stretch, UNUSED, spell};
use trie::Tables;

impl Stretch {
    // A slot is in use if it is not all zeros.
    pub(crate) fn in_use(self) -> bool
        ensures { result ≡ in_use self }
    {
        self.left != 0 || self.right != 0 || self.node != 0
    }

    // The place lies in the stretch.
    fn covers(self, at: usize) -> bool
        ensures { result ≡ covers at (stretch_of self) }
    {
        self.left <= at && at < self.right
    }

    // It reaches no farther than a place.
    pub(crate) fn ends_by(self, place: usize) -> bool
        ensures { result ≡ leb self.right place }
    {
        self.right <= place
    }

    // Rule 4: an edge, or the right edge of a stretch that is left over and reaches farther.
    fn farther(self, from: usize, edge: usize) -> usize
        ensures { result ≡ farther_of from edge (stretch_of self) }
    {
        if from <= self.left {
            return edge;
        }
        edge.max(self.right)
    }

    // Rule 6: the stretch is kept at boundary b.
    fn kept_at(self, b: usize) -> bool
        requires { Lies b (stretch_of self) }
        ensures { result ≡ kept b (stretch_of self) }
    {
        4 * (b - self.right) <= self.right - self.left
    }
}

// The first of the slots in use that has the place.
pub fn seek(slots: &[Stretch; 5], at: usize) -> Option<Stretch>
    ensures { holder_of result ≡ holding at (used slots.now) }
{
    slots
        .iter()
        .take_while(|s| s.in_use())
        .find(|s| s.covers(at))
        .copied()
}

// Rule 2: the byte of a place that lies in a remembered stretch.
pub fn recall(scan: &Scan, tables: &Tables, at: usize) -> Option<u8>
    requires { Goes (tables_of tables.now) scan.now }
    ensures { option_of result ≡ recall (tree_of (tables_of tables.now) scan.now) (used scan.now.stretches) at }
{
    match seek(&scan.stretches, at) {
        None => None,
        Some(s) => {
            let v = spell::lift(tables, s.node, at - s.left);
            Some(tables.label[v])
        }
    }
}

// Slots, and how many of them are in use, which come first. (Libraries have no heap, so it is no vector.)
#[derive(Clone, Copy)]
pub struct Filled {
    pub slots: [Stretch; 5],
    pub n: usize,
}

impl Filled {
    // The slots with a stretch more.
    fn put(self, s: Stretch) -> Filled
        requires { self.n < 5 }
        ensures { result ≡ put_in self s }
    {
        let mut out = self;
        out.slots[self.n] = s;
        out.n += 1;
        out
    }

    // Rules 4 and 6: the slots with a stretch more, if it is left over and kept.
    fn sift(self, from: usize, b: usize, s: Stretch) -> Filled
        requires room { self.n < 5 }
        requires lies { Lies b (stretch_of s) }
        ensures { result ≡ sift_in (stays from b (stretch_of s)) self s }
    {
        if from <= s.left || !s.kept_at(b) {
            return self;
        }
        self.put(s)
    }
}

// Rule 4: where the new stretch begins, at `from` or at the right edge of the nearest stretch left over.
fn edge(slots: &[Stretch; 5], from: usize) -> usize
    ensures { result ≡ cut from (left_over from (used slots.now)) }
{
    slots
        .iter()
        .take_while(|s| s.in_use())
        .fold(from, |far, s| s.farther(from, far))
}

// Rules 4 and 6: the stretches that are left over and kept. No fold: each step needs that there is room, which the loop's invariant says.
fn held(slots: &[Stretch; 5], from: usize, b: usize) -> Filled
    requires { All (Lies b) (used slots.now) }
    ensures { result ≡ filled_with (staying from b (used slots.now)) }
{
    let mut f = Filled {
        slots: [UNUSED; 5],
        n: 0,
    };
    for s in slots {
        if !s.in_use() {
            return f;
        }
        f = f.sift(from, b, *s);
    }
    f
}

// Rules 4 and 6: what is remembered after a round that ended where the state stands, when the boundary moves to `next`.
pub fn remember(scan: &Scan, tables: &Tables, next: usize) -> [Stretch; 5]
    requires goes { Goes (tables_of tables.now) scan.now }
    requires moves { (scan.now.boundary ≤ next) × (next < 2 ^ 32) }
    ensures { let c = config_of scan.now in
        result ≡ laid max_stretches (select (kept next) (ended (tree_of (tables_of tables.now) scan.now) c)) }
{
    let from = scan.boundary - scan.depth;
    let left = edge(&scan.stretches, from);
    let f = held(&scan.stretches, from, next);
    let new = Stretch {
        left,
        right: scan.boundary,
        node: spell::lift(tables, scan.node, left - from),
    };
    if 5 <= f.n || !new.kept_at(next) {
        return f.slots;
    }
    f.put(new).slots
}
