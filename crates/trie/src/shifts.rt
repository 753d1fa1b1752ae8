// The shift of every node, rule 5's node shift, found for all nodes at once: a word without its last s bytes agrees with a node's ending,
// as far as the shorter of the two goes, if the node is met on the shortened word's way down, or lies below its end.
ghost use Rattle.std.specs.Prelude.{◌≡◌, List, [], ℕ, ◌-◌, ◌≤◌, ◌<◌, length, get_or, set, replicate};
ghost use Rattle.rules.specs.Lists.{over};
ghost use Rattle.book.specs.Book.{read_book, accepted};
ghost use Rattle.tables.specs.Tables.{built};
ghost use Rattle.trie.specs.Answers.{tables};
ghost use Rattle.trie.specs.Filling.{lows, handed_down, Shiftable};

use crate::Tables;
use crate::chain::root_children;
use crate::walks::{Walks, lower};
use book::Book;

// Every entry is S to begin with, and the root's is 1.
fn begin(shift: &mut [u16], count: usize, shortest: usize)
    requires { (0 < count) × (count ≤ length shift.old) × (shortest < 65536) }
    ensures { shift.new ≡ set (over (replicate count shortest) shift.old) 0 1 }
{
    shift[..count].fill(shortest as u16);
    shift[0] = 1;
}

// Where a walk ended, the nodes below are lowered too: each by its parent, which comes before it. The two lists stay apart, since `met` is
// the lent table itself.
fn hand_down(parent: &[u16], count: usize, met: &mut [u16], whole: &mut [u16])
    requires size { (0 < count) × (count ≤ length parent.now) × (count ≤ length met.old) × (count ≤ length whole.old) }
    requires falls { (v : ℕ) → 0 < v → v < count → get_or parent.now v 0 < v }
    ensures { lows met.new whole.new
        ≡ handed_down parent.now (count - 1) 1 (lows met.old whole.old) }
{
    for v in 1..count {
        let above = usize::from(parent[v]);
        let low = whole[v].min(whole[above]);
        lower(met, v, usize::from(low));
        whole[v] = low;
    }
}

// The shift of each of the `count` nodes, from the front; what follows stays. The tables come one by one: the check does not follow a
// struct of which one table is written while others are read.
pub fn fill_shifts(
    book: &[u8],
    parent: &mut [u16],
    label: &mut [u8],
    first: &mut [u16],
    next: &mut [u16],
    shift: &mut [u16],
    count: usize,
    shortest: usize,
)
    requires { Shiftable book.now (tables parent.old label.old [] first.old next.old shift.old) count shortest }
    ensures filled { (ts : List (List ℕ)) → read_book book.now ≡ accepted ts
        → shift.new ≡ over (built ts).shift shift.old }
    ensures kept { (parent.new ≡ parent.old) × (label.new ≡ label.old) × (first.new ≡ first.old) × (next.new ≡ next.old) }
{
    let tree = Tables {
        parent,
        label,
        token: &[],
        first,
        next,
        shift: &[],
    };
    let walks = Walks {
        tree,
        count,
        kids: root_children(&tree, count),
        shortest,
    };
    let mut whole = [shortest as u16; 1 + Book::BODIES];
    begin(shift, count, shortest);
    walks.walk_book(book, shift, &mut whole);
    hand_down(parent, count, shift, &mut whole);
}
