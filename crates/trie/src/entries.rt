// The entries of lent tables: 0 past a table's end. Two functions, since an entry is wanted as a number and a label as a byte: one for both
// would need a trait for its one line. And what entries are compared by, for callers that have no `Tables`.
ghost use Rattle.std.specs.Prelude.{◌≡◌, ◌<◌, max, min, get_or};
ghost use Rattle.tables.specs.Tables.{shortest_table};
ghost use Rattle.trie.specs.Answers.{tables};

use crate::Tables;

// An entry as an index.
pub fn wide(x: u16) -> usize
    ensures { result ≡ x }
{
    usize::from(x)
}

pub fn entry(s: &[u16], i: usize) -> usize
    ensures { (result ≡ get_or s.now i 0) × (result < 65536) }
{
    wide(s.get(i).copied().unwrap_or(0))
}

pub fn label_at(s: &[u8], i: usize) -> u8
    ensures { result ≡ get_or s.now i 0 }
{
    s.get(i).copied().unwrap_or(0)
}

pub fn least(a: usize, b: usize) -> usize
    ensures { result ≡ min a b }
{
    a.min(b)
}

pub fn greater(a: usize, b: usize) -> usize
    ensures { result ≡ max a b }
{
    a.max(b)
}

// The length of the shortest of six tables.
pub fn shortest(
    parent: &[u16],
    label: &[u8],
    token: &[u16],
    first: &[u16],
    next: &[u16],
    shift: &[u16],
) -> usize
    ensures { result ≡ shortest_table
        (tables parent.now label.now token.now first.now next.now shift.now) }
{
    let lent = Tables {
        parent,
        label,
        token,
        first,
        next,
        shift,
    };
    lent.shortest()
}
