// Rule 5 over any tables that are a tree: the node's entry, as given, and the byte shift, word by word.

ghost use Rattle.std.specs.Prelude.{◌+◌, ◌-◌, ◌≤◌, ◌<◌, max, ◌≡◌, true, length, get_or};
ghost use Rattle.rules.specs.Lists.{least};
ghost use Rattle.rules.specs.Options.{option_of};
ghost use Rattle.agree.specs.Tests.{byte_test, least_of};
ghost use Rattle.tables.specs.Unbroken.{Unbroken};
ghost use Rattle.tables.specs.Walks.{ending, words, shift_from};
ghost use Rattle.trie.specs.Lent.{tables_of};
ghost use Rattle.scan.specs.Shifts.{Bare, Next};
ghost use Rattle.scan.specs.Ways.{Climbs};
ghost use Rattle.scan.specs.Within.{Goes};

use crate::{Scan, spell};
use book::Book;
use trie::Tables;

// Whether four nodes from v on carry no token.
fn bare_four(token: &[u16], v: usize) -> bool
    requires { v + 4 ≤ length token.now }
    ensures { result ≡ true → Bare token.now v (v + 4) }
{
    token[v] | token[v + 1] | token[v + 2] | token[v + 3] == 0
}

// A node from v on, up to which none carries a token. Four at a time, for speed: one comparison does for four.
fn skip(token: &[u16], v: usize, count: usize) -> usize
    requires { (v ≤ count) × (count ≤ length token.now) }
    ensures { Bare token.now v result × (result ≤ count) }
{
    let mut at = v;
    while 4 <= count - at {
        if !bare_four(token, at) {
            return at;
        }
        at += 4;
    }
    at
}

// The next node from v on that carries a token, if one below the count does.
fn carrier(token: &[u16], v: usize, count: usize) -> Option<usize>
    requires { (v ≤ count) × (count ≤ length token.now) }
    ensures { Next token.now v count result }
{
    for at in skip(token, v, count)..count {
        if token[at] != 0 {
            return Some(at);
        }
    }
    None
}

// The least byte shift with node v's word too; `word`, lent since libraries have no heap, is for its bytes.
fn lower(
    tables: &Tables,
    v: usize,
    word: &mut [u8; Book::BODY],
    deep: usize,
    x: u8,
    best: usize,
) -> usize
    requires { Climbs (tables_of tables.now) v }
    ensures { let w = ending (tables_of tables.now) v in
        result ≡ least (byte_test deep x w) 1 (best - 1) }
{
    let n = spell::spell(tables, v, word);
    let bytes = &word[..];
    agree::byte_least(&bytes[..n], deep, x, best)
}

// The least byte shift of all words, or the entry where that is no less: the search stops there.
fn all_least(
    tables: &Tables,
    count: usize,
    shortest: usize,
    deep: usize,
    x: u8,
    entry: usize,
) -> usize
    requires tree { Unbroken (tables_of tables.now) count }
    requires near { 1 ≤ shortest }
    ensures { let w = words (tables_of tables.now) count in
        result ≡ max entry (least_of (byte_test deep x) w shortest) }
{
    let mut word = [0u8; Book::BODY];
    let mut best = shortest;
    let mut v = 0;
    // By hand: a turn goes on behind the node that it found, while a word can lower the shift.
    while v < count && entry < best {
        let Some(at) = carrier(tables.token, v, count) else {
            return best;
        };
        best = lower(tables, at, &mut word, deep, x, best);
        v = at + 1;
    }
    entry.max(best)
}

// Rule 5: the shift after a round that ended where the state stands. Without a closing byte no word is looked at.
pub fn shift(scan: &Scan, tables: &Tables, closing: Option<u8>) -> usize
    requires { Goes (tables_of tables.now) scan.now }
    ensures { let t = tables_of tables.now in
        result ≡ shift_from t scan.now.count scan.now.shortest scan.now.node (option_of closing) }
{
    let node = scan.node;
    let entry = usize::from(tables.shift[node]);
    let by = match closing {
        Some(x) => all_least(tables, scan.count, scan.shortest, scan.depth, x, entry),
        None => entry.max(1),
    };
    scan.shortest.min(by)
}
