// A token into lent tables: the bytes of each of its words from the last leftwards, and its number at the node they lead to.
ghost use Rattle.std.specs.Prelude.{◌≡◌, reverse, ℕ, ◌+◌, ◌-◌, ◌<◌, length, get_or};
ghost use Rattle.rules.specs.Words.{words_of};
ghost use Rattle.rules.specs.Tokens.{total};
ghost use Rattle.trie.specs.Lent.{written_of, word_of, SameMemory};
ghost use Rattle.trie.specs.InPlace.{Ready, placed, numbered, placed_words};

use crate::TablesMut;
use crate::grow::{Place, step};
use book::words::has_reverse;

// A body in book order, or reversed.
#[derive(Clone, Copy)]
pub struct Word<'a> {
    pub body: &'a [u8],
    pub reversed: bool,
}

impl Word<'_> {
    // Its byte i, from the last leftwards.
    pub fn from_end(self, i: usize) -> u8
        requires { i < length self.body.now }
        ensures { result ≡ get_or (word_of self.entry) (length self.entry.body.now - 1 - i) 0 }
    {
        if self.reversed {
            return self.body[i];
        }
        self.body[self.body.len() - 1 - i]
    }
}

// One word, where `count` nodes are there. The number of nodes then. There is room for what there was room for beside the word.
fn insert(word: Word<'_>, tables: &mut TablesMut, count: usize, number: usize) -> usize
    requires { Ready (written_of tables.old) count 0 (length word.body.now) × (number < 65536) }
    ensures tables { record {
      tables = written_of tables.new;
      count = result;
    }
        ≡ numbered (placed (written_of tables.old) count 0 (reverse (word_of word.entry))) number }
    ensures lent { SameMemory tables.old tables.new }
    ensures ready { (j : ℕ) → Ready (written_of tables.old) count 0 (length word.entry.body.now + j)
        → Ready (written_of tables.new) result 0 j }
{
    let mut place = Place { count, node: 0 };
    for i in 0..word.body.len() {
        place = step(tables, place, word.from_end(i));
    }
    tables.token[place.node] = number as u16;
    place.count
}

// The words of a body, each with the token's number; `count` nodes are there. The number of nodes then.
pub fn insert_words(body: &[u8], tables: &mut TablesMut, count: usize, number: usize) -> usize
    requires { Ready (written_of tables.old) count 0 (total (words_of body.now)) × (number < 65536) }
    ensures tables { record {
      tables = written_of tables.new;
      count = result;
    }
        ≡ placed_words (written_of tables.old) count number (words_of body.now) }
    ensures lent { SameMemory tables.old tables.new }
{
    let both = has_reverse(body);
    let own = Word {
        body,
        reversed: false,
    };
    let nodes = insert(own, tables, count, number);
    if !both {
        return nodes;
    }
    let reverse = Word {
        body,
        reversed: true,
    };
    insert(reverse, tables, nodes, number)
}
