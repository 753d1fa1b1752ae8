// Walks of the words without their last s bytes, from the right down the tree: each node that is met is lowered to s.
ghost use Rattle.std.specs.Prelude.{◌≡◌, List, reverse, ℕ, ◌-◌, ◌≤◌, ◌<◌, length, get_or};
ghost use Rattle.rules.specs.Words.{words_of, all_words};
ghost use Rattle.rules.specs.Tokens.{shortened};
ghost use Rattle.book.specs.Book.{read_book, accepted};
ghost use Rattle.trie.specs.Filling.{lowered, lows, walked_at, word_walked, words_walked};
ghost use Rattle.trie.specs.Filling.{head_at, NextMet, Shortest};
ghost use Rattle.trie.specs.Lent.{word_of, child_in, MayWalk};

use crate::Tables;
use crate::chain::child;
use crate::insert::Word;
use book::words::has_reverse;

// What all walks go by: the tree, how many nodes it has, the root's children by label, and S.
#[derive(Drop)]
pub struct Walks<'a> {
    pub tree: Tables<'a>,
    pub count: usize,
    pub kids: [u16; 256],
    pub shortest: usize,
}

// Lowers the entry of node v to s.
pub fn lower(table: &mut [u16], v: usize, s: usize)
    requires { (v < length table.old) × (s < 65536) }
    ensures { table.new ≡ lowered table.old v s }
{
    if s < usize::from(table[v]) {
        table[v] = s as u16;
    }
}

impl Walks<'_> {
    // The next shift from s on, below S, at which the root has a child for the last byte that is left of the word; or S.
    fn next_met(&self, word: Word<'_>, s: usize) -> usize
        requires { (s ≤ self.now.shortest) × (self.now.shortest ≤ length word.body.now) × (length self.now.kids ≡ 256) }
        ensures { NextMet self.now.kids (word_of word.entry) s self.now.shortest result }
    {
        for at in s..self.shortest {
            let x = word.from_end(at);
            if self.kids[usize::from(x)] != 0 {
                return at;
            }
        }
        self.shortest
    }

    // A walk at s, by the word without its last s bytes: down from the root's child for the last of them, which is there. The loop counts the
    // bytes that are left: counting up from s + 1 took a quarter more instructions for the costliest book. Inlined: see `walk_word`.
    #[inline(always)]
    fn walk_at(&self, word: Word<'_>, s: usize, met: &mut [u16], whole: &mut [u16])
        requires walks { MayWalk self.now met.old whole.old }
        requires head { (s < length word.body.now) × (s < 65536) × (head_at self.now.kids (word_of word) s ≡ 0 → ⊥) }
        ensures { lows met.new whole.new
            ≡ walked_at (child_in self.now) s
            (reverse (shortened (word_of word.entry) s)) 0 (lows met.old whole.old) }
    {
        let mut node = usize::from(self.kids[usize::from(word.from_end(s))]);
        lower(met, node, s);
        let last = word.body.len() - 1;
        for left in (0..last - s).rev() {
            match child(&self.tree, self.count, node, word.from_end(last - left)) {
                None => return,
                Some(v) => {
                    lower(met, v, s);
                    node = v;
                }
            }
        }
        lower(whole, node, s);
    }

    // The walks of one word at the shifts from 1 below S. Inlined as `walk_at` is, so that where each table lies is not read through `self`
    // after each node that is lowered.
    #[inline(always)]
    fn walk_word(&self, word: Word<'_>, met: &mut [u16], whole: &mut [u16])
        requires walks { MayWalk self.now met.old whole.old }
        requires short { (1 ≤ self.now.shortest) × (self.now.shortest ≤ length word.body.now) × (self.now.shortest < 65536) }
        requires bytes { (j : ℕ) → get_or word.body.now j 0 < 256 }
        ensures { lows met.new whole.new
            ≡ word_walked (child_in self.now) (word_of word.entry) 1 (self.now.shortest - 1) (lows met.old whole.old) }
    {
        let mut s = 1;
        // By hand, since a turn goes on behind the shift that it found.
        while s < self.shortest {
            let at = self.next_met(word, s);
            if at == self.shortest {
                return;
            }
            self.walk_at(word, at, met, whole);
            s = at + 1;
        }
    }

    // Those of the words of a body.
    fn walk_words(&self, body: &[u8], met: &mut [u16], whole: &mut [u16])
        requires walks { MayWalk self.now met.old whole.old }
        requires short { (1 ≤ self.now.shortest) × (self.now.shortest ≤ length body.now) × (self.now.shortest < 65536) }
        ensures { lows met.new whole.new
            ≡ words_walked (child_in self.now) self.now.shortest (words_of body.now) (lows met.old whole.old) }
    {
        let own = Word {
            body,
            reversed: false,
        };
        self.walk_word(own, met, whole);
        if has_reverse(body) {
            let reverse = Word {
                body,
                reversed: true,
            };
            self.walk_word(reverse, met, whole);
        }
    }

    // Those of all words of the book, body by body.
    pub fn walk_book(&self, book: &[u8], met: &mut [u16], whole: &mut [u16])
        requires walks { MayWalk self.now met.old whole.old }
        requires book { Shortest book.now self.now.shortest }
        ensures { (ts : List (List ℕ)) → read_book book.now ≡ accepted ts
            → lows met.new whole.new
            ≡ words_walked (child_in self.now) self.now.shortest (all_words ts) (lows met.old whole.old) }
    {
        for body in book::bodies(book) {
            self.walk_words(body, met, whole);
        }
    }
}
