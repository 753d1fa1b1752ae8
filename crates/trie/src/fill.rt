// All tokens of an accepted book into lent tables.
ghost use Rattle.std.specs.Prelude.{◌≡◌, List, ℕ};
ghost use Rattle.book.specs.Book.{read_book, accepted};
ghost use Rattle.trie.specs.Lent.{written_of, SameMemory};
ghost use Rattle.trie.specs.InPlace.{filled, Fillable};

use crate::TablesMut;
use crate::insert::insert_words;

// The root, and then the book's tokens in order. The number of nodes.
pub fn fill(book: &[u8], tables: &mut TablesMut) -> usize
    requires { Fillable book.now (written_of tables.old) }
    ensures tables { (ts : List (List ℕ)) → read_book book.now ≡ accepted ts
        → record {
          tables = written_of tables.new;
          count = result;
        }
        ≡ filled ts (written_of tables.old) }
    ensures lent { SameMemory tables.old tables.new }
{
    tables.parent[0] = 0;
    tables.label[0] = 0;
    tables.token[0] = 0;
    tables.first[0] = 0;
    tables.next[0] = 0;
    let mut count = 1;
    let mut number = 1;
    for body in book::bodies(book) {
        count = insert_words(body, tables, count, number);
        number += 1;
    }
    count
}
