// The tree tables: the walk along a node's children, the test that tables are a tree, and their building from a book.
// Tables are always lent in the order parent, label, token, first child, next sibling, shift.
#![tactic(auto)]

mod breaks;
pub mod chain;
mod climbs;
pub mod entries;
mod fill;
mod grow;
mod insert;
mod lent;
mod shifts;
mod walks;

ghost use Rattle.std.specs.Prelude.{◌≡◌};
ghost use Rattle.tables.specs.Tables.{build};
ghost use Rattle.trie.specs.Answers.{break_of, refusal_of, answer_of};
ghost use Rattle.trie.specs.Lent.{written_of, SameMemory};

use book::{Numbered, Outcome};
pub use breaks::first_break;
use fill::fill;
pub use lent::{Tables, TablesMut};
use shifts::fill_shifts;

// Refusal 9: the first node that breaks the tables, or the length of a table that is too short.
#[derive(Clone, Copy)]
pub struct Broken {
    pub node: usize,
}

impl Broken {
    pub fn numbered(self) -> Numbered
        ensures { (result.number ≡ (break_of self).0) × (result.value ≡ (break_of self).1) }
    {
        Numbered {
            number: 9,
            value: self.node,
        }
    }
}

impl Outcome for Broken {
    ghost numbers = { break_of };

    fn numbered(self) -> Numbered {
        Broken::numbered(self)
    }
}

// The number of nodes, S and D.
#[derive(Clone, Copy)]
pub struct Sizes {
    pub nodes: usize,
    pub shortest: usize,
    pub longest: usize,
}

// Why nothing is built: the book's refusal, or refusal 7 with the length that was wanted.
#[derive(Clone, Copy)]
pub enum Refusal {
    Unread(book::Refusal),
    TooShort(usize),
}

impl Refusal {
    pub fn numbered(self) -> Numbered
        ensures { (result.number ≡ (refusal_of self).0) × (result.value ≡ (refusal_of self).1) }
    {
        match self {
            Refusal::Unread(why) => why.numbered(),
            Refusal::TooShort(room) => Numbered {
                number: 7,
                value: room,
            },
        }
    }
}

impl Outcome for Refusal {
    ghost numbers = { refusal_of };

    fn numbered(self) -> Numbered {
        Refusal::numbered(self)
    }
}

impl From<book::Refusal> for Refusal {
    ghost use Rattle.std.specs.Prelude.{◌≡◌};
    ghost use Rattle.trie.specs.declared.Refusal.TheVariants.{Unread};

    ghost from_gives = { λ why r. r ≡ Unread why };

    fn from(why: book::Refusal) -> Refusal {
        Self::Unread(why)
    }
}

// The tables of a book, written from the front; what follows the last node stays, and on a refusal all of it.
pub fn build(book: &[u8], tables: &mut TablesMut) -> Result<Sizes, Refusal>
    ensures answer { record {
      answer = answer_of result;
      tables = written_of tables.new;
    }
        ≡ build book.now (written_of tables.old) }
    ensures lent { SameMemory tables.old tables.new }
{
    let totals = book::read(book)?;
    let room = 1 + totals.bodies;
    if tables.shared().shortest() < room {
        return Err(Refusal::TooShort(room));
    }
    let nodes = fill(book, tables);
    fill_shifts(
        book,
        tables.parent,
        tables.label,
        tables.first,
        tables.next,
        tables.shift,
        nodes,
        totals.shortest,
    );
    Ok(Sizes {
        nodes,
        shortest: totals.shortest,
        longest: totals.longest,
    })
}
