// One node of the tables, through a view that borrows the book: its entries, and where its token's body stands in the book.
#![tactic(auto)]

ghost use Rattle.std.specs.Prelude.{◌≡◌};
ghost use Rattle.book.specs.Book.{read_book, place_in};
ghost use Rattle.trie.specs.Answers.{tables};
ghost use Rattle.trie.specs.Lent.{tables_of};
ghost use Rattle.view.specs.View.{body_of, node_of};

use book::Place;
use trie::Tables;

// A node's six entries, and the place and length of its token's body; 0 for what there is not.
#[derive(Clone, Copy)]
pub struct Node {
    pub parent: u16,
    pub label: u8,
    pub token: u16,
    pub first: u16,
    pub next: u16,
    pub shift: u16,
    pub place: usize,
    pub length: usize,
}

// Where the body of token number `i` stands.
fn body_of(book: &[u8], i: usize) -> Place
    ensures { result ≡ body_of (place_in (read_book book.now) i) }
{
    match book::token(book, i) {
        Ok(Some(place)) => place,
        _ => Place { at: 0, size: 0 },
    }
}

// What the view shows of a node, from the book and the tables themselves.
pub fn node_of(book: &[u8], tables: &Tables, node: usize) -> Node
    ensures { result ≡ node_of book.now (tables_of tables.now) node }
{
    let token = tables.token.get(node).copied().unwrap_or(0);
    let body = body_of(book, usize::from(token));
    Node {
        parent: tables.parent.get(node).copied().unwrap_or(0),
        label: tables.label.get(node).copied().unwrap_or(0),
        token,
        first: tables.first.get(node).copied().unwrap_or(0),
        next: tables.next.get(node).copied().unwrap_or(0),
        shift: tables.shift.get(node).copied().unwrap_or(0),
        place: body.at,
        length: body.size,
    }
}

// The view holds the book; the tables are lent at each call.
#[derive(Clone, Copy)]
pub struct View<'a> {
    pub book: &'a [u8],
}

impl<'a> View<'a> {
    // A node's entries, and the place and length of its token's body in the book. The form of this call, with six slices, is fixed.
    pub fn node(
        self,
        parent: &[u16],
        label: &[u8],
        token: &[u16],
        first: &[u16],
        next: &[u16],
        shift: &[u16],
        node: usize,
    ) -> Node
        ensures { result ≡ node_of self.entry.book.now
            (tables parent.now label.now token.now
            first.now next.now shift.now) node }
    {
        let tables = Tables {
            parent,
            label,
            token,
            first,
            next,
            shift,
        };
        node_of(self.book, &tables, node)
    }
}
