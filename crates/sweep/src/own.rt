// The sweep with tables of its own.
ghost use Rattle.std.specs.Prelude.{◌≤◌, length};
ghost use Rattle.book.specs.Book.{max_image};
ghost use Rattle.sweep.specs.Program.{Accepted, Answered};

use crate::hits::Hits;
use book::Book;
use image::{Found, HitsMut, Refusal};
use trie::TablesMut;

// A node for each body byte of a book, and the root.
const NODES: usize = 1 + Book::BODIES;

// The tables are long enough for every book that is accepted.
pub fn sweep(book: &[u8], image: &[u8], hits: &mut Hits) -> Result<Found, Refusal>
    requires { Accepted book.now × (length image.now ≤ max_image) }
    ensures { Answered book.now image.now result hits.old.ends hits.old.tokens hits.new.ends hits.new.tokens }
{
    let mut parent = [0; NODES];
    let mut label = [0; NODES];
    let mut token = [0; NODES];
    let mut first = [0; NODES];
    let mut next = [0; NODES];
    let mut shift = [0; NODES];
    let mut tables = TablesMut {
        parent: &mut parent,
        label: &mut label,
        token: &mut token,
        first: &mut first,
        next: &mut next,
        shift: &mut shift,
    };
    let mut buffers = HitsMut {
        ends: &mut hits.ends,
        tokens: &mut hits.tokens,
    };
    image::sweep_image(book, image, &mut tables, &mut buffers)
}
