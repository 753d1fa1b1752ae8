// Which tokens of the second book the first lacks, and whether they fit.
ghost use Rattle.std.specs.Prelude.{◌≡◌, ◌||◌, ltb};
ghost use Rattle.book.specs.Book.{max_tokens, max_bodies, bodies_in};
ghost use Rattle.merge.specs.Steps.{Books, Surveyed};

use crate::Refusal;
use book::words::weight;
use book::{Book, Totals};

// For each token of the second book whether the first lacks it, and the length of the merged book.
#[derive(Clone, Copy)]
pub struct Marked {
    pub marks: [bool; Book::TOKENS],
    pub length: usize,
}

// The tokens of the second book in order, each compared where it stands with those of the first, whose totals are given. 5 where they pass
// the limits, with the record's place: so the records are gone through by their places.
pub fn survey(first: &[u8], totals: Totals, second: &[u8]) -> Result<Marked, Refusal>
    requires { Books first.now second.now totals }
    ensures { Surveyed (bodies_in first.now) (bodies_in second.now) result }
{
    let mut marks = [false; Book::TOKENS];
    let mut tokens = totals.tokens;
    let mut bodies = totals.bodies;
    let mut length = first.len();
    let mut at = 0;
    let mut i = 0;
    loop {
        let size = book::body_at(second, at);
        if size == 0 {
            return Ok(Marked { marks, length });
        }
        let start = at + 1;
        let end = start + size;
        let body = &second[start..end];
        let new = !book::contains(first, body);
        if new {
            tokens += 1;
            bodies += weight(body);
            length += 1 + size;
        }
        if too_large(tokens, bodies) {
            return Err(Refusal::OverLimits(at));
        }
        marks[i] = new;
        i += 1;
        at = end;
    }
}

// Whether so many tokens, or body bytes, are over the limits of a book.
fn too_large(tokens: usize, bodies: usize) -> bool
    ensures { result ≡ (ltb max_tokens tokens || ltb max_bodies bodies) }
{
    Book::TOKENS < tokens || Book::BODIES < bodies
}
