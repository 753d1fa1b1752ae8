// The revocation book: its limits, how it is read, what is refused, and where its tokens stand.
#![tactic(auto)]

mod filter;
mod numbers;
pub mod records;
mod repeats;
mod sums;
pub mod words;

ghost use Rattle.std.specs.Prelude.{◌≡◌, List, ℕ, ◌<◌, length};
ghost use Rattle.rules.specs.Lists.{any_of};
ghost use Rattle.rules.specs.Words.{is_word};
ghost use Rattle.book.specs.Book.{whole_at, bodies_in, closed, read_book, summary, place_in};
ghost use Rattle.book.specs.Answers.{Amounts, refusal_of, verdict_of, place_of};

use filter::CELLS;
pub use numbers::Outcome;
use records::{Bodies, body_length};
use repeats::repeated;
use words::{is_word, weight};

// The limits belong to the book itself.
#[derive(Clone, Copy)]
pub struct Book;

impl Book {
    pub const TOKENS: usize = 256;

    pub const BODIES: usize = 16384;

    pub const IMAGE: usize = 16777216;

    pub const BODY: usize = 1024;
}

// Document 01's refusals 1 to 6, each with its value.
#[derive(Clone, Copy)]
pub enum Refusal {
    Unfinished(usize),
    UnknownKind(usize),
    Trailing(usize),
    Repeat(usize),
    OverLimits(usize),
    NoToken,
}

// A refusal as document 01's table has it: its number and the value that is returned; both 0 where there is none.
#[derive(Clone, Copy)]
pub struct Numbered {
    pub number: usize,
    pub value: usize,
}

impl Refusal {
    pub fn numbered(self) -> Numbered
        ensures { (result.number ≡ (refusal_of self).0) × (result.value ≡ (refusal_of self).1) }
    {
        match self {
            Refusal::Unfinished(at) => Numbered {
                number: 1,
                value: at,
            },
            Refusal::UnknownKind(at) => Numbered {
                number: 2,
                value: at,
            },
            Refusal::Trailing(at) => Numbered {
                number: 3,
                value: at,
            },
            Refusal::Repeat(at) => Numbered {
                number: 4,
                value: at,
            },
            Refusal::OverLimits(at) => Numbered {
                number: 5,
                value: at,
            },
            Refusal::NoToken => Numbered {
                number: 6,
                value: 0,
            },
        }
    }
}

// How many tokens there are, all body bytes (those of all words), S and D.
#[derive(Clone, Copy, Default)]
pub struct Totals {
    pub tokens: usize,
    pub bodies: usize,
    pub shortest: usize,
    pub longest: usize,
}

// Where a token's body stands, and how many bytes it has.
#[derive(Clone, Copy)]
pub struct Place {
    pub at: usize,
    pub size: usize,
}

// The body's length of the record at `at`, or 0 where no whole record with a body stands there (no `Option`: C's `probe_body_at` answers 0).
pub fn body_at(book: &[u8], at: usize) -> usize
    ensures { result ≡ whole_at book.now at }
{
    if book.len() <= at {
        return 0;
    }
    let kind = book[at];
    if 0x44 < kind {
        return 0;
    }
    let size = body_length(kind);
    // As a difference, since a sum could wrap.
    if book.len() - at - 1 < size {
        return 0;
    }
    size
}

// The bodies of the records that follow one another from the book's start, where they stand.
pub fn bodies(book: &[u8]) -> Bodies<'_>
    ensures { result ≡ bodies_in book.now }
{
    Bodies::new(book)
}

// Whether this body is a word of one of the records that follow one another from the book's start. The bytes are compared where they stand.
pub fn contains(book: &[u8], body: &[u8]) -> bool
    ensures { result ≡ any_of (is_word body.now) (bodies_in book.now) }
{
    bodies(book).any(|other| is_word(body, other))
}

// Whether the book is accepted, and what its tokens amount to.
pub fn read(book: &[u8]) -> Result<Totals, Refusal>
    ensures { verdict_of result ≡ summary (read_book book.now) }
{
    let mut at = 0;
    let mut totals = Totals::default();
    let mut filter = [0u64; CELLS];
    // Not through `bodies`: what ends them is refused by its place.
    loop {
        if book.len() <= at {
            return Err(Refusal::Unfinished(book.len()));
        }
        let kind = book[at];
        if 0x44 < kind {
            return Err(Refusal::UnknownKind(at));
        }
        if kind == 0 {
            return finish(book, at, totals);
        }
        let size = body_length(kind);
        if book.len() - at - 1 < size {
            return Err(Refusal::Unfinished(at));
        }
        let end = at + 1 + size;
        let body = &book[at + 1..end];
        let bytes = weight(body);
        if totals.over(bytes) {
            return Err(Refusal::OverLimits(at));
        }
        if repeated(&book[..at], body, &mut filter) {
            return Err(Refusal::Repeat(at));
        }
        totals = totals.with(size, bytes);
        at = end;
    }
}

// After 00h at place `at`: 3, then 6.
fn finish(book: &[u8], at: usize, totals: Totals) -> Result<Totals, Refusal>
    requires { at < length book.now }
    ensures { (ts : List (List ℕ)) → Amounts totals ts → verdict_of result ≡ summary (closed book.now at ts) }
{
    if at + 1 < book.len() {
        return Err(Refusal::Trailing(at + 1));
    }
    if totals.tokens == 0 {
        return Err(Refusal::NoToken);
    }
    Ok(totals)
}

// Where the body of token number `i`, from 1, stands: past the records before it. None if the book has no such token.
pub fn token(book: &[u8], i: usize) -> Result<Option<Place>, Refusal>
    ensures { place_of result ≡ place_in (read_book book.now) i }
{
    let totals = read(book)?;
    if i == 0 || totals.tokens < i {
        return Ok(None);
    }
    // Not through `bodies`: the place is asked.
    let mut at = 0;
    for _ in 1..i {
        at += 1 + body_at(book, at);
    }
    Ok(Some(Place {
        at: at + 1,
        size: body_at(book, at),
    }))
}
