// The kinds of records, and the bodies of those that follow one another.
ghost use Rattle.std.specs.Prelude.{◌≡◌, ◌≤◌, List, ℕ};
ghost use Rattle.std.specs.Iterator.{YieldsFirstRef, item_count};
ghost use Rattle.book.specs.Book.{body_length, bodies_in};

use crate::body_at;
use std::marker::Model;

// The bodies of the records that follow one another, up to where none with a body stands. A contract sees those that are left.
#[derive(Drop)]
pub struct Bodies<'a> {
    rest: &'a [u8],
}

impl<'a> Model for Bodies<'a> {
    ghost Value = { List (List ℕ) };

    ghost view = { λ s. bodies_in s.rest.now };
}

impl<'a> Bodies<'a> {
    pub(crate) fn new(book: &'a [u8]) -> Bodies<'a>
        ensures { result ≡ bodies_in book.now }
    {
        Bodies { rest: book }
    }
}

impl<'a> Iterator for Bodies<'a> {
    type Item = &'a [u8];

    ghost next_gives = { YieldsFirstRef (λ left. left) };

    ghost remaining = { item_count (λ left. left) };

    fn next(&mut self) -> Option<&'a [u8]> {
        let rest = self.rest;
        let size = body_at(rest, 0);
        if size == 0 {
            return None;
        }
        let end = 1 + size;
        self.rest = &rest[end..];
        Some(&rest[1..end])
    }
}

// The body's length for a kind up to 44h.
pub(crate) fn body_length(kind: u8) -> usize
    requires { kind ≤ 68 }
    ensures { result ≡ body_length kind }
{
    match kind {
        0x41 => 128,
        0x42 => 256,
        0x43 => 512,
        0x44 => 1024,
        _ => usize::from(kind),
    }
}
