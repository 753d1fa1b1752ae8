// What is swept.
ghost use Rattle.std.specs.Prelude.{◌≤◌, ◌≡◌, length};
ghost use Rattle.sweep.specs.Program.{image_limit, Known};

use crate::lines::Line;
use book::Totals;

// An image within its limit for the tokens of a book that is accepted, with the book's totals.
#[derive(Clone, Copy)]
pub struct Job<'a> {
    pub book: &'a [u8],
    pub image: &'a [u8],
    pub totals: Totals,
    ghost known: { Known book.now totals },
    ghost short: { length image.now ≤ image_limit },
}

impl Job<'_> {
    ghost use Rattle.sweep.specs.declared.lines.Line.TheVariants.{Image};

    // The first line of a sweep.
    pub fn first_line(&self) -> Line
        ensures { result ≡ Image (length self.now.image.now) self.now.totals.tokens }
    {
        Line::Image(self.image.len(), self.totals.tokens)
    }
}
