// Which line comes first.
ghost use Rattle.std.specs.Prelude.{◌≡◌, List, ℕ, suc, length, take, IfOk};
ghost use Rattle.sweep.specs.Program.{image_limit, opening};
ghost use Rattle.sweep.specs.Judged.{opening_of};
ghost use Rattle.book.specs.Book.{needed};

use crate::job::Job;
use image::Refusal;

// How many bytes an image may have.
pub const LIMIT: usize = 65536;

// A refusal, which is the only line; or what is swept. The book's refusals come first, then 8. The book and the image are given whole, or as
// much of their start as can change the answer.
pub fn judge<'a>(book: &'a [u8], image: &'a [u8]) -> Result<Job<'a>, Refusal>
    ensures opens { opening_of result ≡ opening book.now (length image.now) }
    ensures starts { (whole all : List ℕ) → book.now ≡ take needed whole → image.now ≡ take (suc image_limit) all
        → opening_of result ≡ opening whole (length all) }
    ensures same { IfOk result (λ job. (job.book.now ≡ book.now) × (job.image.now ≡ image.now)) }
{
    let totals = book::read(book)?;
    if LIMIT < image.len() {
        return Err(Refusal::TooLong(LIMIT));
    }
    Ok(Job {
        book,
        image,
        totals,
    })
}
