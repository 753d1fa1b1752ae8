// The hits of an image by parts, for more of them than the buffers hold. `Parts` says what a part is and what is listed of it, and its
// laws that this is every hit of the image, in order.
ghost use Rattle.std.specs.Prelude.{ℕ, ◌+◌, ◌≤◌, ◌<◌, ◌≡◌, length, get_or};
ghost use Rattle.book.specs.Book.{accepted};
ghost use Rattle.image.specs.Rule5.{tokens_of};
ghost use Rattle.image.specs.Results.{swept_of};
ghost use Rattle.listing.specs.Parts.{part_from, part_to};
ghost use Rattle.sweep.specs.Listed.{Listing};

use crate::hits::{Hits, Part};
use crate::job::Job;
use crate::lines::Line;
use crate::own;
use crate::pen::Pen;
use image::{Found, Refusal};
use std::io;
use std::io::Write;

// The most bytes that a part may have, so that its hits fit the buffers: at most 68 tokens end at one place.
const PART: usize = 3855;

// Where the part begins that goes on from `at`.
fn begin(longest: usize, at: usize) -> usize
    requires { 1 ≤ longest }
    ensures { result ≡ part_from longest at }
{
    at.saturating_sub(longest - 1)
}

// Where a part of an image of n bytes ends that begins at `from`.
fn end(n: usize, from: usize) -> usize
    requires { from ≤ n }
    ensures { result ≡ part_to n from }
{
    from + PART.min(n - from)
}

// The number of hits.
fn number(answer: Result<Found, Refusal>) -> usize
    ensures { (n : ℕ) → swept_of answer ≡ accepted n → result ≡ n }
{
    answer.map_or(0, |found| found.hits)
}

// How many hits come before the first that ends past `upto`.
fn passed(ends: &[u32], upto: usize) -> usize
    ensures { (result ≤ length ends.now) × ((i : ℕ) → i < result → get_or ends.now i 0 ≤ upto) × (result < length ends.now → upto < get_or ends.now result 0) }
{
    ends.iter()
        .position(|end| upto < *end as usize)
        .unwrap_or(ends.len())
}

// Sweeps the part that goes on from `at`.
fn sweep(job: &Job, at: usize, hits: &mut Hits) -> Part
    requires { at < length job.now.image.now }
    ensures { Listing (tokens_of job.now.book.now) job.now.image.now at result hits.new.ends hits.new.tokens }
{
    let from = begin(job.totals.longest, at);
    let to = end(job.image.len(), from);
    let count = number(own::sweep(job.book, &job.image[from..to], hits));
    let before = passed(&hits.ends[..count], at - from);
    Part {
        from,
        to,
        before,
        hits: count,
    }
}

// Lists all hits of the image, part by part. The numbers of the last line are those that the sweep of the whole image answered.
pub fn list<W: Write + Drop>(
    pen: &mut Pen<W>,
    job: &Job,
    found: Found,
    hits: &mut Hits,
) -> io::Result<()> {
    pen.line(job.first_line())?;
    let mut at = 0;
    // By hand: each part says where the next one begins.
    while at < job.image.len() {
        let part = sweep(job, at, hits);
        pen.hits(hits, part)?;
        at = part.to;
    }
    pen.end(Line::End(found))
}
