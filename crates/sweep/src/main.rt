// Sweeps image.bin for the tokens of book.bin, both in the folder it is run in, and lists all hits; or prints why it cannot.
#![tactic(auto)]

mod files;
mod hits;
mod job;
mod lines;
mod opening;
mod own;
mod parts;
mod pen;
mod reasons;

use book::Book;
use hits::{Hits, MOST};
use image::Refusal;
use job::Job;
use lines::Line;
use opening::LIMIT;
use pen::Pen;
use reasons::Failure;
use std::io;
use std::io::Write;
use std::rt::Files;

// As much of a book as can change its answer: at most 256 kinds and 16,384 body bytes are taken, and the next record is judged by its
// kind and at most 1,024 bytes more. `Prefix` proves it.
const BOOK: usize = Book::TOKENS + Book::BODIES + 1 + Book::BODY;

// One byte more than an image may have.
const IMAGE: usize = LIMIT + 1;

// Sweeps the whole image and lists the hits; where there are more than the buffers hold, by parts.
fn sweep<W: Write + Drop>(pen: &mut Pen<W>, job: &Job) -> io::Result<()> {
    let mut hits = Hits {
        ends: [0; MOST],
        tokens: [0; MOST],
    };
    match own::sweep(job.book, job.image, &mut hits) {
        Ok(found) => pen.whole(job, found, &hits),
        Err(Refusal::TooMany(found)) => parts::list(pen, job, found, &mut hits),
        Err(_) => unreachable!(),
    }
}

// The lines for a book and an image; a refusal is the only line.
fn answer<W: Write + Drop>(pen: &mut Pen<W>, book: &[u8], image: &[u8]) -> io::Result<()> {
    match opening::judge(book, image) {
        Ok(job) => sweep(pen, &job),
        Err(why) => pen.end(Line::Refused(why.numbered())),
    }
}

// Reads the image, and goes on with both.
fn read_image(rt: &(impl Files + Print), book: &[u8]) -> Result<(), Failure> {
    let mut image = [0; IMAGE];
    let n = files::read(rt, "image.bin", &mut image).map_err(Failure::Image)?;
    let mut pen = Pen::new(io::writer(rt));
    answer(&mut pen, book, &image[..n]).map_err(Failure::Lines)
}

// After a read that failed no line comes.
fn read_book(rt: &(impl Files + Print)) -> Result<(), Failure> {
    let mut book = [0; BOOK];
    let n = files::read(rt, "book.bin", &mut book).map_err(Failure::Book)?;
    read_image(rt, &book[..n])
}

fn main(rt: HostRuntime) {
    if let Err(failure) = read_book(&rt) {
        reasons::say(&rt, &failure);
    }
}
