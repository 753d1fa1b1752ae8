// Where a token of the book stops fitting an image, for who tunes a book.
#![tactic(auto)]

mod stands;

ghost use Rattle.std.specs.Prelude.{◌≡◌, Err};
ghost use Rattle.book.specs.Book.{refusal_in, read_book};
ghost use Rattle.fitting.specs.Fitting.{fit_in};
ghost use Rattle.fitting.specs.Answers.{fitting_of};
ghost use Rattle.fitting.specs.declared.Refusal.TheVariants.{Unread};

use book::{Book, Numbered, Outcome};
pub use stands::Fit;
use stands::fit_at;

// The book's refusal; 8 with the limit; 16, no token has the number; 17, the end lies beyond the image.
#[derive(Clone, Copy)]
pub enum Refusal {
    Unread(book::Refusal),
    TooLong(usize),
    NotInBook,
    BeyondImage,
}

impl Refusal {
    pub fn numbered(self) -> Numbered
        ensures { (result.number ≡ (refusal_in (fitting_of (Err self))).0) × (result.value ≡ (refusal_in (fitting_of (Err self))).1) }
    {
        match self {
            Refusal::Unread(why) => why.numbered(),
            Refusal::TooLong(most) => Numbered {
                number: 8,
                value: most,
            },
            Refusal::NotInBook => Numbered {
                number: 16,
                value: 0,
            },
            Refusal::BeyondImage => Numbered {
                number: 17,
                value: 0,
            },
        }
    }
}

impl Outcome for Refusal {
    ghost numbers = { λ refusal. refusal_in (fitting_of (Err refusal)) };

    fn numbered(self) -> Numbered {
        Refusal::numbered(self)
    }
}

impl From<book::Refusal> for Refusal {
    ghost from_gives = { λ why refusal. refusal ≡ Unread why };

    fn from(why: book::Refusal) -> Self {
        Self::Unread(why)
    }
}

// How far token number `token`, in book order and with its right edge at `end`, agrees with the image. 8 comes before 16 too.
pub fn fit(book: &[u8], image: &[u8], token: usize, end: usize) -> Result<Fit, Refusal>
    ensures { fitting_of result ≡ fit_in (read_book book.now) image.now token end }
{
    let place = book::token(book, token)?;
    if Book::IMAGE < image.len() {
        return Err(Refusal::TooLong(Book::IMAGE));
    }
    let Some(place) = place else {
        return Err(Refusal::NotInBook);
    };
    if image.len() < end {
        return Err(Refusal::BeyondImage);
    }
    let body = &book[place.at..place.at + place.size];
    Ok(fit_at(body, image, end))
}
