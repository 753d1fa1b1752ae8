// Two books as one: all tokens of the first, then those of the second that the first lacks.
#![tactic(auto)]

mod survey;
mod write;

ghost use Rattle.std.specs.Prelude.{◌≡◌, Err};
ghost use Rattle.book.specs.Book.{refusal_in, bodies_in};
ghost use Rattle.merge.specs.Merge.{verdict, join, merge};
ghost use Rattle.merge.specs.Answers.{answer_of};
ghost use Rattle.merge.specs.Steps.{Books};
ghost use Rattle.merge.specs.declared.Refusal.TheVariants.{Unread};

use book::{Numbered, Outcome, Totals};
use survey::survey;
use write::write;

// The first book's refusal; 13 with the number of the second book's; 5 with the record's place in the second book; or 14 with the length
// that was wanted.
#[derive(Clone, Copy)]
pub enum Refusal {
    Unread(book::Refusal),
    SecondUnread(usize),
    OverLimits(usize),
    TooShort(usize),
}

impl Refusal {
    pub fn numbered(self) -> Numbered
        ensures { (result.number ≡ (refusal_in (verdict (answer_of (Err self)))).0)
            × (result.value ≡ (refusal_in (verdict (answer_of (Err self)))).1) }
    {
        match self {
            Refusal::Unread(why) => why.numbered(),
            Refusal::SecondUnread(number) => Numbered {
                number: 13,
                value: number,
            },
            Refusal::OverLimits(place) => Numbered {
                number: 5,
                value: place,
            },
            Refusal::TooShort(length) => Numbered {
                number: 14,
                value: length,
            },
        }
    }
}

impl Outcome for Refusal {
    ghost numbers = { λ refusal. refusal_in (verdict (answer_of (Err refusal))) };

    fn numbered(self) -> Numbered {
        Refusal::numbered(self)
    }
}

// A book's refusal that is passed on is the first book's.
impl From<book::Refusal> for Refusal {
    ghost from_gives = { λ why refusal. refusal ≡ Unread why };

    fn from(why: book::Refusal) -> Self {
        Self::Unread(why)
    }
}

// The merged book, written from the front, and its length; what follows it stays, and on a refusal all of it.
pub fn merge(first: &[u8], second: &[u8], out: &mut [u8]) -> Result<usize, Refusal>
    ensures { record { answer = answer_of result; out = out.new } ≡ merge first.now second.now out.old }
{
    let totals = book::read(first)?;
    book::read(second).map_err(|why| Refusal::SecondUnread(why.numbered().number))?;
    join(first, totals, second, out)
}

// Both books are accepted: 5, 14, or the book is written.
fn join(first: &[u8], totals: Totals, second: &[u8], out: &mut [u8]) -> Result<usize, Refusal>
    requires { Books first.now second.now totals }
    ensures { record { answer = answer_of result; out = out.new }
        ≡ join (bodies_in first.now) (bodies_in second.now) out.old }
{
    let found = survey(first, totals, second)?;
    if out.len() < found.length {
        return Err(Refusal::TooShort(found.length));
    }
    write(first, second, &found.marks, out);
    Ok(found.length)
}
