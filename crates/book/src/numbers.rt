// What a call answers, in the numbers of the table of refusals.
ghost use Rattle.std.specs.Prelude.{◌≡◌, ℕ};

use crate::{Numbered, Refusal};

// A refusal has its number and value; an answer has those of its refusal, and 0 and 0 where nothing is refused.
pub trait Outcome {
    ghost numbers: { Self → ℕ × ℕ };

    fn numbered(self) -> Numbered
        ensures { (result.number ≡ (numbers self).0) × (result.value ≡ (numbers self).1) };
}

impl Outcome for Refusal {
    ghost use Rattle.book.specs.Answers.{refusal_of};

    ghost numbers = { refusal_of };

    fn numbered(self) -> Numbered {
        Refusal::numbered(self)
    }
}

impl<T: Drop, R: Outcome> Outcome for Result<T, R> {
    ghost use Rattle.book.specs.Book.{refusal_in};
    ghost use Rattle.book.specs.Answers.{answered_by};

    ghost numbers = { λ answer. refusal_in (answered_by R.numbers answer) };

    fn numbered(self) -> Numbered {
        match self {
            Ok(_) => Numbered {
                number: 0,
                value: 0,
            },
            Err(why) => why.numbered(),
        }
    }
}
