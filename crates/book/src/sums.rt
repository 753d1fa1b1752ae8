// What a reader keeps of the tokens so far.
ghost use Rattle.std.specs.Prelude.{◌≡◌, ◌||◌, List, [], ◌∷◌, ◌++◌, ℕ, ◌+◌, ◌≤◌, ◌<◌, leb, ltb, length};
ghost use Rattle.rules.specs.Words.{words_of};
ghost use Rattle.rules.specs.Tokens.{total};
ghost use Rattle.book.specs.Book.{max_tokens, max_bodies, max_body};
ghost use Rattle.book.specs.Answers.{Amounts};

use crate::{Book, Totals};

impl Totals {
    // Whether one token more, with so many bytes in its words, is over a limit.
    pub(crate) fn over(self, bytes: usize) -> bool
        requires { (self.bodies ≤ max_bodies) × (bytes ≤ max_body + max_body) }
        ensures { result ≡ (leb max_tokens self.tokens || ltb max_bodies (self.bodies + bytes)) }
    {
        Book::TOKENS <= self.tokens || Book::BODIES < self.bodies + bytes
    }

    // With one token more, of `size` bytes, with so many in its words. The first one is both the shortest and the longest.
    pub(crate) fn with(self, size: usize, bytes: usize) -> Totals
        requires { (self.tokens < max_tokens) × (self.bodies + bytes ≤ max_bodies) }
        ensures { (ts : List (List ℕ)) (t : List ℕ) → Amounts self ts → size ≡ length t → bytes ≡ total (words_of t) → Amounts result (ts ++ (t ∷ [])) }
    {
        if self.tokens == 0 {
            return Totals {
                tokens: 1,
                bodies: bytes,
                shortest: size,
                longest: size,
            };
        }
        Totals {
            tokens: self.tokens + 1,
            bodies: self.bodies + bytes,
            shortest: self.shortest.min(size),
            longest: self.longest.max(size),
        }
    }
}
