// The test for a repeat: the later body against the body of each record before it, where they stand, if the filter does not tell that it is
// new.
ghost use Rattle.std.specs.Prelude.{◌≡◌, [], ◌∷◌, ◌++◌};
ghost use Rattle.rules.specs.Lists.{any_of};
ghost use Rattle.rules.specs.Words.{is_word};
ghost use Rattle.book.specs.Book.{bodies_in};
ghost use Rattle.book.specs.Filter.{Covers};

use crate::contains;
use crate::filter::{CELLS, hash, mark};

// Whether the body is a word of one of the earlier records; the filter, which has the marks of those, then has its mark too.
pub fn repeated(earlier: &[u8], body: &[u8], filter: &mut [u64; CELLS]) -> bool
    ensures { Covers filter.old (bodies_in earlier.now)
        → (result ≡ any_of (is_word body.now) (bodies_in earlier.now)) × Covers filter.new (bodies_in earlier.now ++ (body.now ∷ [])) }
{
    mark(filter, hash(body)) && contains(earlier, body)
}
