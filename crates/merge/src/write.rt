// Writing the merged book.
ghost use Rattle.std.specs.Prelude.{◌≡◌, ◌+◌, ◌≤◌, length};
ghost use Rattle.rules.specs.Lists.{over};
ghost use Rattle.book.specs.Book.{max_tokens, bodies_in};
ghost use Rattle.book.specs.Bytes.{book_of};
ghost use Rattle.merge.specs.Merge.{merged};
ghost use Rattle.merge.specs.Steps.{Marks, if_wanted, placed};

use book::Book;

// The records of the first book as they stand, those of the second whose tokens are marked, and 00h. A record is copied with its kind byte,
// so by its place.
pub fn write(first: &[u8], second: &[u8], marks: &[bool; Book::TOKENS], out: &mut [u8])
    requires first_value { first.now ≡ book_of (bodies_in first.now) }
    requires second_len_bound { (length (bodies_in second.now) ≤ max_tokens) × Marks (bodies_in first.now) (bodies_in second.now) marks.now }
    requires second_in_bounds { length (book_of (merged (bodies_in first.now) (bodies_in second.now))) ≤ length out.old }
    ensures { out.new ≡ over (book_of (merged (bodies_in first.now) (bodies_in second.now))) out.old }
{
    let closing = first.len() - 1;
    out[..closing].copy_from_slice(&first[..closing]);
    let mut to = closing;
    let mut at = 0;
    let mut i = 0;
    loop {
        let size = book::body_at(second, at);
        if size == 0 {
            break;
        }
        let end = at + 1 + size;
        to = put(&second[at..end], marks[i], out, to);
        at = end;
        i += 1;
    }
    out[to] = 0;
}

// A record's bytes at place `to` of the output, if they are wanted. Answers where they end.
fn put(part: &[u8], wanted: bool, out: &mut [u8], to: usize) -> usize
    requires { to + length (if_wanted wanted part.now) ≤ length out.old }
    ensures { (result ≡ to + length (if_wanted wanted part.now))
        × (out.new ≡ placed out.old to (if_wanted wanted part.now)) }
{
    if !wanted {
        return to;
    }
    let end = to + part.len();
    out[to..end].copy_from_slice(part);
    end
}
