// Rule 5's byte shift straight from the records of the book.
ghost use Rattle.std.specs.Prelude.{◌≤◌, ◌≡◌, reverse, length};
ghost use Rattle.std.proofs.Math.Option.{some};
ghost use Rattle.rules.specs.Lists.{over};
ghost use Rattle.rules.specs.Words.{words_of};
ghost use Rattle.rules.specs.Tokens.{byte_shift};
ghost use Rattle.agree.specs.Tests.{byte_test, least_of};
ghost use Rattle.image.specs.Rule5.{words_in, Accepted};

use agree::byte_least;
use book::words::has_reverse;

// The longest card number.
const CARD: usize = 10;

// Writes the body's bytes in reverse from the front on. By hand: the library's `reverse` stays a call here, and with it a sweep of 64 KiB for
// 256 tokens of 7 bytes was slower by more than a tenth.
fn reverse_into(body: &[u8], into: &mut [u8; CARD])
    requires { (length body.now ≤ 10) × (length into.old ≡ 10) }
    ensures { into.new ≡ over (reverse body.now) into.old }
{
    let mut i = 0;
    while i < body.len() {
        into[i] = body[body.len() - 1 - i];
        i += 1;
    }
}

// The smallest s from 1 below `best` at which a word of the body fits the byte x left of `depth` matched ones, or `best`.
fn byte_words(body: &[u8], depth: usize, x: u8, best: usize) -> usize
    requires { 1 ≤ best }
    ensures { result ≡ least_of (byte_test depth x) (words_of body.now) best }
{
    let own = byte_least(body, depth, x, best);
    if !has_reverse(body) {
        return own;
    }
    let mut word = [0u8; CARD];
    reverse_into(body, &mut word);
    byte_least(&word[..body.len()], depth, x, own)
}

// The byte shift of the byte x left of `depth` matched ones, token by token: the words of each are searched below the best so far, until
// it is 1, which none lowers.
pub fn byte_shift(book: &[u8], depth: usize, x: u8, shortest: usize) -> usize
    requires { Accepted book.now shortest }
    ensures { result ≡ byte_shift (words_in book.now) shortest depth (some x) }
{
    let mut best = shortest;
    for body in book::bodies(book) {
        if best <= 1 {
            break;
        }
        best = byte_words(body, depth, x, best);
    }
    best
}
