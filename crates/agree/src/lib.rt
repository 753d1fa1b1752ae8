// Rule 5 for one word: where it stops fitting what is known of the image, and the smallest way to the right by which it fits a closing byte.
#![tactic(auto)]

ghost use Rattle.std.specs.Prelude.{◌-◌, ◌≡◌};
ghost use Rattle.rules.specs.Lists.{least};
ghost use Rattle.rules.specs.Tokens.{mismatch, fits};
ghost use Rattle.agree.specs.Tests.{byte_test};
ghost use Rattle.rules.specs.Options.{option_of};

// Tests the word, moved s to the right, against the known bytes, from the right: how many known bytes lie right of the first difference, or
// none where it fits. It fits where they do not overlap.
pub fn mismatch(body: &[u8], s: usize, known: &[u8]) -> Option<usize>
    ensures { option_of result ≡ mismatch known.now body.now s }
{
    if body.len() <= s {
        return None;
    }
    let left = body.len() - s;
    // By an index: `rev`, `zip` and `position`, tried and proved, made sweeps with many byte shifts slower by up to two fifths.
    let mut k = 0;
    while k < known.len() {
        if left <= k {
            return None;
        }
        if body[left - 1 - k] != known[known.len() - 1 - k] {
            return Some(k);
        }
        k += 1;
    }
    None
}

// Whether it fits them.
fn fits(body: &[u8], s: usize, known: &[u8]) -> bool
    ensures { result ≡ fits known.now body.now s }
{
    mismatch(body, s, known).is_none()
}

// The smallest s from 1 below `best` at which the word fits the byte x left of `depth` matched ones; `best` where there is none, and 1 where
// that is 0. Those of its bytes that can come to lie over x are left of its last `depth`.
pub fn byte_least(body: &[u8], depth: usize, x: u8, best: usize) -> usize
    ensures { result ≡ least (byte_test depth x body.now) 1 (best - 1) }
{
    if body.len() <= depth {
        return 1;
    }
    let left = &body[..body.len() - depth];
    let known = [x];
    // By hand, as a `find` over the range was slower too.
    let mut s = 1;
    while s < best {
        if fits(left, s, &known[..]) {
            return s;
        }
        s += 1;
    }
    s
}
