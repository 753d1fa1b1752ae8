// The words of a body: its bytes and, for a card number, their reverse. They are compared where they stand.
ghost use Rattle.std.specs.Prelude.{◌≡◌, reverse};
ghost use Rattle.rules.specs.Lists.{same};
ghost use Rattle.rules.specs.Words.{is_card, has_reverse, words_of, is_word};
ghost use Rattle.rules.specs.Tokens.{total};

// Whether bodies of so many bytes are card numbers.
fn is_card(len: usize) -> bool
    ensures { result ≡ is_card len }
{
    matches!(len, 4 | 7 | 10)
}

// Whether a holds the bytes of b in reverse. By hand, since `a.iter().eq(b.iter().rev())`, tried and proved, is a seventh slower in `contains`.
fn mirrors(a: &[u8], b: &[u8]) -> bool
    ensures { result ≡ same a.now (reverse b.now) }
{
    if b.len() != a.len() {
        return false;
    }
    let mut k = 0;
    while k < b.len() {
        if a[k] != b[b.len() - 1 - k] {
            return false;
        }
        k += 1;
    }
    true
}

// Whether the reverse of the body is a second word.
pub fn has_reverse(body: &[u8]) -> bool
    ensures { result ≡ has_reverse body.now }
{
    is_card(body.len()) && !mirrors(body, body)
}

// Whether a is a word of b.
pub fn is_word(a: &[u8], b: &[u8]) -> bool
    ensures { result ≡ is_word a.now b.now }
{
    a == b || is_card(a.len()) && mirrors(a, b)
}

// How many bytes the body's words have.
pub fn weight(body: &[u8]) -> usize
    ensures { result ≡ total (words_of body.now) }
{
    if has_reverse(body) {
        return body.len() + body.len();
    }
    body.len()
}
