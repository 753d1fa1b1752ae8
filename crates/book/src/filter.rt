// The filter before the repeat test (a Bloom filter with one hash): 1,024 marks, of which each body so far has set the one at its hash. A
// body whose mark is not set is new; a mark that another body set costs a search, never an answer. No byte of a body is kept.
ghost use Rattle.std.specs.Prelude.{◌≡◌, ◌<◌};
ghost use Rattle.book.specs.Filter.{marks, hash, is_marked, marked};

const MARKS: usize = 1024;

// A cell holds 64 marks.
pub const CELLS: usize = MARKS / 64;

// A hash is made of at most so many bytes at each end.
const NEAR: usize = 8;

// A number below 1,024, from the body's length and at most eight pairs of its bytes, from both ends inwards: reversing the bytes does not
// change it.
pub fn hash(body: &[u8]) -> usize
    ensures { (result ≡ hash body.now) × (result < marks) }
{
    let pairs = NEAR.min(body.len() - body.len() / 2);
    let mut sum = body.len() % MARKS;
    for i in 0..pairs {
        let opposite = body.len() - 1 - i;
        sum = (37 * sum + usize::from(body[i]) + usize::from(body[opposite])) % MARKS;
    }
    sum
}

// Sets mark `n`, and answers whether it was set.
pub fn mark(filter: &mut [u64; CELLS], n: usize) -> bool
    requires { n < marks }
    ensures { (result ≡ is_marked filter.old n) × (filter.new ≡ marked filter.old n) }
{
    let cell = n / 64;
    let bit = 1u64 << (n % 64);
    let old = filter[cell];
    filter[cell] = old | bit;
    0 < old & bit
}
