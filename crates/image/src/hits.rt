// The hits that a sweep finds, in the buffers that are lent for them.
ghost use Rattle.std.specs.Prelude.{◌^◌, ◌≤◌, ◌≡◌, map, length};
ghost use Rattle.book.specs.Book.{max_image};
ghost use Rattle.image.specs.Walk.{newest};
ghost use Rattle.image.specs.Hits.{SameBuffers, NotedAt, NotedIn};

use book::Book;

// Of each hit its end and its token. As many are kept as both buffers have room for.
#[derive(Drop)]
pub struct HitsMut<'a> {
    pub ends: &'a mut [u32],
    pub tokens: &'a mut [u32],
}

impl HitsMut<'_> {
    // A hit's end and token, if both buffers have room for it.
    fn put(&mut self, i: usize, end: usize, number: u16)
        requires { end ≤ max_image }
        ensures noted { NotedAt self.old i end number self.new }
        ensures lent { SameBuffers self.old self.new }
    {
        if i < self.ends.len() && i < self.tokens.len() {
            self.ends[i] = end as u32;
            self.tokens[i] = u32::from(number);
        }
    }

    // Rule 3: the hits of a round at boundary b, by the tokens that it met, the longest first, put into the buffers behind the `n` before
    // them. Answers how many there are then.
    pub(crate) fn mark(&mut self, n: usize, b: usize, kept: &[u16; Book::BODY], met: usize) -> usize
        requires numbers { (b ≤ max_image) × (n ≤ 2 ^ 36) × (met ≤ length kept.now) }
        ensures noted { NotedIn self.old n (map (λ i. (b, i)) (newest kept.now met)) self.new result }
        ensures lent { SameBuffers self.old self.new }
    {
        let mut n = n;
        for left in (0..met).rev() {
            self.put(n, b, kept[left]);
            n += 1;
        }
        n
    }
}
