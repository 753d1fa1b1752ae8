// Remembered stretches, by their places alone: the image at hand has their bytes.
ghost use Rattle.std.specs.Prelude.{◌^◌, ◌≤◌, ◌<◌, ◌≡◌, ◌&&◌, ltb, [], length};
ghost use Rattle.rules.specs.Rules.{left_over, cut, kept};
ghost use Rattle.rules.specs.Stretches.{loose, Lies, staying};
ghost use Rattle.image.specs.Spans.{placed, in_use, renewed, Fits};

// A stretch: the places from left up to right, right not included. The scan state's have a node besides, and stand in a crate that this one
// does not know: one type for both would need a third crate for two tests of a line.
#[derive(Clone, Copy)]
pub struct Span {
    pub left: usize,
    pub right: usize,
}

impl Span {
    // Rule 6: it is kept at boundary b.
    fn keeps(self, b: usize) -> bool
        requires { Lies b (placed self) }
        ensures { result ≡ kept b (placed self) }
    {
        4 * (b - self.right) <= self.right - self.left
    }

    // Rules 4 and 6: it is left over and kept.
    fn stays(self, from: usize, next: usize) -> bool
        requires { Lies next (placed self) }
        ensures { result ≡ (ltb self.left from && kept next (placed self)) }
    {
        self.left < from && self.keeps(next)
    }
}

// The stretches by rising place; of the slots those in use come first. (Libraries have no heap, so it is no vector.)
#[derive(Drop)]
pub struct Spans {
    pub slots: [Span; 5],
    pub used: usize,
}

impl Spans {
    // Nothing is remembered.
    pub fn none() -> Spans
        ensures { (in_use result ≡ []) × (result.used ≡ 0) }
    {
        Spans {
            slots: [Span { left: 0, right: 0 }; 5],
            used: 0,
        }
    }

    // How many places from q up to b lie in none of the stretches.
    pub fn loose(&self, q: usize, b: usize) -> usize
        requires fits { Fits b self.now }
        requires numbers { (q ≤ b) × (b < 2 ^ 32) }
        ensures { result ≡ loose b q (in_use self.now) }
    {
        let mut from = q;
        let mut n = 0;
        for s in &self.slots[..self.used] {
            n += s.left.saturating_sub(from);
            from = from.max(s.right);
        }
        n + (b - from)
    }

    // Rule 4: where the new stretch begins, at `from` or at the right edge of the nearest stretch left over.
    fn edge(&self, from: usize) -> usize
        requires { self.now.used ≤ 5 }
        ensures { result ≡ cut from (left_over from (in_use self.now)) }
    {
        let mut far = from;
        for s in &self.slots[..self.used] {
            if s.left < from {
                far = far.max(s.right);
            }
        }
        far
    }

    // Rules 4 and 6: the stretches that are left over and kept, moved to the front. Answers how many there are, and leaves `used` to
    // `remember`.
    fn hold(&mut self, from: usize, next: usize) -> usize
        requires { Fits next self.old }
        ensures { (in_use (record { slots = self.new.slots; used = result }) ≡ staying from next (in_use self.old)) × (result ≤ 5) }
    {
        let mut n = 0;
        for i in 0..self.used {
            let s = self.slots[i];
            if s.stays(from, next) {
                self.slots[n] = s;
                n += 1;
            }
        }
        n
    }

    // Rules 4 and 6: what is remembered after a round that matched from place `from` up to b, when the boundary moves to `next`.
    pub fn remember(&mut self, from: usize, b: usize, next: usize)
        requires fits { Fits b self.old }
        requires numbers { (from ≤ b) × (b ≤ next) × (next < 2 ^ 32) }
        requires few { length (renewed from b next (in_use self.old)) ≤ 5 }
        ensures { (in_use self.new ≡ renewed from b next (in_use self.old)) × (self.new.used ≤ 5) }
    {
        let new = Span {
            left: self.edge(from),
            right: b,
        };
        let mut used = self.hold(from, next);
        if new.keeps(next) {
            self.slots[used] = new;
            used += 1;
        }
        self.used = used;
    }
}
