// The hits that a sweep found, as it wrote them.
ghost use Rattle.std.specs.Prelude.{◌+◌, ◌≤◌, ◌<◌, ◌≡◌, get_or};
ghost use Rattle.sweep.specs.Program.{image_limit};
ghost use Rattle.sweep.specs.declared.lines.Line.TheVariants.{Hit};

use crate::lines::Line;

// How many hits the buffers hold (`max_hits`).
pub const MOST: usize = 262144;

// Where each hit ends, and the number of its token: two arrays, as the sweep fills them, and of one size, since no memory is asked for that
// may not be there.
#[derive(Drop)]
pub struct Hits {
    pub ends: [u32; MOST],
    pub tokens: [u32; MOST],
}

// A part of the image, from one place up to another, and the number of its hits, which the buffers hold; the first `before` of them are
// listed already.
#[derive(Clone, Copy)]
pub struct Part {
    pub from: usize,
    pub to: usize,
    pub before: usize,
    pub hits: usize,
}

// An entry of a hit buffer; all hits that are listed have one.
fn entry(buffer: &[u32], at: usize) -> usize
    ensures { (result ≡ get_or buffer.now at 0) × (result < 4294967296) }
{
    buffer.get(at).map_or(0, |n| *n as usize)
}

impl Hits {
    // The line of the hit that the buffers hold as entry i, its end moved by `from`.
    pub fn line(&self, from: usize, i: usize) -> Line
        requires { from ≤ image_limit }
        ensures { result ≡ Hit (from + get_or self.now.ends i 0) (get_or self.now.tokens i 0) }
    {
        let end = from + entry(&self.ends, i);
        Line::Hit(end, entry(&self.tokens, i))
    }
}
