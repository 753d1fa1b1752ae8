// A round up to its shift.
ghost use Rattle.std.specs.Prelude.{◌*◌, ◌≤◌, ◌≡◌, ◌&&◌, eqb, ltb};
ghost use Rattle.book.specs.Book.{max_body};
ghost use Rattle.image.specs.Hits.{SameBuffers, NotedIn};
ghost use Rattle.image.specs.Walk.{KidsIn};
ghost use Rattle.image.specs.Runs.{FollowedIn};
ghost use Rattle.image.specs.Sweeping.{lowest_of, GivenIn, met_at, CachesIn, Begun, Ended};

use crate::caches::Caches;
use crate::given::Sweep;
use crate::hits::HitsMut;
use crate::runs::Runs;
use crate::walk::{Arrival, descend};
use book::Book;

// The leftmost place that a round at boundary b looked at.
fn lowest(b: usize, end: &Arrival) -> usize
    requires { end.now.depth ≤ b }
    ensures { result ≡ lowest_of b end.now.depth end.now.closing }
{
    match end.closing {
        None => b - end.depth,
        Some(_) => (b - end.depth).saturating_sub(1),
    }
}

// Whether nothing is remembered after a round that matched so much, when nothing was before: rule 6 for its own stretch.
pub fn forgets(used: usize, depth: usize, by: usize) -> bool
    requires { by ≤ max_body }
    ensures { result ≡ (eqb used 0 && ltb depth (4 * by)) }
{
    used == 0 && depth < 4 * by
}

// What a round came to: how deep it went, the leftmost place it looked at, its shift, and how many hits there are then.
#[derive(Clone, Copy)]
pub struct Outcome {
    pub depth: usize,
    pub low: usize,
    pub by: usize,
    pub hits: usize,
}

// A round at boundary b up to its shift, with `found` hits before it: rules 2, 3 and 5.
pub fn attempt(
    sweep: &Sweep,
    b: usize,
    found: usize,
    runs: &Runs,
    kept: &mut [u16; Book::BODY],
    caches: &mut Caches,
    hits: &mut HitsMut,
) -> Outcome
    requires given { GivenIn sweep.now }
    requires begun { Begun sweep.now.book.now sweep.now.image.now b found }
    requires kids { KidsIn sweep.now }
    requires followed { FollowedIn sweep.now runs.now }
    requires caches { CachesIn sweep.now caches.old }
    ensures ended { Ended sweep.now.book.now sweep.now.image.now b result }
    ensures hits { NotedIn hits.old found (met_at sweep.now.book.now sweep.now.image.now b) hits.new result.hits }
    ensures caches { CachesIn sweep.now caches.new }
    ensures lent { SameBuffers hits.old hits.new }
{
    let end = descend(sweep, b, runs, kept);
    let by = caches.shift(&end, sweep);
    caches.learn(&end, by);
    caches.learn_pair(sweep.image[b - 1], &end, by);
    let low = lowest(b, &end);
    Outcome {
        depth: end.depth,
        low,
        by,
        hits: hits.mark(found, b, kept, end.met),
    }
}
