// The rounds of a sweep, one after the other.
ghost use Rattle.std.specs.Prelude.{◌≡◌, length};
ghost use Rattle.whole.specs.Image.{room, hits_of, fetches_of, spares_of, noted};
ghost use Rattle.image.specs.Hits.{SameBuffers};
ghost use Rattle.image.specs.Walk.{KidsIn};
ghost use Rattle.image.specs.Rule5.{tokens_of};
ghost use Rattle.image.specs.Sweeping.{GivenIn};

use crate::Found;
use crate::caches::Caches;
use crate::given::Sweep;
use crate::hits::HitsMut;
use crate::runs::Runs;
use crate::spans::Spans;
use crate::turn::{attempt, forgets};
use book::Book;

// All rounds; `again` says that the last round went down more bytes than it shifted by, so that the next goes down some of them again.
pub fn rounds(sweep: &Sweep, hits: &mut HitsMut) -> Found
    requires given { GivenIn sweep.now }
    requires kids { KidsIn sweep.now }
    ensures hits { result.hits ≡ length (hits_of (tokens_of sweep.now.book.now) sweep.now.image.now) }
    ensures fetched { result.fetched ≡ fetches_of (tokens_of sweep.now.book.now) sweep.now.image.now }
    ensures spared { result.spared ≡ spares_of (tokens_of sweep.now.book.now) sweep.now.image.now }
    ensures ends { hits.new.ends.now ≡ noted (λ h. h.0) (room hits.old.ends.now hits.old.tokens.now)
        (hits_of (tokens_of sweep.now.book.now) sweep.now.image.now) hits.old.ends.now }
    ensures tokens { hits.new.tokens.now ≡ noted (λ h. h.1) (room hits.old.ends.now hits.old.tokens.now)
        (hits_of (tokens_of sweep.now.book.now) sweep.now.image.now) hits.old.tokens.now }
    ensures lent { SameBuffers hits.old hits.new }
{
    let image = sweep.image;
    let mut b = sweep.shortest;
    let mut spans = Spans::none();
    let mut fetched = 0;
    let mut spared = 0;
    let mut found = 0;
    let mut runs = Runs::none();
    let mut kept = [0u16; Book::BODY];
    let mut caches = Caches::none();
    let mut again = false;
    // By hand: each round says where the next one stands.
    while b <= image.len() {
        runs.follow(again, b, sweep);
        let a = attempt(sweep, b, found, &runs, &mut kept, &mut caches, hits);
        if forgets(spans.used, a.depth, a.by) {
            fetched += b - a.low;
        } else {
            let loose = spans.loose(a.low, b);
            fetched += loose;
            spared += b - a.low - loose;
            spans.remember(b - a.depth, b, b + a.by);
        }
        found = a.hits;
        again = a.by < a.depth;
        let on = caches.ahead(b + a.by, spans.used, image, sweep.shortest);
        b = on.boundary;
        fetched += on.looks;
    }
    Found {
        hits: found,
        fetched,
        spared,
    }
}
