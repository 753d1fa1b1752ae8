// Rounds that end at their first or second byte, when nothing is remembered and their shift is known: most of a sweep.
ghost use Rattle.std.specs.Prelude.{ℕ, ◌^◌, ◌≤◌, ◌<◌, ◌≡◌, true, length};
ghost use Rattle.book.specs.Book.{max_body};
ghost use Rattle.image.specs.Sweeping.{Cached, Four, Paired, Skimmable, Skimmed};

use crate::caches::Caches;

// How far such rounds lead, and how many bytes they looked at.
#[derive(Clone, Copy)]
pub struct Skipped {
    pub boundary: usize,
    pub looks: usize,
}

// Tokens longer than this have nearly every byte, so that few rounds shift by as much as the shortest.
const SHORT: usize = 255;

impl Caches {
    // The shift of a round at boundary b that ends at its first byte, 0 where it is not known: plain numbers, since `full` adds four of
    // them at a time.
    fn skip_at(&self, image: &[u8], b: usize) -> usize
        requires { (1 ≤ b) × (b ≤ length image.now) }
        ensures { Cached image.now self.now b result × (result ≤ 65535) }
    {
        usize::from(self.skip[usize::from(image[b - 1])])
    }

    // Whether four rounds from b on shift by the shortest token's length each: no look waits for the one before. Four named looks and not
    // a chain over them: speed was measured here.
    fn full(&self, image: &[u8], b: usize, shortest: usize) -> bool
        requires numbers { (1 ≤ b) × (b ≤ 2 ^ 32) × (shortest ≤ max_body) }
        requires upto { (b by : ℕ) → Cached image.now self.now b by → by ≤ shortest }
        ensures { result ≡ true → Four image.now self.now b shortest }
    {
        if SHORT < shortest {
            return false;
        }
        if image.len() < b + 3 * shortest {
            return false;
        }
        let near = self.skip_at(image, b) + self.skip_at(image, b + shortest);
        let far = self.skip_at(image, b + 2 * shortest) + self.skip_at(image, b + 3 * shortest);
        near + far == 4 * shortest
    }

    // Four at a time, as often as they come one after the other.
    fn stride(&self, b: usize, image: &[u8], shortest: usize) -> Skipped
        requires { Skimmable image.now self.now shortest b 0 }
        ensures { Skimmed image.now self.now shortest b 0 result }
    {
        let mut at = b;
        let mut looks = 0;
        // By hand: a turn goes on where four rounds led.
        while self.full(image, at, shortest) {
            at += 4 * shortest;
            looks += 4;
        }
        Skipped {
            boundary: at,
            looks,
        }
    }

    // The shift of a round at boundary b that ends at its second byte, 0 where it is not known, as in `skip_at`.
    fn pair_at(&self, image: &[u8], b: usize) -> usize
        requires { (1 ≤ b) × (b ≤ length image.now) }
        ensures { ((result ≡ 0 → ⊥) → Paired image.now self.now b result) × (result ≤ 65535) }
    {
        if b < 2 {
            return 0;
        }
        usize::from(self.pairs[256 * usize::from(image[b - 2]) + usize::from(image[b - 1])])
    }

    // The next of such rounds, or some of them at once; no look where there is none.
    fn hop(&self, b: usize, image: &[u8], shortest: usize) -> Skipped
        requires { Skimmable image.now self.now shortest b 0 × (b ≤ length image.now) }
        ensures { Skimmed image.now self.now shortest b 0 result × ((result.looks ≡ 0 → ⊥) → b < result.boundary) }
    {
        let by = self.skip_at(image, b);
        if by == 0 {
            let two = self.pair_at(image, b);
            if two == 0 {
                return Skipped {
                    boundary: b,
                    looks: 0,
                };
            }
            return Skipped {
                boundary: b + two,
                looks: 2,
            };
        }
        let on = self.stride(b + by, image, shortest);
        Skipped {
            boundary: on.boundary,
            looks: 1 + on.looks,
        }
    }

    // As many such rounds as come one after the other.
    fn skim(&self, b: usize, image: &[u8], shortest: usize) -> Skipped
        requires { Skimmable image.now self.now shortest b 0 }
        ensures { Skimmed image.now self.now shortest b 0 result }
    {
        let mut at = b;
        let mut looks = 0;
        // By hand: a turn goes on where the round before it led.
        while at <= image.len() {
            let on = self.hop(at, image, shortest);
            if on.looks == 0 {
                break;
            }
            at = on.boundary;
            looks += on.looks;
        }
        Skipped {
            boundary: at,
            looks,
        }
    }

    // Where something is remembered, no round is skimmed.
    pub fn ahead(&self, b: usize, used: usize, image: &[u8], shortest: usize) -> Skipped
        requires { Skimmable image.now self.now shortest b used }
        ensures { Skimmed image.now self.now shortest b used result }
    {
        if used != 0 {
            return Skipped {
                boundary: b,
                looks: 0,
            };
        }
        self.skim(b, image, shortest)
    }
}
