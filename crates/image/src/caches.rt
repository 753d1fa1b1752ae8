// Rule 5: the node shift from its table, and the byte shift found once and kept; and whole shifts of short rounds. An entry is 0, not
// known, or right.
ghost use Rattle.std.specs.Prelude.{ℕ, ◌≤◌, ◌<◌, max, ◌≡◌, List, length, get_or, replicate};
ghost use Rattle.std.proofs.Math.Option.{some};
ghost use Rattle.rules.specs.Options.{option_of};
ghost use Rattle.rules.specs.Tokens.{byte_shift};
ghost use Rattle.book.specs.Book.{max_body};
ghost use Rattle.image.specs.Rule5.{words_in, Accepted};
ghost use Rattle.image.specs.Sweeping.{Learns, Sees, CachesRight, CachesIn};

use crate::given::Sweep;
use crate::rule5;
use crate::walk::Arrival;

// Byte shifts are kept for depths below this.
const DEPTHS: usize = 64;

// Byte shifts by depth and byte; the shifts of rounds that end at their first byte, by that byte, and at their second, by both. They lie
// on the stack of a sweep and are lent, never copied.
#[derive(Drop)]
pub struct Caches {
    // 0 for what is not known: an option would double them, and they are read at each round.
    pub bytes: [u16; 256 * 64],
    pub skip: [u16; 256],
    pub pairs: [u16; 65536],
}

impl Caches {
    // No shift is known.
    pub fn none() -> Caches
        ensures { result ≡ record { bytes = replicate 16384 0; skip = replicate 256 0; pairs = replicate 65536 0 } }
    {
        Caches {
            bytes: [0; 256 * 64],
            skip: [0; 256],
            pairs: [0; 65536],
        }
    }

    // The byte shift of a byte left of `depth` matched ones.
    fn byte_shift(&mut self, depth: usize, byte: u8, sweep: &Sweep) -> usize
        requires book { Accepted sweep.now.book.now sweep.now.shortest }
        requires right { CachesIn sweep.now self.old }
        ensures shift { result ≡ byte_shift (words_in sweep.now.book.now) sweep.now.shortest depth (some byte) }
        ensures right { CachesIn sweep.now self.new }
    {
        if DEPTHS <= depth {
            return rule5::byte_shift(sweep.book, depth, byte, sweep.shortest);
        }
        let i = 256 * depth + usize::from(byte);
        let known = usize::from(self.bytes[i]);
        if known != 0 {
            return known;
        }
        let by = rule5::byte_shift(sweep.book, depth, byte, sweep.shortest);
        self.bytes[i] = by as u16;
        by
    }

    // Rule 5 for where a round ended. Where the shortest token, moved by one, lies right of the closing byte, the byte shift is 1.
    pub fn shift(&mut self, end: &Arrival, sweep: &Sweep) -> usize
        requires book { Accepted sweep.now.book.now sweep.now.shortest }
        requires entry { (end.now.node < length sweep.now.tables.shift.now) × (1 ≤ get_or sweep.now.tables.shift.now end.now.node 0) }
        requires right { CachesIn sweep.now self.old }
        ensures shift { result ≡ max (get_or sweep.now.tables.shift.now end.now.node 0)
            (byte_shift (words_in sweep.now.book.now) sweep.now.shortest end.now.depth (option_of end.now.closing)) }
        ensures right { CachesIn sweep.now self.new }
    {
        let by = usize::from(sweep.tables.shift[end.node]);
        match end.closing {
            None => by,
            Some(x) => {
                if sweep.shortest - 1 <= end.depth {
                    return by;
                }
                by.max(self.byte_shift(end.depth, x, sweep))
            }
        }
    }

    // A round that ended at its first byte can be skimmed from now on.
    pub fn learn(&mut self, end: &Arrival, by: usize)
        requires { by ≤ max_body }
        ensures { (book image : List ℕ) (shortest : ℕ) → Learns book shortest end.now.depth end.now.closing by
            → CachesRight book image shortest self.old → CachesRight book image shortest self.new }
    {
        if end.depth != 0 {
            return;
        }
        if let Some(x) = end.closing {
            self.skip[usize::from(x)] = by as u16;
        }
    }

    // The same for a round that ended at its second byte, and met no token.
    pub fn learn_pair(&mut self, first: u8, end: &Arrival, by: usize)
        requires { by ≤ max_body }
        ensures { (book image : List ℕ) (shortest : ℕ) → Sees book image first end.now.depth end.now.closing end.now.met by
            → CachesRight book image shortest self.old → CachesRight book image shortest self.new }
    {
        if end.depth != 1 || end.met != 0 {
            return;
        }
        if let Some(y) = end.closing {
            self.pairs[256 * usize::from(y) + usize::from(first)] = by as u16;
        }
    }
}
