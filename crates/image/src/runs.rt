// Runs of equal bytes in the image, and where they lead in the tree.
ghost use Rattle.std.specs.Prelude.{◌≤◌, ◌<◌, ◌≡◌, true, false, eqb, length, replicate};
ghost use Rattle.book.specs.Book.{max_body};
ghost use Rattle.image.specs.Walk.{WalkableIn};
ghost use Rattle.image.specs.Runs.{Equal, PowersIn, FollowedIn};

use crate::given::Sweep;
use crate::walk::keep;
use book::Book;

// There seems to be a run where the bytes so many places before a boundary, and two before it, equal the last one.
const NEAR: usize = 8;

// A run of equal bytes that ends at a round's boundary, from place `from` up to `till`; of its byte as many powers as are known, x, xx and so on,
// and whether the tree has no more. Of each power its node, and how many of the tokens that are powers, whose numbers stand by rising length,
// are as long as it or shorter.
#[derive(Drop)]
pub struct Runs {
    pub from: usize,
    pub till: usize,
    pub byte: u8,
    pub known: usize,
    pub ended: bool,
    // Two arrays and not one of structs: tried, and rounds in runs of equal bytes were up to a tenth slower.
    pub power: [usize; 1 + Book::BODY],
    pub upto: [usize; 1 + Book::BODY],
    pub numbers: [u16; Book::BODY],
}

// Where equal bytes that end at b begin, at most `enough` of them. A run of the same byte that ends at `till` is joined, and not counted
// again.
fn begin(image: &[u8], from: usize, till: usize, b: usize, enough: usize) -> usize
    requires place { (0 < b) × (b ≤ length image.now) }
    requires before { (from ≤ till) × Equal image.now from till }
    ensures { (result < b) × Equal image.now result b }
{
    let x = image[b - 1];
    let mut i = b - 1;
    // By hand: the place where it stops is the answer; a chain from the back would only count how far it went.
    while till < i && b - i < enough {
        if image[i - 1] != x {
            return i;
        }
        i -= 1;
    }
    if i != till || i == 0 || image[i - 1] != x {
        return i;
    }
    from
}

impl Runs {
    // No run was met.
    pub fn none() -> Runs
        ensures { result ≡ record {
          from = 0;
          till = 0;
          byte = 0;
          known = 0;
          ended = false;
          power = replicate 1025 0;
          upto = replicate 1025 0;
          numbers = replicate 1024 0;
        } }
    {
        Runs {
            from: 0,
            till: 0,
            byte: 0,
            known: 0,
            ended: false,
            power: [0; 1 + Book::BODY],
            upto: [0; 1 + Book::BODY],
            numbers: [0; Book::BODY],
        }
    }

    // The powers of the run's byte, as many as `most`, or all that the tree has.
    fn raise(&mut self, most: usize, sweep: &Sweep)
        requires tables { WalkableIn sweep.now }
        requires most { most ≤ max_body }
        requires powers { PowersIn sweep.now self.old }
        ensures same { (self.new.from ≡ self.old.from) × (self.new.till ≡ self.old.till) × (self.new.byte ≡ self.old.byte) }
        ensures powers { PowersIn sweep.now self.new }
    {
        if self.ended {
            return;
        }
        // By hand: the run itself counts its powers, and stops where the tree does.
        while self.known < most {
            let k = self.known;
            match sweep.child(self.power[k], self.byte) {
                None => {
                    self.ended = true;
                    return;
                }
                Some(v) => {
                    let met = keep(&mut self.numbers, self.upto[k], sweep.tables.token[v]);
                    self.known = k + 1;
                    self.power[k + 1] = v;
                    self.upto[k + 1] = met;
                }
            }
        }
    }

    // Of another byte no power is known yet.
    fn switch(&mut self, x: u8)
        ensures { self.new ≡ elim (eqb x self.old.byte) [
          | true ↦ self.old
          | false ↦ record self.old { from = 0; till = 0; byte = x; known = 0; ended = false }
        ] }
    {
        if x == self.byte {
            return;
        }
        self.from = 0;
        self.till = 0;
        self.byte = x;
        self.known = 0;
        self.ended = false;
    }

    // How many equal bytes are worth counting: one more than all powers, once these are known.
    fn enough(&self) -> usize
        requires { self.now.known ≤ max_body }
    {
        if self.ended {
            return self.known + 1;
        }
        Book::IMAGE
    }

    // The run that ends at boundary b, if there seems to be one, with the powers that it leads to. It is looked for where bytes
    // are gone down again.
    pub fn follow(&mut self, again: bool, b: usize, sweep: &Sweep)
        requires place { (0 < b) × (b ≤ length sweep.now.image.now) }
        requires tables { WalkableIn sweep.now }
        requires before { FollowedIn sweep.now self.old }
        ensures { FollowedIn sweep.now self.new }
    {
        if !again {
            return;
        }
        let image = sweep.image;
        let x = image[b - 1];
        if b < NEAR || image[b - NEAR] != x || image[b - 2] != x {
            return;
        }
        self.switch(x);
        self.from = begin(image, self.from, self.till, b, self.enough());
        self.till = b;
        self.raise((b - self.from).min(Book::BODY), sweep);
    }
}
