// The sweep by bytes: the scan state, starting, and the three calls that step it.
#![tactic(auto)]

mod hits;
mod judge;
mod packets;
mod ranges;
mod shift;
mod spell;
mod steps;
mod stretches;

ghost use Rattle.std.specs.Prelude.{◌≡◌, Err};
ghost use Rattle.trie.specs.Lent.{tables_of};
ghost use Rattle.scan.specs.Start.{started, start};
ghost use Rattle.scan.specs.Calls.{step_refusal, carry_on, supply};
ghost use Rattle.scan.specs.Packets.{supply_packet};
ghost use Rattle.scan.specs.Results.{refusal_of, answer_of, opened, started_of, stepped_of, delivered_of};

use book::{Book, Numbered, Outcome};
use judge::judge;
use packets::feed;
use steps::{settle, supply_due};
use trie::Tables;

// A remembered stretch: the places from left up to right, right not included; its bytes are the ending of its node. A slot that
// is not in use holds zeros.
#[derive(Clone, Copy)]
pub struct Stretch {
    pub left: usize,
    pub right: usize,
    pub node: usize,
}

// A slot that holds no stretch.
const UNUSED: Stretch = Stretch {
    left: 0,
    right: 0,
    node: 0,
};

// N, S, the number of nodes, the present round's boundary, node and depth, the remembered stretches, how many bytes were supplied so
// far and how many were taken from stretches instead, whether a byte is due, and of the hits that are still to be answered
// their end and the node of the next (both 0 for none: the form of the state is fixed, and C's tests hand it over as numbers).
#[derive(Clone, Copy)]
pub struct Scan {
    pub image: usize,
    pub shortest: usize,
    pub count: usize,
    pub boundary: usize,
    pub node: usize,
    pub depth: usize,
    pub stretches: [Stretch; 5],
    pub supplied: usize,
    pub spared: usize,
    pub due: bool,
    pub end: usize,
    pub hit: usize,
}

// Why starting or a step is refused: refusal 8 or 9 with its value, 10, 11 or 15.
#[derive(Clone, Copy)]
pub enum Refusal {
    TooLong(usize),
    Broken(usize),
    OutOfRange,
    OutOfTurn,
    Overlong,
}

impl Refusal {
    pub fn numbered(self) -> Numbered
        ensures { (result.number ≡ (step_refusal (answer_of (Err self))).0) × (result.value ≡ (step_refusal (answer_of (Err self))).1) }
    {
        match self {
            Refusal::TooLong(most) => Numbered {
                number: 8,
                value: most,
            },
            Refusal::Broken(node) => Numbered {
                number: 9,
                value: node,
            },
            Refusal::OutOfRange => Numbered {
                number: 10,
                value: 0,
            },
            Refusal::OutOfTurn => Numbered {
                number: 11,
                value: 0,
            },
            Refusal::Overlong => Numbered {
                number: 15,
                value: 0,
            },
        }
    }
}

impl Outcome for Refusal {
    ghost numbers = { refusal_of };

    fn numbered(self) -> Numbered {
        Refusal::numbered(self)
    }
}

impl From<trie::Broken> for Refusal {
    ghost use Rattle.std.specs.Prelude.{◌≡◌};
    ghost use Rattle.scan.specs.declared.Refusal.TheVariants.{Broken};

    ghost from_gives = { λ broken r. r ≡ Broken broken.node };

    fn from(broken: trie::Broken) -> Refusal {
        Refusal::Broken(broken.node)
    }
}

// The state to step from: where starting is refused, one that every step refuses.
#[derive(Clone, Copy)]
pub struct Started {
    pub state: Scan,
    pub opening: Result<(), Refusal>,
}

// What a step answers: a place to fetch, a hit (where it ends, and its token), or done.
#[derive(Clone, Copy)]
pub enum Answer {
    Fetch(usize),
    Hit(usize, usize),
    Done,
}

// The next state, and what the step answers.
#[derive(Clone, Copy)]
pub struct Stepped {
    pub state: Scan,
    pub answer: Result<Answer, Refusal>,
}

// The same of a packet, and how many of its bytes were used.
#[derive(Clone, Copy)]
pub struct Delivered {
    pub state: Scan,
    pub answer: Result<Answer, Refusal>,
    pub used: usize,
}

// A state that has not stepped.
fn fresh(n: usize, shortest: usize, nodes: usize) -> Scan
    ensures { result ≡ started n shortest nodes }
{
    Scan {
        image: n,
        shortest,
        count: nodes,
        boundary: shortest,
        node: 0,
        depth: 0,
        due: false,
        stretches: [UNUSED; 5],
        supplied: 0,
        spared: 0,
        end: 0,
        hit: 0,
    }
}

impl Scan {
    // The longest packet.
    pub const PACKET: usize = 64;

    // A sweep of n bytes, with the shortest token's length and the number of nodes.
    pub fn start(n: usize, shortest: usize, nodes: usize) -> Started
        ensures { started_of result ≡ opened (start n shortest nodes) }
    {
        if Book::IMAGE < n {
            return Started {
                state: fresh(0, 0, 0),
                opening: Err(Refusal::TooLong(Book::IMAGE)),
            };
        }
        Started {
            state: fresh(n, shortest, nodes),
            opening: Ok(()),
        }
    }

    // A step while no byte is due.
    pub fn carry_on(self, tables: &Tables) -> Stepped
        ensures { stepped_of result ≡ carry_on (tables_of tables.now) self }
    {
        match judge(&self, tables, false) {
            Err(why) => Stepped {
                state: self,
                answer: Err(why),
            },
            Ok(()) => settle(self, tables),
        }
    }

    // A step with the byte that is due.
    pub fn supply(self, tables: &Tables, byte: u8) -> Stepped
        ensures { stepped_of result ≡ supply (tables_of tables.now) self byte }
    {
        match judge(&self, tables, true) {
            Err(why) => Stepped {
                state: self,
                answer: Err(why),
            },
            Ok(()) => supply_due(self, tables, byte),
        }
    }

    // A step with bytes for the place that is due, the one below it, and so on: they are used while the place wanted is the next one down.
    pub fn supply_packet(self, tables: &Tables, bytes: &[u8]) -> Delivered
        ensures { delivered_of result ≡ supply_packet (tables_of tables.now) self bytes.now }
    {
        if Scan::PACKET < bytes.len() {
            return Delivered {
                state: self,
                answer: Err(Refusal::Overlong),
                used: 0,
            };
        }
        match judge(&self, tables, true) {
            Err(why) => Delivered {
                state: self,
                answer: Err(why),
                used: 0,
            },
            Ok(()) => feed(self, tables, bytes),
        }
    }
}
