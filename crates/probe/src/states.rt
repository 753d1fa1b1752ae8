// The scan state as lent numbers: N, S, the node count, b, node, d, whether a byte is due (1), bytes supplied, bytes taken from stretches,
// five stretches of left, right and node, and the end and the node of the next hit that is left.
ghost use Rattle.std.specs.Prelude.{◌≡◌, ◌+◌, ◌≤◌, length};
ghost use Rattle.scan.specs.Results.{answer_of};
ghost use Rattle.probe.specs.States.{size, slot_in, no_state, parsed, numbers_of, laid_over, handed};

use crate::{Told, answers, steps};
use scan::{Answer, Refusal, Scan, Stretch};

pub const NUMBERS: usize = 26;

pub fn no_state() -> Told
    ensures { result ≡ no_state }
{
    answers::tell(4, 0, 0, 0, 0)
}

fn stretch(numbers: &[usize; NUMBERS], at: usize) -> Stretch
    requires { at + 3 ≤ size }
    ensures { result ≡ slot_in numbers.now at }
{
    Stretch {
        left: numbers[at],
        right: numbers[at + 1],
        node: numbers[at + 2],
    }
}

// The state that the numbers begin with, if they do.
pub fn parse(numbers: &[usize]) -> Option<Scan>
    ensures { result ≡ parsed numbers.now }
{
    let numbers = *numbers.first_chunk::<NUMBERS>()?;
    let [
        image,
        shortest,
        count,
        boundary,
        node,
        depth,
        due,
        supplied,
        spared,
        ..,
        end,
        hit,
    ] = numbers;
    if 1 < due {
        return None;
    }
    Some(Scan {
        image,
        shortest,
        count,
        boundary,
        node,
        depth,
        // One by one: through a closure over these places it stays open that each lies within the numbers.
        stretches: [
            stretch(&numbers, 9),
            stretch(&numbers, 12),
            stretch(&numbers, 15),
            stretch(&numbers, 18),
            stretch(&numbers, 21),
        ],
        supplied,
        spared,
        due: due == 1,
        end,
        hit,
    })
}

fn numbers_of(s: &Scan) -> [usize; NUMBERS]
    ensures { result ≡ numbers_of s.now }
{
    let [a, b, c, d, e] = s.stretches;
    [
        s.image,
        s.shortest,
        s.count,
        s.boundary,
        s.node,
        s.depth,
        usize::from(s.due),
        s.supplied,
        s.spared,
        a.left,
        a.right,
        a.node,
        b.left,
        b.right,
        b.node,
        c.left,
        c.right,
        c.node,
        d.left,
        d.right,
        d.node,
        e.left,
        e.right,
        e.node,
        s.end,
        s.hit,
    ]
}

// Numbers behind those of the state stay.
pub fn lay(numbers: &mut [usize], s: &Scan)
    requires { size ≤ length numbers.old }
    ensures { numbers.new ≡ laid_over s.now numbers.old }
{
    numbers[..NUMBERS].copy_from_slice(&numbers_of(s));
}

// A step's next state is laid over the numbers it was read from. Inlined, as each step took 20 to 30 ns more with a call.
#[inline(always)]
pub fn hand_back(
    numbers: &mut [usize],
    state: &Scan,
    answer: Result<Answer, Refusal>,
    used: usize,
) -> Told
    requires { size ≤ length numbers.old }
    ensures { record { state = numbers.new; told = result }
        ≡ handed (record { step = record { state = state.now; answer = answer_of answer }; used = used }) numbers.old }
{
    lay(numbers, state);
    steps::step(answer, used)
}
