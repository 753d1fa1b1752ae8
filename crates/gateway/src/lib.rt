// What the gateway's C calls: building and the sweep of a whole image, with numbers for the answers. Tables come as six slices, and
// the hit buffers as two, as C has them.
#![tactic(auto)]

mod sweeps;

ghost use Rattle.std.specs.Prelude.{◌≡◌};
ghost use Rattle.tables.specs.Tables.{build};
ghost use Rattle.trie.specs.Answers.{tables};
ghost use Rattle.whole.specs.Image.{sweep_image};
ghost use Rattle.gateway.specs.Numbers.{built_of, swept_of};

use image::HitsMut;
use trie::{Refusal, Sizes, TablesMut};

// The sizes of built tables, or a refusal's number and value; 0 for what there is not.
#[repr(C)]
#[derive(Clone, Copy)]
pub struct Built {
    pub refusal: u64,
    pub value: u64,
    pub nodes: u64,
    pub shortest: u64,
    pub longest: u64,
}

// The numbers of hits, of bytes fetched and of bytes spared, or a refusal's number and value; 0 for what there is not.
#[repr(C)]
#[derive(Clone, Copy)]
pub struct Swept {
    pub refusal: u64,
    pub value: u64,
    pub hits: u64,
    pub fetched: u64,
    pub spared: u64,
}

// What building answers, in numbers.
impl From<Result<Sizes, Refusal>> for Built {
    ghost use Rattle.std.specs.Prelude.{◌≡◌};
    ghost use Rattle.trie.specs.Answers.{answer_of};
    ghost use Rattle.gateway.specs.Numbers.{built_of};

    ghost from_gives = { λ made built. built ≡ built_of (answer_of made) };

    fn from(made: Result<Sizes, Refusal>) -> Self {
        match made {
            Ok(sizes) => Built {
                refusal: 0,
                value: 0,
                nodes: sizes.nodes as u64,
                shortest: sizes.shortest as u64,
                longest: sizes.longest as u64,
            },
            Err(why) => {
                let why = why.numbered();
                Built {
                    refusal: why.number as u64,
                    value: why.value as u64,
                    nodes: 0,
                    shortest: 0,
                    longest: 0,
                }
            }
        }
    }
}

// The tables as building leaves them, and its answer in numbers.
#[unsafe(no_mangle)]
pub extern "C" fn lonnatchi_build(
    book: &[u8],
    parent: &mut [u16],
    label: &mut [u8],
    token: &mut [u16],
    first: &mut [u16],
    next: &mut [u16],
    shift: &mut [u16],
) -> Built
    ensures { let made = build book.now
        (tables parent.old label.old token.old first.old next.old shift.old) in
        (result ≡ built_of made.answer)
        × (tables parent.new label.new token.new first.new next.new shift.new ≡ made.tables) }
{
    let mut tables = TablesMut {
        parent,
        label,
        token,
        first,
        next,
        shift,
    };
    Built::from(trie::build(book, &mut tables))
}

// The tables and the hit buffers as the sweep leaves them, and its answer in numbers.
#[unsafe(no_mangle)]
pub extern "C" fn lonnatchi_sweep(
    book: &[u8],
    image: &[u8],
    parent: &mut [u16],
    label: &mut [u8],
    token: &mut [u16],
    first: &mut [u16],
    next: &mut [u16],
    shift: &mut [u16],
    ends: &mut [u32],
    tokens: &mut [u32],
) -> Swept
    ensures { let made = sweep_image book.now image.now
        (tables parent.old label.old token.old first.old next.old shift.old)
        ends.old tokens.old in
        (result ≡ swept_of made.answer made.fetched made.spared)
        × (tables parent.new label.new token.new first.new next.new shift.new ≡ made.tables)
        × (ends.new ≡ made.ends) × (tokens.new ≡ made.tokens) }
{
    let mut tables = TablesMut {
        parent,
        label,
        token,
        first,
        next,
        shift,
    };
    let mut hits = HitsMut { ends, tokens };
    Swept::from(image::sweep_image(book, image, &mut tables, &mut hits))
}
