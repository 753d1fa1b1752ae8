// The sweep of a whole image at hand.
#![tactic(auto)]

mod caches;
mod given;
mod hits;
mod rounds;
mod rule5;
mod runs;
mod skim;
mod spans;
mod turn;
mod walk;

ghost use Rattle.std.specs.Prelude.{◌≡◌, Err};
ghost use Rattle.tables.specs.Tables.{Tables, shortest_table};
ghost use Rattle.trie.specs.Lent.{written_of, SameMemory};
ghost use Rattle.whole.specs.Image.{counted, sweep_image};
ghost use Rattle.image.specs.Hits.{SameBuffers};
ghost use Rattle.image.specs.Results.{refusal_of, swept_of, fetched_of, spared_of, refusal_for};

use book::{Book, Numbered, Outcome};
use given::Sweep;
pub use hits::HitsMut;
use trie::TablesMut;

// How many hits there are, how many bytes were fetched, and how many taken from stretches instead (document 02: spared).
#[derive(Clone, Copy)]
pub struct Found {
    pub hits: usize,
    pub fetched: usize,
    pub spared: usize,
}

// Why there is no answer, or not all of it: the book's refusal; 7 with the length wanted; 8 with the limit; 12 with all that was found.
#[derive(Clone, Copy)]
pub enum Refusal {
    Unread(book::Refusal),
    TooShort(usize),
    TooLong(usize),
    TooMany(Found),
}

impl Refusal {
    pub fn numbered(self) -> Numbered
        ensures { (result.number ≡ (refusal_of self).0) × (result.value ≡ (refusal_of self).1) }
    {
        match self {
            Refusal::Unread(why) => why.numbered(),
            Refusal::TooShort(room) => Numbered {
                number: 7,
                value: room,
            },
            Refusal::TooLong(most) => Numbered {
                number: 8,
                value: most,
            },
            Refusal::TooMany(found) => Numbered {
                number: 12,
                value: found.hits,
            },
        }
    }
}

impl Outcome for Refusal {
    ghost numbers = { refusal_of };

    fn numbered(self) -> Numbered {
        Refusal::numbered(self)
    }
}

impl From<book::Refusal> for Refusal {
    ghost use Rattle.std.specs.Prelude.{◌≡◌};
    ghost use Rattle.image.specs.declared.Refusal.TheVariants.{Unread};

    ghost from_gives = { λ why r. r ≡ Unread why };

    fn from(refused: book::Refusal) -> Refusal {
        Refusal::Unread(refused)
    }
}

impl From<trie::Refusal> for Refusal {
    ghost use Rattle.std.specs.Prelude.{◌≡◌};
    ghost use Rattle.image.specs.Results.{unbuilt};

    ghost from_gives = { λ why r. r ≡ unbuilt why };

    fn from(unbuilt: trie::Refusal) -> Refusal {
        match unbuilt {
            trie::Refusal::Unread(why) => Refusal::Unread(why),
            trie::Refusal::TooShort(room) => Refusal::TooShort(room),
        }
    }
}

// Refusals 1 to 8 where the image is over its limit: nothing is built. `entries` is the shortest table's length.
fn refuse(book: &[u8], entries: usize) -> Result<Found, Refusal>
    ensures { (fetched_of result ≡ 0) × (spared_of result ≡ 0) × ((t : Tables) → entries ≡ shortest_table t → swept_of result ≡ refusal_for book.now t) }
{
    let totals = book::read(book)?;
    let room = 1 + totals.bodies;
    if entries < room {
        return Err(Refusal::TooShort(room));
    }
    Err(Refusal::TooLong(Book::IMAGE))
}

// What was found, or refusal 12 where there is no room for all hits.
fn answer(found: Found, room: usize) -> Result<Found, Refusal>
    ensures { (swept_of result ≡ counted room found.hits) × (fetched_of result ≡ found.fetched) × (spared_of result ≡ found.spared) }
{
    if room < found.hits {
        return Err(Refusal::TooMany(found));
    }
    Ok(found)
}

// Finds every token of the book in the image. Up to refusal 8 tables and buffers stay as they are; else the tables are built and the
// buffers hold the hits, as many as the shorter one has entries.
pub fn sweep_image<'a>(
    book: &'a [u8],
    image: &'a [u8],
    tables: &mut TablesMut,
    hits: &mut HitsMut,
) -> Result<Found, Refusal>
    ensures answer { record {
      answer = swept_of result;
      fetched = fetched_of result;
      spared = spared_of result;
      tables = written_of tables.new;
      ends = hits.new.ends.now;
      tokens = hits.new.tokens.now;
    }
        ≡ sweep_image book.now image.now (written_of tables.old) hits.old.ends.now hits.old.tokens.now }
    ensures lent { SameMemory tables.old tables.new × SameBuffers hits.old hits.new }
{
    if Book::IMAGE < image.len() {
        return refuse(book, tables.shared().shortest());
    }
    let sizes = trie::build(book, tables)?;
    let built = tables.shared();
    let sweep = Sweep {
        book,
        image,
        tables: built,
        count: sizes.nodes,
        shortest: sizes.shortest,
        kids: trie::chain::root_children(&built, sizes.nodes),
    };
    let found = rounds::rounds(&sweep, hits);
    answer(found, hits.ends.len().min(hits.tokens.len()))
}
