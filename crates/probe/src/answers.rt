// What the calls answer, in numbers.
ghost use Rattle.std.specs.Prelude.{◌≡◌};
ghost use Rattle.book.specs.Answers.{verdict_of, place_of as spot_of};
ghost use Rattle.fitting.specs.Answers.{fitting_of};
ghost use Rattle.merge.specs.Merge.{verdict};
ghost use Rattle.merge.specs.Answers.{answer_of as mergedOf};
ghost use Rattle.trie.specs.Answers.{answer_of as sizes_of, tested_of as breakOf};
ghost use Rattle.rules.specs.Options.{option_of};
ghost use Rattle.probe.specs.Numbers.{told, refusal, reading_of, place_of, contains_of, fit_told, length_told, sizes_told, tested_of, child_of, way_of};

use crate::Told;
use book::{Numbered, Place, Totals};
use fitting::Fit;
use trie::{Broken, Sizes};

pub fn tell(kind: usize, a: usize, b: usize, c: usize, d: usize) -> Told
    ensures { result ≡ told kind a b c d }
{
    Told {
        kind,
        numbers: [a, b, c, d],
    }
}

pub fn denied(why: Numbered, used: usize) -> Told
    ensures { result ≡ told 0 why.number why.value 0 used }
{
    tell(0, why.number, why.value, 0, used)
}

pub fn refused(why: Numbered) -> Told
    ensures { result ≡ refusal why.number why.value }
{
    denied(why, 0)
}

pub fn reading(answer: Result<Totals, book::Refusal>) -> Told
    ensures { result ≡ reading_of (verdict_of answer) }
{
    match answer {
        Ok(t) => tell(1, t.tokens, t.bodies, t.shortest, t.longest),
        Err(why) => refused(why.numbered()),
    }
}

pub fn place(answer: Result<Option<Place>, book::Refusal>) -> Told
    ensures { result ≡ place_of (spot_of answer) }
{
    match answer {
        Ok(Some(place)) => tell(1, place.at, place.size, 0, 0),
        Ok(None) => tell(2, 0, 0, 0, 0),
        Err(unread) => refused(unread.numbered()),
    }
}

pub fn contains(answer: bool) -> Told
    ensures { result ≡ contains_of answer }
{
    tell(if answer { 1 } else { 2 }, 0, 0, 0, 0)
}

pub fn fit(answer: Result<Fit, fitting::Refusal>) -> Told
    ensures { result ≡ fit_told (fitting_of answer) }
{
    match answer {
        Ok(Fit::Fits) => tell(1, 0, 0, 0, 0),
        Ok(Fit::Differs(place)) => tell(2, place, 0, 0, 0),
        Ok(Fit::CutOff) => tell(3, 0, 0, 0, 0),
        Err(why) => refused(why.numbered()),
    }
}

pub fn merging(answer: Result<usize, merge::Refusal>) -> Told
    ensures { result ≡ length_told (verdict (mergedOf answer)) }
{
    match answer {
        Ok(length) => tell(1, length, 0, 0, 0),
        Err(why) => refused(why.numbered()),
    }
}

pub fn building(answer: Result<Sizes, trie::Refusal>) -> Told
    ensures { result ≡ sizes_told (sizes_of answer) }
{
    match answer {
        Ok(s) => tell(1, s.nodes, s.shortest, s.longest, 0),
        Err(why) => refused(why.numbered()),
    }
}

pub fn tested(answer: Result<(), Broken>) -> Told
    ensures { result ≡ tested_of (breakOf answer) }
{
    match answer {
        Ok(()) => tell(1, 0, 0, 0, 0),
        Err(why) => refused(why.numbered()),
    }
}

pub fn child(answer: Option<usize>) -> Told
    ensures { result ≡ child_of (option_of answer) }
{
    match answer {
        Some(node) => tell(1, node, 0, 0, 0),
        None => tell(2, 0, 0, 0, 0),
    }
}

pub fn way(answer: Result<usize, usize>) -> Told
    ensures { result ≡ way_of answer }
{
    match answer {
        Ok(node) => tell(1, node, 0, 0, 0),
        Err(last) => tell(2, last, 0, 0, 0),
    }
}
