// The calls for tests and measurements in C and Python: each with numbers for its answer. Tables come as six slices, and a state
// and the kind of an answer as numbers, as C has them.
#![tactic(auto)]

mod answers;
mod states;
mod steps;

ghost use Rattle.std.specs.Prelude.{◌≡◌, []};
ghost use Rattle.rules.specs.Lists.{any_of};
ghost use Rattle.rules.specs.Words.{is_word};
ghost use Rattle.book.specs.Book.{read_book, summary, place_in, whole_at, bodies_in};
ghost use Rattle.fitting.specs.Fitting.{fit_in};
ghost use Rattle.merge.specs.Merge.{merge};
ghost use Rattle.tables.specs.Tables.{build};
ghost use Rattle.tables.specs.Broken.{broken, tested};
ghost use Rattle.tables.specs.Walks.{child_by};
ghost use Rattle.trie.specs.Chain.{walked};
ghost use Rattle.trie.specs.Answers.{tables, tree_only};
ghost use Rattle.scan.specs.Start.{start};
ghost use Rattle.scan.specs.Calls.{carry_on, supply};
ghost use Rattle.scan.specs.Packets.{none_used, supply_packet};
ghost use Rattle.probe.specs.Numbers.{reading_of, place_of, contains_of, fit_told, merging_of, building_of, tested_of, child_of, way_of};
ghost use Rattle.probe.specs.States.{start_in, step_in};

use scan::Scan;
use trie::{Tables, TablesMut};

// What a call answers: of which kind, and its numbers, 0 for those there are not. Kind 0 is a refusal, with its number and value.
#[repr(C)]
#[derive(Clone, Copy)]
pub struct Told {
    pub kind: usize,
    pub numbers: [usize; 4],
}

#[unsafe(no_mangle)]
pub extern "C" fn probe_read(book: &[u8]) -> Told
    ensures { result ≡ reading_of (summary (read_book book.now)) }
{
    answers::reading(book::read(book))
}

#[unsafe(no_mangle)]
pub extern "C" fn probe_token(book: &[u8], i: usize) -> Told
    ensures { result ≡ place_of (place_in (read_book book.now) i) }
{
    answers::place(book::token(book, i))
}

#[unsafe(no_mangle)]
pub extern "C" fn probe_body_at(book: &[u8], at: usize) -> usize
    ensures { result ≡ whole_at book.now at }
{
    book::body_at(book, at)
}

#[unsafe(no_mangle)]
pub extern "C" fn probe_contains(book: &[u8], body: &[u8]) -> Told
    ensures { result ≡ contains_of (any_of (is_word body.now) (bodies_in book.now)) }
{
    answers::contains(book::contains(book, body))
}

#[unsafe(no_mangle)]
pub extern "C" fn probe_fit(book: &[u8], image: &[u8], token: usize, end: usize) -> Told
    ensures { result ≡ fit_told (fit_in (read_book book.now) image.now token end) }
{
    answers::fit(fitting::fit(book, image, token, end))
}

#[unsafe(no_mangle)]
pub extern "C" fn probe_merge(first: &[u8], second: &[u8], out: &mut [u8]) -> Told
    ensures { record { told = result; out = out.new } ≡ merging_of (merge first.now second.now out.old) }
{
    answers::merging(merge::merge(first, second, out))
}

#[unsafe(no_mangle)]
pub extern "C" fn probe_build(
    book: &[u8],
    parent: &mut [u16],
    label: &mut [u8],
    token: &mut [u16],
    first: &mut [u16],
    next: &mut [u16],
    shift: &mut [u16],
) -> Told
    ensures { record {
      told = result;
      tables = tables parent.new label.new token.new first.new next.new shift.new;
    }
        ≡ building_of (build book.now
        (tables parent.old label.old token.old first.old next.old shift.old)) }
{
    let mut tables = TablesMut {
        parent,
        label,
        token,
        first,
        next,
        shift,
    };
    answers::building(trie::build(book, &mut tables))
}

#[unsafe(no_mangle)]
pub extern "C" fn probe_test(
    parent: &[u16],
    label: &[u8],
    token: &[u16],
    first: &[u16],
    next: &[u16],
    shift: &[u16],
    count: usize,
) -> Told
    ensures { let t = tables parent.now label.now token.now first.now next.now shift.now in
        result ≡ tested_of (tested (broken t count)) }
{
    let tables = Tables {
        parent,
        label,
        token,
        first,
        next,
        shift,
    };
    answers::tested(trie::first_break(&tables, count))
}

#[unsafe(no_mangle)]
pub extern "C" fn probe_child(
    label: &[u8],
    first: &[u16],
    next: &[u16],
    count: usize,
    node: usize,
    byte: u8,
) -> Told
    ensures { result ≡ child_of (child_by (tree_only [] label.now [] first.now next.now) count node byte) }
{
    let tables = Tables {
        parent: &[],
        label,
        token: &[],
        first,
        next,
        shift: &[],
    };
    answers::child(trie::chain::child(&tables, count, node, byte))
}

#[unsafe(no_mangle)]
pub extern "C" fn probe_walk(
    label: &[u8],
    next: &[u16],
    count: usize,
    head: usize,
    byte: u8,
) -> Told
    ensures { result ≡ way_of (walked label.now next.now byte count 0 head) }
{
    answers::way(trie::chain::walk(label, next, count, head, byte))
}

// The state is lent as numbers, and the next one laid over them.
#[unsafe(no_mangle)]
pub extern "C" fn probe_start(state: &mut [usize], n: usize, shortest: usize, nodes: usize) -> Told
    ensures { record { state = state.new; told = result } ≡ start_in (start n shortest nodes) state.old }
{
    if state.len() < states::NUMBERS {
        return states::no_state();
    }
    let started = Scan::start(n, shortest, nodes);
    states::lay(state, &started.state);
    steps::opening(started.opening)
}

#[unsafe(no_mangle)]
pub extern "C" fn probe_carry_on(
    state: &mut [usize],
    parent: &[u16],
    label: &[u8],
    token: &[u16],
    first: &[u16],
    next: &[u16],
    shift: &[u16],
) -> Told
    ensures { let t = tables parent.now label.now token.now first.now next.now shift.now in
        record { state = state.new; told = result } ≡ step_in (λ s. none_used (carry_on t s)) state.old }
{
    let Some(scan) = states::parse(state) else {
        return states::no_state();
    };
    let tables = Tables {
        parent,
        label,
        token,
        first,
        next,
        shift,
    };
    let stepped = scan.carry_on(&tables);
    states::hand_back(state, &stepped.state, stepped.answer, 0)
}

#[unsafe(no_mangle)]
pub extern "C" fn probe_supply(
    state: &mut [usize],
    parent: &[u16],
    label: &[u8],
    token: &[u16],
    first: &[u16],
    next: &[u16],
    shift: &[u16],
    byte: u8,
) -> Told
    ensures { let t = tables parent.now label.now token.now first.now next.now shift.now in
        record { state = state.new; told = result } ≡ step_in (λ s. none_used (supply t s byte)) state.old }
{
    let Some(scan) = states::parse(state) else {
        return states::no_state();
    };
    let tables = Tables {
        parent,
        label,
        token,
        first,
        next,
        shift,
    };
    let stepped = scan.supply(&tables, byte);
    states::hand_back(state, &stepped.state, stepped.answer, 0)
}

#[unsafe(no_mangle)]
pub extern "C" fn probe_packet(
    state: &mut [usize],
    parent: &[u16],
    label: &[u8],
    token: &[u16],
    first: &[u16],
    next: &[u16],
    shift: &[u16],
    bytes: &[u8],
) -> Told
    ensures { let t = tables parent.now label.now token.now first.now next.now shift.now in
        record { state = state.new; told = result } ≡ step_in (λ s. supply_packet t s bytes.now) state.old }
{
    let Some(scan) = states::parse(state) else {
        return states::no_state();
    };
    let tables = Tables {
        parent,
        label,
        token,
        first,
        next,
        shift,
    };
    let delivered = scan.supply_packet(&tables, bytes);
    states::hand_back(state, &delivered.state, delivered.answer, delivered.used)
}
