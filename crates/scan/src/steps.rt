// The rules, one step at a time, over tables that are a tree and a state in its ranges.

ghost use Rattle.std.specs.Prelude.{◌≡◌, true, ◌+◌, min};
ghost use Rattle.std.proofs.Math.Option.{none};
ghost use Rattle.rules.specs.Options.{option_of};
ghost use Rattle.rules.specs.Rules.{end_round, take_byte};
ghost use Rattle.trie.specs.Lent.{tables_of};
ghost use Rattle.scan.specs.State.{config_of, tree_of, max_spared};
ghost use Rattle.scan.specs.Calls.{counted, stepped, settle, enough, judged, supply};
ghost use Rattle.scan.specs.Results.{stepped_of};
ghost use Rattle.scan.specs.Steps.{Stepping, Chosen};
ghost use Rattle.scan.specs.Within.{Goes};

use crate::ranges::{SPARED, SUPPLIED};
use crate::{Answer, Scan, Stepped, hits, shift, stretches};
use trie::Tables;
use trie::chain::child;

// What comes next: nothing, a place to fetch, the round's end, or a byte that is remembered.
#[derive(Clone, Copy)]
pub enum Move {
    Finished,
    Wants(usize),
    End,
    Take(u8),
}

// A round ends: its hits are left, and rules 4 to 6. The state is changed in place, as it is large to hand over and back.
pub fn end_round(scan: &mut Scan, tables: &Tables, closing: Option<u8>)
    requires { Goes (tables_of tables.now) scan.old }
    ensures { let t = tables_of tables.now in
        scan.new ≡ stepped t scan.old (end_round (tree_of t scan.old) (config_of scan.old) (option_of closing)) }
{
    let end = scan.boundary;
    let hit = hits::carrier(tables, scan.node);
    let boundary = end + shift::shift(scan, tables, closing);
    scan.stretches = stretches::remember(scan, tables, boundary);
    scan.boundary = boundary;
    scan.node = 0;
    scan.depth = 0;
    hits::owe(scan, end, hit);
}

// Rule 3: the round goes to a child, or ends at the byte.
pub fn take_byte(scan: &mut Scan, tables: &Tables, byte: u8)
    requires { Stepping (tables_of tables.now) scan.old }
    ensures { let t = tables_of tables.now in
        scan.new ≡ stepped t scan.old (take_byte (tree_of t scan.old) (config_of scan.old) byte) }
{
    match child(tables, scan.count, scan.node, byte) {
        None => end_round(scan, tables, Some(byte)),
        Some(v) => {
            scan.node = v;
            scan.depth += 1;
        }
    }
}

// Rules 1 and 2: what comes next. It leaves the state where it is: a state is large to hand back.
fn choose(scan: &Scan, tables: &Tables) -> Move
    requires { Goes (tables_of tables.now) scan.now }
    ensures { Chosen (tables_of tables.now) scan.now result }
{
    if scan.image < scan.boundary {
        return Move::Finished;
    }
    let node = scan.node;
    if tables.first[node] == 0 || scan.depth == scan.boundary {
        return Move::End;
    }
    let at = scan.boundary - 1 - scan.depth;
    match stretches::recall(scan, tables, at) {
        None => Move::Wants(at),
        Some(x) => Move::Take(x),
    }
}

// The count with a byte more taken from a stretch. It stops.
fn one_more(spared: usize) -> usize
    ensures { result ≡ min max_spared (spared + 1) }
{
    spared.saturating_add(1).min(SPARED)
}

// A call runs on until it can answer: each step takes a byte of the round or ends it, so it does.
pub fn settle(scan: Scan, tables: &Tables) -> Stepped
    requires { Goes (tables_of tables.now) scan }
    ensures { stepped_of result ≡ settle (tables_of tables.now) (enough scan) scan }
{
    let mut at = scan;
    // By hand: these are the steps of the rules.
    loop {
        if at.hit != 0 {
            let answer = hits::tell(&mut at, tables);
            return Stepped {
                state: at,
                answer: Ok(answer),
            };
        }
        match choose(&at, tables) {
            Move::Finished => {
                return Stepped {
                    state: at,
                    answer: Ok(Answer::Done),
                };
            }
            Move::Wants(place) => {
                at.due = true;
                return Stepped {
                    state: at,
                    answer: Ok(Answer::Fetch(place)),
                };
            }
            Move::End => {
                end_round(&mut at, tables, None);
            }
            Move::Take(x) => {
                at.spared = one_more(at.spared);
                take_byte(&mut at, tables, x);
            }
        }
    }
}

// One byte more counts as supplied, and none is due. The count stops, so that a long sweep stays in range.
fn count_byte(scan: &mut Scan)
    ensures { scan.new ≡ counted scan.old }
{
    scan.due = false;
    scan.supplied = scan.supplied.saturating_add(1).min(SUPPLIED);
}

// The byte that is due is counted and taken, and the call runs on.
pub fn supply_due(scan: Scan, tables: &Tables, byte: u8) -> Stepped
    requires { judged (tables_of tables.now) scan true ≡ none }
    ensures { stepped_of result ≡ supply (tables_of tables.now) scan byte }
{
    let mut state = scan;
    count_byte(&mut state);
    take_byte(&mut state, tables, byte);
    settle(state, tables)
}
