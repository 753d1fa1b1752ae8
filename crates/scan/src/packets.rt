// A packet: its bytes are supplied one by one, and the tables are not tested again.

ghost use Rattle.std.specs.Prelude.{◌≡◌, true};
ghost use Rattle.std.proofs.Math.Option.{none};
ghost use Rattle.trie.specs.Lent.{tables_of};
ghost use Rattle.scan.specs.Calls.{judged};
ghost use Rattle.scan.specs.Packets.{is_below, feed_due};
ghost use Rattle.scan.specs.Results.{answer_of, delivered_of};

use crate::steps::supply_due;
use crate::{Answer, Delivered, Refusal, Scan, Stepped};
use trie::Tables;

// Whether the answer is to fetch the place just below `last`.
fn is_below(answer: Result<Answer, Refusal>, last: usize) -> bool
    ensures { result ≡ is_below last (answer_of answer) }
{
    match answer {
        Ok(Answer::Fetch(place)) => place < last && last - place == 1,
        _ => false,
    }
}

// Bytes are used as long as the answer so far is to fetch the place just below `last`, that of the last used one; before the first byte
// it is to fetch the place that is due.
pub fn feed(scan: Scan, tables: &Tables, bytes: &[u8]) -> Delivered
    requires { judged (tables_of tables.now) scan true ≡ none }
    ensures { delivered_of result ≡ feed_due (tables_of tables.now) scan bytes.now }
{
    let mut last = scan.boundary - scan.depth;
    let mut step = Stepped {
        state: scan,
        answer: Ok(Answer::Fetch(last - 1)),
    };
    let mut used = 0;
    for byte in bytes {
        if !is_below(step.answer, last) {
            break;
        }
        step = supply_due(step.state, tables, *byte);
        used += 1;
        last -= 1;
    }
    Delivered {
        state: step.state,
        answer: step.answer,
        used,
    }
}
