// The refusals of a step.

ghost use Rattle.std.specs.Prelude.{◌≡◌};
ghost use Rattle.trie.specs.Lent.{tables_of};
ghost use Rattle.scan.specs.Calls.{judged};
ghost use Rattle.scan.specs.Results.{judged_of};

use crate::ranges::in_range;
use crate::{Refusal, Scan};
use trie::{Tables, first_break};

// Refusals 9, 10 and 11, in that order; `turn`: the call supplies bytes.
pub fn judge(scan: &Scan, tables: &Tables, turn: bool) -> Result<(), Refusal>
    ensures { judged_of result ≡ judged (tables_of tables.now) scan.now turn }
{
    first_break(tables, scan.count)?;
    if !in_range(scan, tables) {
        return Err(Refusal::OutOfRange);
    }
    if scan.due != turn {
        return Err(Refusal::OutOfTurn);
    }
    Ok(())
}
