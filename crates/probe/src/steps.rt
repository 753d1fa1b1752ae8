// What starting and the steps of a scan answer, in numbers.
ghost use Rattle.std.specs.Prelude.{◌≡◌};
ghost use Rattle.scan.specs.declared.Scan.{Scan};
ghost use Rattle.scan.specs.Results.{answer_of, verdict_of};
ghost use Rattle.probe.specs.Numbers.{opening_of, step_of};

use crate::Told;
use crate::answers::{denied, refused, tell};
use scan::{Answer, Refusal};

pub fn opening(answer: Result<(), Refusal>) -> Told
    ensures { (s : Scan) → result ≡ opening_of (verdict_of s answer) }
{
    match answer {
        Ok(()) => tell(1, 0, 0, 0, 0),
        Err(why) => refused(why.numbered()),
    }
}

pub fn step(answer: Result<Answer, Refusal>, used: usize) -> Told
    ensures { result ≡ step_of (answer_of answer) used }
{
    match answer {
        Ok(Answer::Fetch(place)) => tell(1, place, 0, 0, used),
        Ok(Answer::Hit(end, token)) => tell(2, end, token, 0, used),
        Ok(Answer::Done) => tell(3, 0, 0, 0, used),
        Err(why) => denied(why.numbered(), used),
    }
}
