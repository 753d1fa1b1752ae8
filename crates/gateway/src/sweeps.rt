// What the sweep of a whole image answers, in numbers.
use crate::Swept;
use image::{Found, Refusal};

impl From<Result<Found, Refusal>> for Swept {
    ghost use Rattle.std.specs.Prelude.{◌≡◌};
    ghost use Rattle.image.specs.Results.{swept_of as verdict_of, fetched_of, spared_of};
    ghost use Rattle.gateway.specs.Numbers.{swept_of};

    ghost from_gives = { λ answer swept. swept ≡ swept_of (verdict_of answer) (fetched_of answer) (spared_of answer) };

    fn from(answer: Result<Found, Refusal>) -> Self {
        match answer {
            Ok(found) => Swept {
                refusal: 0,
                value: 0,
                hits: found.hits as u64,
                fetched: found.fetched as u64,
                spared: found.spared as u64,
            },
            Err(why) => {
                let why = why.numbered();
                Swept {
                    refusal: why.number as u64,
                    value: why.value as u64,
                    hits: 0,
                    fetched: 0,
                    spared: 0,
                }
            }
        }
    }
}
