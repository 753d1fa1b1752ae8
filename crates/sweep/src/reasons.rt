// What is said on standard error where a read or a write fails.
use std::fmt;
use std::io::Error;

// What failed, and the reason.
#[derive(Debug, Drop)]
pub enum Failure {
    Book(Error),
    Image(Error),
    Lines(Error),
}

impl Failure {
    // What failed, in words, and the reason.
    fn what_and_why(&self) -> (&'static str, &Error) {
        match self {
            Failure::Book(why) => ("cannot read book.bin", why),
            Failure::Image(why) => ("cannot read image.bin", why),
            Failure::Lines(why) => ("not all lines could be written", why),
        }
    }
}

impl fmt::Display for Failure {
    fn fmt<W: fmt::Write>(&self, f: &mut fmt::Formatter<W>) -> fmt::Result {
        let (what, why) = self.what_and_why();
        write!(f, "{what}: {why}")
    }
}

// The operating system's words alone: std puts its number behind them.
fn words(reason: &str) -> &str {
    reason
        .rsplit_once(" (os error ")
        .map_or(reason, |(words, _)| words)
}

// Says what failed, with the words of the reason; where there is no memory for the words alone, with the number behind them.
pub fn say(rt: &(impl Eprint + AllocGlobal), failure: &Failure) {
    let (what, why) = failure.what_and_why();
    let _ = match format!(in rt.alloc(); "{why}") {
        Ok(reason) => eprintln!(rt; "sweep: {what}: {}", words(&reason)),
        Err(_) => eprintln!(rt; "sweep: {failure}"),
    };
}
