ghost use Rattle.std.specs.Prelude.{◌≡◌};
ghost use Rattle.rule_match.specs.Verdict.{verdict_of};

use prefixes::{Addr, Answer};

/// What becomes of a packet: it is for the device, goes out by a link, or is refused with one of two errors.
#[derive(Clone, Copy, Debug, PartialEq, Eq)]
pub enum Verdict {
    Local,
    Out { link: u16, gateway: Option<Addr> },
    Prohibited,
    Unreachable,
}

impl Verdict {
    /// The verdict of a table's answer.
    pub fn of(answer: Answer) -> Verdict
        ensures { result ≡ verdict_of answer }
    {
        match answer {
            Answer::Out { link, gateway } => Verdict::Out { link, gateway },
            Answer::Unreachable => Verdict::Unreachable,
        }
    }
}
