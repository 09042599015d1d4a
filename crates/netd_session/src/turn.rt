use rule_match::Verdict;
use turn_text::Answer;

/// What a line's answer says.
#[derive(Clone, Copy, Debug, PartialEq, Eq)]
pub enum Said {
    /// What became of a command; or that another line is done, or refused.
    Answered(Answer),
    /// The mark of a socket after a call.
    Marked { mark: u32 },
    /// Where a packet goes.
    Went { mark: u32, verdict: Verdict },
    /// A report.
    Shown,
}

/// A line that isn't blank, carried to its answer.
#[derive(Clone, Copy, Debug, PartialEq, Eq)]
pub struct Turn {
    /// The line's number, from 1.
    pub line: u32,
    pub said: Said,
    /// The length of the kernel's journal after the turn.
    pub journal_end: u64,
}
