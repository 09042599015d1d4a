//! What became of a command, and the texts of a session's answers, other than reports: an answer, a bad line, a start
//! that failed.
#![tactic(auto)]

mod answer;
mod texts;

pub use answer::Answer;
pub use texts::{
    put_answer, put_start_halted, put_start_refused, write_bad_line, write_line_number,
    write_refused,
};
