ghost use Rattle.std.specs.Prelude.{◌≡◌, length, slice_get};
ghost use Rattle.netd_session.specs.Stops.{after_input, after_write, number_of, status_of, stop_number};
ghost use Rattle.netd_session.specs.declared.end.Stop.TheVariants as stop;

use crate::turn::Turn;
use line_input::InputFault;
use net_io::WriteFault;
use std::alloc::AllocError;
use std::marker::Model;

/// Why a session stopped before its input was read to the end and answered.
#[derive(Clone, Copy, Debug, PartialEq, Eq)]
pub enum Stop {
    /// A line is none of the grammar.
    BadLine,
    /// The source failed.
    ReadFault,
    /// The sink failed.
    WriteFault,
    /// Memory ran out.
    Memory,
    /// A deletion broke in the kernel.
    Halted,
    /// The kernel refused a rule of the start.
    StartRefused,
    /// The input has more bytes than it may have.
    TooLong,
}

impl Stop {
    /// The exit status of the program.
    pub fn number(&self) -> u8
        ensures { result ≡ stop_number self.now }
    {
        match self {
            Stop::BadLine => 3,
            Stop::ReadFault => 4,
            Stop::WriteFault => 5,
            Stop::Memory => 6,
            Stop::Halted => 7,
            Stop::StartRefused => 8,
            Stop::TooLong => 9,
        }
    }
}

impl From<AllocError> for Stop {
    ghost from_gives = { λ _ made. made ≡ stop.Memory };

    fn from(_: AllocError) -> Stop {
        Stop::Memory
    }
}

impl From<WriteFault> for Stop {
    ghost from_gives = { λ fault made. made ≡ after_write fault };

    fn from(fault: WriteFault) -> Stop {
        match fault {
            WriteFault::Failed => Stop::WriteFault,
            WriteFault::Memory(_) => Stop::Memory,
        }
    }
}

impl From<InputFault> for Stop {
    ghost from_gives = { λ fault made. made ≡ after_input fault };

    fn from(fault: InputFault) -> Stop {
        match fault {
            InputFault::Read => Stop::ReadFault,
            InputFault::TooLong => Stop::TooLong,
        }
    }
}

/// How a run of the program ended.
#[derive(Clone, Copy, Debug, PartialEq, Eq)]
pub enum Status {
    /// The input was read to its end, and every line answered.
    Finished,
    /// The words of the command line are no form.
    BadWords,
    /// A session stopped before.
    Stopped(Stop),
}

impl Status {
    /// The status after such an end.
    pub fn of(end: Result<(), Stop>) -> Status
        ensures { result ≡ status_of end }
    {
        match end {
            Ok(()) => Status::Finished,
            Err(stop) => Status::Stopped(stop),
        }
    }

    /// The exit status of the program.
    pub fn number(&self) -> u8
        ensures { result ≡ number_of self.now }
    {
        match self {
            Status::Finished => 0,
            Status::BadWords => 2,
            Status::Stopped(stop) => stop.number(),
        }
    }
}

/// How a session ended, and its turns.
#[derive(Drop)]
pub struct Ended {
    end: Result<(), Stop>,
    turns: Vec<Turn>,
}

impl Model for Ended {
    ghost use Rattle.netd_session.specs.EndedView.{EndedView};

    ghost Value = { EndedView };

    ghost view = { λ e. record { result = e.end; turns = e.turns.items } };
}

impl Ended {
    pub(crate) fn of(end: Result<(), Stop>, turns: Vec<Turn>) -> Ended
        ensures { result ≡ record { result = end; turns = turns.items } }
    {
        Ended { end, turns }
    }

    pub fn status(&self) -> Status
        ensures { result ≡ status_of self.now.result }
    {
        Status::of(self.end)
    }

    /// The turns, in order.
    pub fn turns(&self) -> &[Turn]
        ensures { result.now ≡ self.now.turns }
    {
        self.turns.as_slice()
    }

    /// How many turns there were.
    pub fn turn_count(&self) -> usize
        ensures { result ≡ length self.now.turns }
    {
        self.turns.len()
    }

    /// The turn at a place, from 0.
    pub fn turn_at(&self, place: usize) -> Option<Turn>
        ensures { result ≡ slice_get self.now.turns place }
    {
        self.turns.get(place).copied()
    }
}
