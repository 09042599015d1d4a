use net_names::Code;

/// What became of a command. A request's number is its place in the kernel's journal, counted from 1.
#[derive(Clone, Copy, Debug, PartialEq, Eq)]
pub enum Answer {
    Done,
    Refused { code: Code },
    /// The kernel refused this request, and those before it were undone.
    KernelRefused { request: u64 },
    /// This deletion broke, now or at an earlier command. Nothing is asked any more.
    Halted { request: u64 },
}
