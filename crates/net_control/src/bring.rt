//! A kernel and a state are brought over to a change together, or neither is.
ghost use Rattle.net_control.specs.Brought.{IsAsked};
ghost use Rattle.plan_exec.specs.MayCarry.{MayCarry};

use kernel_model::{Kernel, Plan};
use plan_exec::{Carried, carry};

/// How a plan was stopped. A request's number is its place in the kernel's journal, counted from 1.
#[derive(Clone, Copy)]
pub(crate) enum Stopped {
    /// This addition was refused, and those before it were undone.
    Undone { request: u64 },
    /// This deletion broke.
    Halted { request: u64 },
}

/// Carries the plan out.
pub(crate) fn ask_all<K: Kernel>(plan: &Plan, kernel: &mut K) -> Result<(), Stopped>
    requires { MayCarry plan.now (K.seen kernel.old) (K.room kernel.old) }
    ensures { IsAsked plan.now (K.seen kernel.old) (K.seen kernel.new) result }
{
    match carry(plan, kernel) {
        Carried::Done => Ok(()),
        Carried::Undone { request } => Err(Stopped::Undone { request }),
        Carried::Halted { request } => Err(Stopped::Halted { request }),
    }
}
