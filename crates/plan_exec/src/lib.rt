//! Carries a plan out on any kernel, and undoes it where an addition is refused.
#![tactic(auto)]

ghost use Rattle.std.specs.Prelude.{◌≡◌, ◌<◌, MatchOption, map, length, slice_get};
ghost use Rattle.kernel_model.specs.Journal.{entry};
ghost use Rattle.kernel_model.specs.View.{KernelView};
ghost use Rattle.kernel_model.specs.declared.request.EntryKind.TheVariants.{Added, Deleted};
ghost use Rattle.plan_exec.specs.MayCarry.{MayCarry};
ghost use Rattle.plan_exec.specs.InTurn.{standing, after, MayAddInTurn, MayDeleteInTurn, RefusedAt, BrokenAt, ordered};
ghost use Rattle.plan_exec.specs.Carries.{Carries, IsCaused, IsAsBefore};

use kernel_model::{Kernel, Plan, Request, ask_add, ask_delete};

/// How a plan was carried out. A request's number is its place in the journal, counted from 1.
#[derive(Clone, Copy, Debug, PartialEq, Eq)]
pub enum Carried {
    /// As planned.
    Done,
    /// This addition was refused, and those before it were deleted again.
    Undone { request: u64 },
    /// This deletion broke.
    Halted { request: u64 },
}

/// Asks for each addition and then for each deletion. Where an addition is refused, those before it are deleted, the
/// last first, and where a deletion breaks, nothing more is asked. Takes no memory.
pub fn carry<K: Kernel>(plan: &Plan, kernel: &mut K) -> Carried
    requires { MayCarry plan.now (K.seen kernel.old) (K.room kernel.old) }
    ensures carries { Carries plan.now (K.seen kernel.old) (K.seen kernel.new) result }
    ensures caused { IsCaused (K.seen kernel.old) (K.seen kernel.new) result }
    ensures as_before { IsAsBefore (K.seen kernel.old) (K.seen kernel.new) result }
{
    let adds = plan.adds();
    match add_all(adds, kernel) {
        None => match delete_all(plan.deletes(), false, kernel) {
            None => Carried::Done,
            Some(_) => Carried::Halted {
                request: kernel.entry_count(),
            },
        },
        Some(refused) => {
            let request = kernel.entry_count();
            match delete_all(&adds[..refused], true, kernel) {
                None => Carried::Undone { request },
                Some(_) => Carried::Halted {
                    request: kernel.entry_count(),
                },
            }
        }
    }
}

// Asks for each addition, and answers the place of the one that was refused.
fn add_all<K: Kernel>(adds: &[Request], kernel: &mut K) -> Option<usize>
    requires { MayAddInTurn (standing (K.seen kernel.old) (K.room kernel.old)) adds.now }
    ensures { MatchOption result (standing (K.seen kernel.new) (K.room kernel.new) ≡
        after (standing (K.seen kernel.old) (K.room kernel.old)) (map (entry Added) adds.now))
        (RefusedAt adds.now (standing (K.seen kernel.old) (K.room kernel.old))
        (standing (K.seen kernel.new) (K.room kernel.new))) }
{
    for place in 0..adds.len() {
        match ask_add(kernel, nth(adds, false, place)) {
            Ok(()) => {}
            Err(_) => return Some(place),
        }
    }
    None
}

// The request at a place, from the front or from the end.
fn nth(requests: &[Request], backward: bool, place: usize) -> &Request
    requires { place < length requests.now }
    ensures { slice_get (ordered backward requests.now) place ≡ Some result.now }
{
    if backward {
        &requests[requests.len() - 1 - place]
    } else {
        &requests[place]
    }
}

// Asks for each deletion, and answers the place of the one that broke.
fn delete_all<K: Kernel>(requests: &[Request], backward: bool, kernel: &mut K) -> Option<usize>
    requires { MayDeleteInTurn (standing (K.seen kernel.old) (K.room kernel.old))
        (ordered backward requests.now) }
    ensures { MatchOption result (standing (K.seen kernel.new) (K.room kernel.new) ≡
        after (standing (K.seen kernel.old) (K.room kernel.old))
        (map (entry Deleted) (ordered backward requests.now)))
        (BrokenAt (ordered backward requests.now) (standing (K.seen kernel.old) (K.room kernel.old))
        (standing (K.seen kernel.new) (K.room kernel.new))) }
{
    for place in 0..requests.len() {
        match ask_delete(kernel, nth(requests, backward, place)) {
            Ok(()) => {}
            Err(_) => return Some(place),
        }
    }
    None
}
