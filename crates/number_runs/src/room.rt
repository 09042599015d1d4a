//! Room for numbers in runs.
ghost use Rattle.std.specs.Prelude.{◌≡◌, ◌+◌, ◌/◌, ◌<◌, ◌≤◌, length, take, drop, vec_len, vec_capacity, OnOk, IfOk, IsTrue};
ghost use Rattle.number_runs.specs.Runs.{HasRoom, HaveRoom, IsLongAt};
ghost use Rattle.number_runs.specs.Kept.{Keeps};

use std::alloc::{AllocError, Global};

/// A run of more numbers is cut in half where room is made.
const MOST: usize = 2048;

fn is_long(run: &[u32]) -> bool
    ensures { IsTrue result → 1 < length run.now }
{
    run.len() > MOST
}

// The second half of a run, with room for this number more.
fn second_half(alloc: Global, run: &[u32], spare: usize) -> Result<Vec<u32>, AllocError>
    ensures items { IfOk result (λ half. half.items ≡ drop (length run.now / 2) run.now) }
    ensures room { IfOk result (HasRoom spare) }
{
    let mut half = Vec::from_slice(alloc, &run[run.len() / 2..])?;
    half.reserve(spare)?;
    Ok(half)
}

// Leaves the first half of a run.
fn keep_half(run: &mut Vec<u32>)
    ensures items { run.new.items ≡ take (length run.old.items / 2) run.old.items }
    ensures len { vec_len run.new ≤ vec_len run.old }
    ensures capacity { vec_capacity run.new ≡ vec_capacity run.old }
{
    let half = run.len() / 2;
    run.truncate(half);
}

// Cuts a run in half.
fn halve(runs: &mut Vec<Vec<u32>>, at: usize, spare: usize, alloc: Global) -> Result<(), AllocError>
    requires there { at < vec_len runs.old }
    requires long { IsLongAt runs.old.items at }
    ensures keeps { Keeps spare runs.old.items runs.new.items }
    ensures room { HaveRoom spare (drop (at + 1) runs.old.items)
        → OnOk result (HaveRoom spare (drop (at + 1) runs.new.items)) }
{
    runs.reserve(1)?;
    let half = second_half(alloc, &runs[at], spare)?;
    keep_half(&mut runs[at]);
    let _ = runs.insert(at + 1, half);
    Ok(())
}

// Cuts a run in half where it is long.
fn halve_long(
    runs: &mut Vec<Vec<u32>>,
    at: usize,
    spare: usize,
    alloc: Global,
) -> Result<(), AllocError>
    requires { at < vec_len runs.old }
    ensures keeps { Keeps spare runs.old.items runs.new.items }
    ensures room { HaveRoom spare (drop (at + 1) runs.old.items)
        → OnOk result (HaveRoom spare (drop (at + 1) runs.new.items)) }
{
    if is_long(&runs[at]) {
        halve(runs, at, spare, alloc)
    } else {
        Ok(())
    }
}

// Makes room in each run, and cuts long ones in half.
fn widen(runs: &mut Vec<Vec<u32>>, spare: usize, alloc: Global) -> Result<(), AllocError>
    ensures keeps { Keeps spare runs.old.items runs.new.items }
    ensures room { OnOk result (HaveRoom spare runs.new.items) }
{
    let mut at = runs.len();
    while at > 0 {
        at -= 1;
        halve_long(runs, at, spare, alloc)?;
        runs[at].reserve(spare)?;
    }
    Ok(())
}

// Has a run at least, the first with room for this number.
fn begin(runs: &mut Vec<Vec<u32>>, spare: usize, alloc: Global) -> Result<(), AllocError>
    ensures keeps { Keeps spare runs.old.items runs.new.items }
    ensures there { OnOk result (0 < vec_len runs.new) }
{
    if !runs.is_empty() {
        return Ok(());
    }
    let run = Vec::with_capacity(alloc, spare)?;
    runs.push(run)?;
    Ok(())
}

/// Has a run at least, and room for this number more in each.
pub fn make_room(runs: &mut Vec<Vec<u32>>, spare: usize, alloc: Global) -> Result<(), AllocError>
    ensures keeps { Keeps spare runs.old.items runs.new.items }
    ensures room { OnOk result (HaveRoom spare runs.new.items) }
    ensures there { OnOk result (0 < vec_len runs.new) }
{
    match begin(runs, spare, alloc) {
        Ok(()) => widen(runs, spare, alloc),
        Err(error) => Err(error),
    }
}
