//! A made script on a kernel that looks through lists and on one that finds its rules.
use crate::over_memory::{WHOLE, run_over};
use kernel_model::Kernel;
use netd_session::Ended;
use prefixes::Family;
use rule_index::IndexedKernel;
use script_gen::make_script;
use sim_kernel::SimKernel;
use std::alloc::{AllocError, Global};
use std::process::Abort;
use std::test::Fail;

fn list_of(alloc: Global, numbers: &[u64]) -> Result<Vec<u64>, AllocError> {
    numbers.iter().copied().collect(alloc)
}

fn have_one_list<J: Kernel, K: Kernel>(rt: &impl Abort, one: &J, other: &K, family: Family) {
    assert_eq!(rt; one.rule_count(family), other.rule_count(family));
    for place in 0..one.rule_count(family) {
        assert!(rt; one.rule_at(family, place) == other.rule_at(family, place));
    }
}

fn have_one_journal<J: Kernel, K: Kernel>(rt: &impl Abort, one: &J, other: &K) {
    assert_eq!(rt; one.entry_count(), other.entry_count());
    for place in 0..one.entry_count() {
        assert!(rt; one.entry_at(place) == other.entry_at(place));
    }
}

fn have_one_end(rt: &impl Abort, one: &Ended, other: &Ended) {
    assert!(rt; one.status() == other.status());
    assert_eq!(rt; one.turn_count(), other.turn_count());
    for place in 0..one.turn_count() {
        assert!(rt; one.turn_at(place) == other.turn_at(place));
    }
}

// Runs the script on both kernels, with these additions refused.
fn run_alike(
    rt: &impl Abort,
    alloc: Global,
    script: &[u8],
    refuse: &[u64],
) -> Result<(), AllocError> {
    let mut list = SimKernel::new(alloc, list_of(alloc, refuse)?, Vec::new(alloc))?;
    let mut index = IndexedKernel::new(alloc, list_of(alloc, refuse)?, Vec::new(alloc))?;
    let (one, said) = run_over(alloc, script, &WHOLE, &mut list)?;
    let (other, same) = run_over(alloc, script, &WHOLE, &mut index)?;
    assert!(rt; said.as_slice() == same.as_slice());
    have_one_end(rt, &one, &other);
    have_one_journal(rt, &list, &index);
    have_one_list(rt, &list, &index, Family::V4);
    have_one_list(rt, &list, &index, Family::V6);
    Ok(())
}

#[test]
fn a_made_script_runs_alike(rt: HostRuntime) -> Result<(), Fail> {
    let alloc = rt.alloc();
    let script = make_script(alloc, 7, 2000)?;
    run_alike(&rt, alloc, &script, &[])?;
    run_alike(&rt, alloc, &script, &[50, 90])?;
    Ok(())
}
