use kernel_model::EntryKind::{Added, Broken, Deleted, Refused};
use kernel_model::{EntryKind, Kernel, Plan, Request};
use packet_trace::Watched;
use plan_exec::{Carried, carry};
use prefixes::{Addr, Family};
use rule_match::{Action, Packet, Rule, Verdict};
use sim_kernel::SimKernel;
use std::alloc::{AllocError, Global};
use std::process::Abort;
use std::test::Fail;
use uid_ranges::Uid;

const OWN: Rule = Rule {
    priority: 0,
    mark: 0,
    mask: 0,
    incoming: None,
    outgoing: None,
    uids: None,
    action: Action::Table(255),
};

const LOOKUP: Rule = Rule {
    priority: 17000,
    mark: 0,
    mask: 0,
    incoming: None,
    outgoing: None,
    uids: None,
    action: Action::Table(97),
};

const LAST: Rule = Rule {
    priority: 32000,
    mark: 0,
    mask: 0,
    incoming: None,
    outgoing: None,
    uids: None,
    action: Action::Prohibit,
};

// Adds two rules, deletes the kernel's own one, and gives the answer with the journal.
fn carried_by(
    alloc: Global,
    refuse: &[u64],
    breaks: &[u64],
) -> Result<(Carried, Vec<EntryKind>), AllocError> {
    let mut kernel = SimKernel::new(
        alloc,
        refuse.iter().copied().collect(alloc)?,
        breaks.iter().copied().collect(alloc)?,
    )?;
    kernel.reserve(5)?;
    let first = Request::Rule {
        family: Family::V4,
        rule: LAST,
    };
    let second = Request::Rule {
        family: Family::V6,
        rule: LAST,
    };
    let third = Request::Rule {
        family: Family::V4,
        rule: OWN,
    };
    let plan = Plan::of(vec![in alloc; first, second]?, vec![in alloc; third]?);
    let carried = carry(&plan, &mut kernel);
    let mut kinds = Vec::new(alloc);
    for place in 0..kernel.entry_count() {
        if let Some(entry) = kernel.entry_at(place) {
            kinds.push(entry.kind)?;
        }
    }
    Ok((carried, kinds))
}

// The plan ends so, and the journal has entries of these kinds then.
fn ends(
    rt: &(impl Abort + AllocGlobal),
    refuse: &[u64],
    breaks: &[u64],
    carried: Carried,
    kinds: &[EntryKind],
) -> Result<(), AllocError> {
    let (answer, journal) = carried_by(rt.alloc(), refuse, breaks)?;
    assert!(rt; answer == carried);
    assert!(rt; journal.as_slice() == kinds);
    Ok(())
}

// A plan as it was, with its second addition refused, and with its first deletion broken, of the plan or of the undoing.
#[test]
fn carries_a_plan_out(rt: HostRuntime) -> Result<(), Fail> {
    ends(&rt, &[], &[], Carried::Done, &[Added, Added, Deleted])?;
    let undone = Carried::Undone { request: 2 };
    ends(&rt, &[2], &[], undone, &[Added, Refused, Deleted])?;
    let halted = Carried::Halted { request: 3 };
    ends(&rt, &[], &[1], halted, &[Added, Added, Broken])?;
    ends(&rt, &[2], &[1], halted, &[Added, Refused, Broken])?;
    Ok(())
}

// A lookup in a table that isn't there lets the walk go on, and the verdict changes with the second rule.
#[test]
fn watches(rt: HostRuntime) -> Result<(), Fail> {
    let alloc = rt.alloc();
    let packet = Packet::made(
        Uid::new(10050).ok_or("no UID")?,
        0,
        Addr::V4(0x0808_0808),
        None,
    );
    let mut kernel = SimKernel::new(alloc, Vec::new(alloc), Vec::new(alloc))?;
    kernel.reserve(4)?;
    let first = Request::Rule {
        family: Family::V4,
        rule: LOOKUP,
    };
    let second = Request::Rule {
        family: Family::V4,
        rule: LAST,
    };
    let plan = Plan::of(vec![in alloc; first, second]?, Vec::new(alloc));
    let mut watched = Watched::new(alloc, &mut kernel, Some(packet));
    let seen = match watched.reserve(4) {
        Ok(()) => {
            carry(&plan, &mut watched);
            watched.seen_at(0)
        }
        Err(_) => None,
    };
    let _ = watched.finish();
    assert!(rt; seen == Some((2, Verdict::Prohibited)));
    Ok(())
}
