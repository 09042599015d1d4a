use law_example::{Kernel, NEW, OLD, Packet, Verdict, move_over, start};
use std::test::Fail;

// The tables that packets of marks 1 to 4 go by, moment by moment, as docs/why-no-packet-strays.md draws them.
const DRAWN: [[u32; 4]; 5] = [
    [10, 20, 20, 40],
    [10, 25, 20, 40],
    [10, 25, 20, 40],
    [10, 25, 30, 40],
    [30, 25, 30, 40],
];

fn sends(kernel: &Kernel, mark: u32, table: u32) -> bool {
    kernel.walk(&Packet { mark }) == Verdict::Table(table)
}

fn is_drawn(kernel: &Kernel, [one, two, three, four]: [u32; 4]) -> bool {
    sends(kernel, 1, one)
        && sends(kernel, 2, two)
        && sends(kernel, 3, three)
        && sends(kernel, 4, four)
}

#[test]
fn each_moment_is_as_drawn(rt: HostRuntime) -> Result<(), Fail> {
    let mut kernel = start(rt.alloc())?;
    assert!(rt; is_drawn(&kernel, DRAWN[0]));
    kernel.add(&NEW[0])?;
    assert!(rt; is_drawn(&kernel, DRAWN[1]));
    kernel.add(&NEW[3])?;
    assert!(rt; is_drawn(&kernel, DRAWN[2]));
    kernel.delete(&OLD[2])?;
    assert!(rt; is_drawn(&kernel, DRAWN[3]));
    kernel.delete(&OLD[0])?;
    assert!(rt; is_drawn(&kernel, DRAWN[4]));
    Ok(())
}

#[test]
fn moves_over_with_ample_memory(rt: HostRuntime) -> Result<(), Fail> {
    let mut kernel = start(rt.alloc())?;
    assert_eq!(rt; move_over(&mut kernel), Ok(()));
    assert!(rt; is_drawn(&kernel, DRAWN[4]));
    Ok(())
}
