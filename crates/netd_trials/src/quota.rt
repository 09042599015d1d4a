//! A kernel that refuses by what it holds.
use crate::over_memory::{PHONE, PHONE_ANSWERS, WHOLE, run_over};
use kernel_model::Kernel;
use netd_top::{Status, Stop};
use sim_kernel::QuotaKernel;
use std::test::Fail;

// Lockdown needs a tenth rule of a family; without the default network there is room for it, and then none for that network.
const FURTHER: &[u8] = b"lockdown add 10000-19999
default clear
lockdown add 10000-19999
default set 100
";

const FURTHER_ANSWERS: &[u8] = b"9: kernel refused request 18
10: done
11: done
12: kernel refused request 23
";

#[test]
fn nine_rules_are_enough_for_one_of_two(rt: HostRuntime) -> Result<(), Fail> {
    let alloc = rt.alloc();
    let mut kernel = QuotaKernel::new(alloc, 9)?;
    let mut script = PHONE.to_vec(alloc)?;
    script.extend_from_slice(FURTHER)?;
    let mut wanted = PHONE_ANSWERS.to_vec(alloc)?;
    wanted.extend_from_slice(FURTHER_ANSWERS)?;
    let (ended, written) = run_over(alloc, &script, &WHOLE, &mut kernel)?;
    assert!(rt; ended.status() == Status::Finished);
    assert!(rt; written.as_slice() == wanted.as_slice());
    Ok(())
}

#[test]
fn three_rules_are_too_few_to_start(rt: HostRuntime) -> Result<(), Fail> {
    let alloc = rt.alloc();
    let mut kernel = QuotaKernel::new(alloc, 3)?;
    let (ended, written) = run_over(alloc, b"", &WHOLE, &mut kernel)?;
    assert!(rt; ended.status() == Status::Stopped(Stop::StartRefused));
    assert!(rt; written.as_slice() == b"start: refused at request 5\n".as_slice());
    assert_eq!(rt; kernel.entry_count(), 9);
    Ok(())
}

// With an interface of the local network a family has six rules. Two routes are there from the start, so four more have
// room, and a fifth once one of them has gone.
const ROUTES: &[u8] = b"link add usb0 4
interface add 99 usb0
route add 99 usb0 192.168.1.0/24
route add 99 usb0 192.168.2.0/24
route add 99 usb0 192.168.3.0/24
route add 99 usb0 192.168.4.0/24
route add 99 usb0 192.168.5.0/24
route remove 99 usb0 192.168.1.0/24
route add 99 usb0 192.168.5.0/24
";

const ROUTES_ANSWERS: &[u8] = b"1: done
2: done
3: done
4: done
5: done
6: done
7: kernel refused request 15
8: done
9: done
";

#[test]
fn a_deleted_route_leaves_room(rt: HostRuntime) -> Result<(), Fail> {
    let alloc = rt.alloc();
    let mut kernel = QuotaKernel::new(alloc, 6)?;
    let (ended, written) = run_over(alloc, ROUTES, &WHOLE, &mut kernel)?;
    assert!(rt; ended.status() == Status::Finished);
    assert!(rt; written.as_slice() == ROUTES_ANSWERS);
    assert_eq!(rt; kernel.entry_count(), 17);
    Ok(())
}
