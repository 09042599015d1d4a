//! Pieces of one byte, and each read and each write failing in turn.
use crate::over_memory::{PHONE, PHONE_ANSWERS, Streams, run_over};
use kernel_model::Kernel;
use netd_top::{Status, Stop};
use prefixes::Family;
use sim_kernel::SimKernel;
use std::test::Fail;

const TWO: &[u8] = b"lockdown add 0-9\nlockdown remove 0-9\n";

const TWO_ANSWERS: &[u8] = b"1: done\n2: done\n";

/// The bytes of the first line, with its line feed.
const FIRST_LINE: u64 = 17;

// Whether a range is locked down: then its rule of this priority is there.
fn is_locked_down<K: Kernel>(kernel: &K) -> bool {
    for place in 0..kernel.rule_count(Family::V4) {
        if let Some(rule) = kernel.rule_at(Family::V4, place) {
            if rule.priority == 12500 {
                return true;
            }
        }
    }
    false
}

#[test]
fn pieces_of_a_phone_change_nothing(rt: HostRuntime) -> Result<(), Fail> {
    for read_piece in [1, 2, 7, 600] {
        for write_piece in [1, 600] {
            let streams = Streams {
                read_piece,
                write_piece,
                fail_read: &[],
                fail_write: &[],
            };
            let alloc = rt.alloc();
            let mut kernel = SimKernel::new(alloc, Vec::new(alloc), Vec::new(alloc))?;
            let (ended, written) = run_over(alloc, PHONE, &streams, &mut kernel)?;
            assert!(rt; ended.status() == Status::Finished);
            assert!(rt; written.as_slice() == PHONE_ANSWERS);
        }
    }
    Ok(())
}

// The read after the first line fails once that line is answered, and its range stands.
#[test]
fn each_read_fails_in_turn(rt: HostRuntime) -> Result<(), Fail> {
    for number in 1..=FIRST_LINE + 1 {
        let streams = Streams {
            read_piece: 1,
            write_piece: 600,
            fail_read: &[number],
            fail_write: &[],
        };
        let alloc = rt.alloc();
        let mut kernel = SimKernel::new(alloc, Vec::new(alloc), Vec::new(alloc))?;
        let (ended, written) = run_over(alloc, TWO, &streams, &mut kernel)?;
        let whole = number > FIRST_LINE;
        assert!(rt; ended.status() == Status::Stopped(Stop::ReadFault));
        assert!(rt;
            written.as_slice()
                == if whole {
                    b"1: done\n".as_slice()
                } else {
                    b"".as_slice()
                }
        );
        assert_eq!(rt; is_locked_down(&kernel), whole);
    }
    Ok(())
}

// Each write takes one byte, so those before it were written.
#[test]
fn each_write_fails_in_turn(rt: HostRuntime) -> Result<(), Fail> {
    for before in 0..TWO_ANSWERS.len() {
        let streams = Streams {
            read_piece: 600,
            write_piece: 1,
            fail_read: &[],
            fail_write: &[before as u64 + 1],
        };
        let alloc = rt.alloc();
        let mut kernel = SimKernel::new(alloc, Vec::new(alloc), Vec::new(alloc))?;
        let (ended, written) = run_over(alloc, TWO, &streams, &mut kernel)?;
        assert!(rt; ended.status() == Status::Stopped(Stop::WriteFault));
        assert!(rt; written.as_slice() == &TWO_ANSWERS[..before]);
    }
    Ok(())
}
