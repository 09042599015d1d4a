//! A session over memory, and a phone's script with its answers.
ghost use Rattle.std.specs.Prelude.{◌≡◌, []};

use kernel_model::Kernel;
use net_io::{MemSink, MemSource};
use netd_session::{Ended, session};
use std::alloc::{AllocError, Global};

pub const PHONE: &[u8] = b"link add wlan0 3
network create 100 physical none
interface add 100 wlan0
route add 100 wlan0 0.0.0.0/0 via 192.168.1.1
default set 100
socket open s 10050
socket connect s
trace s 8.8.8.8
";

pub const PHONE_ANSWERS: &[u8] = b"1: done
2: done
3: done
4: done
5: done
6: mark 0x0
7: mark 0x64
8: mark 0x64 out wlan0 via 192.168.1.1
  0 lookup 255
  17000 lookup 97
  19000 lookup 1003
";

/// In which pieces the bytes are read and written, and which reads and writes fail, by their numbers.
#[derive(Drop)]
pub struct Streams<'a> {
    pub read_piece: usize,
    pub write_piece: usize,
    pub fail_read: &'a [u64],
    pub fail_write: &'a [u64],
}

/// Large pieces, of which none fails.
pub const WHOLE: Streams<'static> = Streams {
    read_piece: 600,
    write_piece: 600,
    fail_read: &[],
    fail_write: &[],
};

/// Runs the script on the kernel, and gives how it ended and what was written.
pub fn run_over<K: Kernel>(
    alloc: Global,
    script: &[u8],
    streams: &Streams,
    kernel: &mut K,
) -> Result<(Ended, Vec<u8>), AllocError>
    requires { (K.seen kernel.old).journal ≡ [] }
{
    let bytes = script.to_vec(alloc)?;
    let mut source = MemSource::new(
        bytes,
        streams.fail_read.to_vec(alloc)?,
        streams.read_piece.max(1),
    );
    let mut sink = MemSink::new(
        alloc,
        streams.fail_write.to_vec(alloc)?,
        streams.write_piece.max(1),
    );
    let ended = session(alloc, &mut source, &mut sink, kernel);
    let written = sink.written().to_vec(alloc)?;
    Ok((ended, written))
}
