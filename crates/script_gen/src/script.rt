ghost use Rattle.std.specs.Prelude.{◌≡◌, ◌≤◌, IfOk};
ghost use Rattle.script_gen.specs.Script.{script_text};

use crate::draws::Draws;
use crate::line::write_line;
use number_text::append_bytes;
use std::alloc::{AllocError, Global};

/// The lines with which every script begins: three physical interfaces and two of VPNs, in five networks.
const FIRST_LINES: &[u8] = b"\
link add w0 2
link add w1 3
link add w2 4
link add t0 5
link add t1 6
network create 100 physical none
network create 101 physical network
network create 200 virtual secure
network create 201 virtual bypassable
interface add 100 w0
interface add 101 w1
interface add 99 w2
interface add 200 t0
interface add 201 t1
default set 100
";

/// The script of this seed: the fifteen first lines, and then so many that are drawn.
pub fn make_script(alloc: Global, seed: u64, count: u32) -> Result<Vec<u8>, AllocError>
    requires { count ≤ 100000 }
    ensures { IfOk result (λ script. script.items ≡ script_text seed count) }
{
    let mut script = Vec::new(alloc);
    append_bytes(FIRST_LINES, &mut script)?;
    let mut draws = Draws { number: seed };
    for _ in 0..count {
        write_line(&mut draws, &mut script)?;
    }
    Ok(script)
}
