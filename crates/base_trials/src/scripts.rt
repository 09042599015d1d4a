use script_gen::make_script;
use std::test::Fail;

// The lines were drawn by hand from the definition of the generator; the first number is 1059165278, whose last digit is the
// form of a packet's line.
#[test]
fn the_first_drawn_lines_of_seed_7(rt: HostRuntime) -> Result<(), Fail> {
    let none = make_script(rt.alloc(), 7, 0)?;
    let eight = make_script(rt.alloc(), 7, 8)?;
    let lines = b"\
packet 13231 0x65 10.145.0.1
lockdown remove 11900-11999
lockdown add 11400-11499
interface remove 100 w0
lockdown remove 13200-13299
route add 201 t1 10.162.0.0/16
lockdown remove 14900-14999
default set 101
";
    assert!(rt; none.as_slice().ends_with(b"default set 100\n"));
    assert!(rt; eight.as_slice().starts_with(none.as_slice()));
    assert!(rt; eight.as_slice().ends_with(lines));
    Ok(())
}
