ghost use Rattle.std.specs.Fmt.{decimal};
ghost use Rattle.std.specs.Prelude.{◌≡◌, ◌<◌, ◌++◌, Some, codes, length, slice_get};
ghost use Rattle.number_text.specs.Appends.{Appends};
ghost use Rattle.report_text.specs.Actions.{action_text};
ghost use Rattle.report_text.specs.Trails.{step_text, trail_text};

use kernel_model::Step;
use number_text::{append_byte, append_bytes};
use packet_trace::Trail;
use rule_match::Action;
use std::alloc::AllocError;
use word_text::write_number;

/// Appends what a rule does.
pub fn write_action(action: Action, out: &mut Vec<u8>) -> Result<(), AllocError>
    ensures { Appends out.old out.new result (action_text action) }
{
    match action {
        Action::Table(table) => {
            append_bytes(b"lookup ", out)?;
            write_number(table, out)
        }
        Action::Prohibit => append_bytes(b"prohibit", out),
        Action::Unreachable => append_bytes(b"unreachable", out),
    }
}

fn write_priority(priority: u32, out: &mut Vec<u8>) -> Result<(), AllocError>
    ensures { Appends out.old out.new result (codes "  " ++ decimal priority ++ codes " ") }
{
    append_bytes(b"  ", out)?;
    write_number(priority, out)?;
    append_byte(b' ', out)
}

/// Appends the line of a step.
pub fn write_step(step: Step, out: &mut Vec<u8>) -> Result<(), AllocError>
    ensures { Appends out.old out.new result (step_text step) }
{
    write_priority(step.priority, out)?;
    write_action(step.action, out)?;
    append_byte(b'\n', out)
}

fn step_at(trail: &Trail, place: usize) -> Step
    requires { place < length trail.now.steps }
    ensures { slice_get trail.now.steps place ≡ Some result }
{
    trail.step_at(place).unwrap()
}

/// Appends the lines of a trail.
pub fn write_trail(trail: &Trail, out: &mut Vec<u8>) -> Result<(), AllocError>
    ensures { Appends out.old out.new result (trail_text trail.now.steps) }
{
    for place in 0..trail.step_count() {
        let step = step_at(trail, place);
        write_step(step, out)?;
    }
    Ok(())
}
