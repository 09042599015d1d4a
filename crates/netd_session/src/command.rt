ghost use Rattle.std.specs.Prelude.{◌≡◌, ◌+◌, ◌*◌, ◌≤◌, ◌++◌, None, length, vec_capacity, vec_len};
ghost use Rattle.kernel_model.specs.Form.{AreWellFormed};
ghost use Rattle.net_control.specs.Applied.{IsAnswered};
ghost use Rattle.net_control.specs.Bounds.{KeepsLimit};
ghost use Rattle.net_control.specs.Causes.{HasCause};
ghost use Rattle.net_control.specs.Moments.{GoesOnce, IsAsBefore, KeepsLockdown, KeepsPolicy, SendsByPolicy};
ghost use Rattle.net_control.specs.View.{IsKept};
ghost use Rattle.policy_state.specs.Step.{changed};
ghost use Rattle.turn_text.specs.Texts.{answer_room};
ghost use Rattle.netd_session.specs.Watches.{request_room, requests_text};

use crate::watch::put_requests;
use kernel_model::Kernel;
use net_control::Controller;
use packet_trace::Watched;
use policy_state::Command;
use rule_match::Packet;
use std::alloc::{AllocError, Global};
use turn_text::Answer;

/// Carries a command out while a packet is watched, or none, and says of each request after which it goes another way
/// where it goes then: by the one switch of a command there are at most two.
pub(crate) fn apply_watched<K: Kernel>(
    alloc: Global,
    number: u32,
    command: &Command,
    packet: Option<Packet>,
    controller: &mut Controller,
    kernel: &mut K,
    out: &mut Vec<u8>,
) -> Result<Answer, AllocError>
    requires kept { IsKept controller.old (K.seen kernel.old) }
    requires runs { controller.old.halted ≡ None }
    requires room { vec_len out.old + 2 * request_room + answer_room ≤ vec_capacity out.old }
    ensures answer { IsAnswered result command.now controller.old controller.new
        (K.seen kernel.old) (K.seen kernel.new) }
    ensures kept { IsKept controller.new (K.seen kernel.new) }
    ensures sends { SendsByPolicy controller.new (K.seen kernel.new) }
    ensures caused { HasCause result command.now controller.old controller.new
        (K.seen kernel.old) (K.seen kernel.new) }
    ensures bounded { KeepsLimit controller.old.state command.now (K.seen kernel.old)
        (K.seen kernel.new) }
    ensures formed { AreWellFormed (K.seen kernel.old).journal
        → AreWellFormed (K.seen kernel.new).journal }
    ensures moments { KeepsPolicy (K.seen kernel.old) (K.seen kernel.new) controller.old.state
        (changed controller.old.state command.now) }
    ensures locked { KeepsLockdown (K.seen kernel.old) (K.seen kernel.new) controller.old.state
        (changed controller.old.state command.now) }
    ensures once { GoesOnce (K.seen kernel.old) (K.seen kernel.new) controller.old.state
        (changed controller.old.state command.now) }
    ensures as_before { IsAsBefore result (K.seen kernel.old) (K.seen kernel.new) }
    ensures text { out.new.items ≡ out.old.items
        ++ requests_text number controller.new.state packet
        (K.seen kernel.old) (K.seen kernel.new) }
    ensures room { vec_len out.new + answer_room ≤ vec_capacity out.new }
{
    let mut watched = Watched::new(alloc, kernel, packet);
    let result = controller.apply(&mut watched, command);
    put_requests(number, &watched, controller.state(), out);
    let _ = watched.finish();
    result
}
