ghost use Rattle.std.specs.Prelude.{◌≡◌, IfOk, length, slice_get};
ghost use Rattle.kernel_model.specs.View.{state_of};
ghost use Rattle.kernel_model.specs.Walk.{walk, trail_of};

use kernel_model::{Kernel, Step, given};
use rule_match::{Packet, Verdict};
use std::alloc::{AllocError, Global};
use std::marker::Model;

/// The rules that a walk looked at and that matched, the deciding one last, and where the packet goes.
#[derive(Drop)]
pub struct Trail {
    steps: Vec<Step>,
    verdict: Verdict,
}

impl Model for Trail {
    ghost use Rattle.packet_trace.specs.Trail.{TrailView};

    ghost Value = { TrailView };

    ghost view = { λ t. record { steps = t.steps.items; verdict = t.verdict } };
}

impl Trail {
    pub fn step_count(&self) -> usize
        ensures { result ≡ length self.now.steps }
    {
        self.steps.len()
    }

    /// The step at a place, from 0.
    pub fn step_at(&self, place: usize) -> Option<Step>
        ensures { result ≡ slice_get self.now.steps place }
    {
        self.steps.get(place).copied()
    }

    pub fn verdict(&self) -> Verdict
        ensures { result ≡ self.now.verdict }
    {
        self.verdict
    }
}

/// Follows a packet through the kernel's rules, from one that it matches to the next.
pub fn follow<K: Kernel>(alloc: Global, kernel: &K, packet: &Packet) -> Result<Trail, AllocError>
    ensures steps { IfOk result (λ trail. trail.steps ≡
        trail_of (state_of (K.seen kernel.now)) packet.now) }
    ensures verdict { IfOk result (λ trail. trail.verdict ≡
        walk (state_of (K.seen kernel.now)) packet.now) }
{
    let count = kernel.rule_count(packet.family());
    let mut steps = Vec::new(alloc);
    let mut from = 0;
    while from < count {
        let Some(found) = kernel.next_match(packet, from) else {
            break;
        };
        steps.push(Step {
            priority: found.rule.priority,
            action: found.rule.action,
        })?;
        if let Some(verdict) = given(kernel, found.rule.action, packet) {
            return Ok(Trail { steps, verdict });
        }
        from = found.place + 1;
    }
    Ok(Trail {
        steps,
        verdict: Verdict::Unreachable,
    })
}
