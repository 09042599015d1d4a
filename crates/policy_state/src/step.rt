// A state's way to the next one.
ghost use Rattle.std.specs.Prelude.{◌≡◌, ◌↔◌, None, Some, Err, IfOk, OnOk, OnErr};
ghost use Rattle.std.specs.Fn.{FnOnceReturnsAtMut, FnOnceTakesAtMut};
ghost use Rattle.policy_state.specs.Change.{Fits, turned, turned_if};
ghost use Rattle.policy_state.specs.Good.{IsGood};
ghost use Rattle.policy_state.specs.Parts.{view_of, IsTallied};
ghost use Rattle.policy_state.specs.Step.{refusal, changed};

use crate::change::Change;
use crate::fault::StepFault;
use crate::parts::Parts;
use crate::state::State;
use commands::Command;
use net_names::Code;
use std::alloc::AllocError;

impl Parts {
    // The parts after the change.
    fn turned_by(&self, change: &Change) -> Result<Parts, AllocError>
        requires good { IsGood (view_of self.now) }
        requires good_after { IsGood (turned change.now (view_of self.now)) }
        requires tallied { IsTallied self.now }
        requires fits { Fits change.now (view_of self.now) }
        ensures view { IfOk result (λ parts. view_of parts ≡ turned change.now (view_of self.now)) }
        ensures tallied { IfOk result IsTallied }
    {
        let mut parts = self.copy()?;
        parts.make_room(change)?;
        parts.turn(change);
        Ok(parts)
    }
}

impl State {
    /// The state after the command.
    pub fn step(&self, command: &Command) -> Result<State, StepFault>
        ensures accepted { OnOk result (refusal self.now command.now ≡ None) }
        ensures changed { IfOk result (λ state. state ≡ changed self.now command.now) }
        ensures good { IfOk result IsGood }

        // with this very code, and exactly where there is one
        ensures refused { (code : Code) → (result ≡ Err (StepFault.Refused code)) ↔
            (refusal self.now command.now ≡ Some code) }
    {
        let parts = &self.parts;
        let change = match parts.accept(command) {
            Ok(change) => change,
            Err(code) => return Err(StepFault::Refused { code }),
        };
        command.fits_types();
        match parts.turned_by(&change) {
            Ok(parts) => Ok(State { parts }),
            Err(fault) => Err(StepFault::Memory(fault)),
        }
    }

    /// Makes the change where `ask` says that it may be made. The room for it is taken first, so that from there on nothing
    /// runs out of memory; where there is none, nothing is asked.
    pub fn turn_if<C, R, F: FnOnce(&mut C) -> Result<(), R>>(
        &mut self,
        change: &Change,
        context: &mut C,
        ask: F,
    ) -> Result<Result<(), R>, AllocError>
        requires callable { FnOnceTakesAtMut F.FnOnce ask context.old }
        requires fits { Fits change.now self.old }
        requires good_after { IsGood (turned change.now self.old) }
        ensures asked { IfOk result
            (λ said. FnOnceReturnsAtMut F.FnOnce ask context.old said context.new) }
        ensures not_asked { OnErr result (context.new ≡ context.old) }
        ensures state { self.new ≡ turned_if result change.now self.old }
    {
        self.parts.make_room(change)?;
        match ask(context) {
            Ok(()) => {
                self.parts.turn(change);
                Ok(Ok(()))
            }
            Err(reason) => Ok(Err(reason)),
        }
    }
}
