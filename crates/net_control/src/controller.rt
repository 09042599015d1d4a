ghost use Rattle.std.specs.Prelude.{◌≡◌, ◌≤◌, ◌<◌, ◌+◌, ◌*◌, ℕ, [], None, Some, OnOk, IfOk, MatchOption, length, slice_get};
ghost use Rattle.net_control.specs.Limit.{journal_limit};
ghost use Rattle.kernel_model.specs.View.{grown};
ghost use Rattle.kernel_model.specs.declared.request.Request.TheVariants as req;
ghost use Rattle.prefixes.specs.declared.route.Route.{Route};
ghost use Rattle.policy_state.specs.View.{start};

use crate::bring::{Stopped, ask_all};
use kernel_model::{Kernel, Plan, Request};
use net_names::Code;
use plan_exec::{Carried, carry};
use policy_meaning::{
    barred_stays_in, more_networks_stay_in, own_rule_means_start, table_means_policy,
};
use policy_state::{Change, Command, State};
use rule_compile::{
    plan_change, plan_ends, plan_law, requests_can_be_asked, start_law, start_plan,
};
use std::alloc::{AllocError, Global};
use std::marker::Model;
use thiserror::Error;
use turn_text::Answer;

/// The most entries that a journal may have.
pub const JOURNAL_LIMIT: u64 = 1_000_000;

/// The start's six additions, and undoing them.
const START_REQUESTS: u64 = 12;

/// Why a controller didn't start. A request's number is its place in the kernel's journal, counted from 1.
#[derive(Debug, Drop, Error)]
pub enum StartFault {
    /// This request was refused, and those before it were undone.
    #[error("refused at request {request}")]
    Refused { request: u64 },
    /// This deletion broke.
    #[error("halted at request {request}")]
    Halted { request: u64 },
    #[error(transparent)]
    Memory(AllocError),
}

/// The state of the policy, and whether the kernel can still be brought to it.
#[derive(Drop)]
pub struct Controller {
    alloc: Global,
    state: State,
    halted: Option<u64>,
}

impl Model for Controller {
    ghost use Rattle.net_control.specs.View.{ControllerView};

    ghost Value = { ControllerView };

    ghost view = { λ c. record { state = c.state; halted = c.halted } };
}

// The most requests that carrying a plan takes, since each addition may have to be undone; none where the journal has no
// room for so many.
fn room_for<K: Kernel>(kernel: &K, plan: &Plan) -> Option<u64>
    ensures { MatchOption result
        (journal_limit < length (K.seen kernel.now).journal +
        (2 * length plan.now.adds + length plan.now.deletes))
        (λ most. (most ≡ 2 * length plan.now.adds + length plan.now.deletes)
        × (length (K.seen kernel.now).journal + most ≤ journal_limit)) }
{
    let adds = plan.add_count() as u64;
    let deletes = plan.delete_count() as u64;
    if adds > JOURNAL_LIMIT || deletes > JOURNAL_LIMIT {
        return None;
    }
    let most = 2 * adds + deletes;
    let entries = kernel.entry_count();
    if entries > JOURNAL_LIMIT || entries + most > JOURNAL_LIMIT {
        return None;
    }
    Some(most)
}

// Makes room for this many requests, and where the plan adds a route, which is then all that it adds, for that one in its
// table.
fn make_room<K: Kernel>(kernel: &mut K, plan: &Plan, most: u64) -> Result<(), AllocError>
    ensures seen { K.seen kernel.new ≡ K.seen kernel.old }
    ensures spare { OnOk result (most ≤ (K.room kernel.new).spare) }
    ensures ready { OnOk result ((n : ℕ) (route : Route)
        → slice_get plan.now.adds 0 ≡ Some (req.Route n route)
        → (K.room kernel.new).ready ≡ Some n) }
{
    kernel.reserve(most)?;
    match plan.add_at(0) {
        Some(Request::Route { table, .. }) => kernel.prepare(table),
        Some(Request::Rule { .. }) | None => Ok(()),
    }
}

impl Controller {
    ghost use Rattle.kernel_model.specs.Form.{AreWellFormed};
    ghost use Rattle.net_control.specs.Started.{IsStarted, IsStartAsked};
    ghost use Rattle.net_control.specs.Applied.{IsAnswered};
    ghost use Rattle.net_control.specs.View.{IsKept, running};
    ghost use Rattle.net_control.specs.Bounds.{KeepsLimit};
    ghost use Rattle.net_control.specs.Causes.{HasCause, HasStartCause};
    ghost use Rattle.net_control.specs.Moments.{GoesOnce, IsAsBefore, IsStartAsBefore, KeepsLockdown, KeepsPolicy, SendsByPolicy};
    ghost use Rattle.net_control.specs.Brought.{IsBrought};
    ghost use Rattle.plan_exec.specs.MayCarry.{MayCarry};
    ghost use Rattle.policy_state.specs.Change.{Fits, turned};
    ghost use Rattle.policy_state.specs.Good.{IsGood};
    ghost use Rattle.policy_state.specs.Step.{changed};

    // Asks for the rules of the first state.
    fn ask_start<K: Kernel>(alloc: Global, kernel: &mut K) -> Result<(), StartFault>
        requires { (K.seen kernel.old).journal ≡ [] }
        ensures answer { IsStartAsked result (K.seen kernel.old) (K.seen kernel.new) }
        ensures kept { IfOk result (λ _. IsKept (running start) (K.seen kernel.new)) }
    {
        let plan = match start_plan(alloc) {
            Ok(plan) => plan,
            Err(fault) => return Err(StartFault::Memory(fault)),
        };
        if let Err(fault) = kernel.reserve(START_REQUESTS) {
            return Err(StartFault::Memory(fault));
        }
        match carry(&plan, kernel) {
            Carried::Done => Ok(()),
            Carried::Undone { request } => Err(StartFault::Refused { request }),
            Carried::Halted { request } => Err(StartFault::Halted { request }),
        }
    }

    // Makes the first state, and then asks for its rules.
    fn make<K: Kernel>(alloc: Global, kernel: &mut K) -> Result<Controller, StartFault>
        requires { (K.seen kernel.old).journal ≡ [] }
        ensures answer { IsStarted result (K.seen kernel.old) (K.seen kernel.new) }
        ensures kept { IfOk result (λ controller. IsKept controller (K.seen kernel.new)) }
    {
        let state = match State::start(alloc) {
            Ok(state) => state,
            Err(fault) => return Err(StartFault::Memory(fault)),
        };
        match Controller::ask_start(alloc, kernel) {
            Ok(()) => Ok(Controller {
                alloc,
                state,
                halted: None,
            }),
            Err(fault) => Err(fault),
        }
    }

    /// Asks a starting kernel for the rules of the first state, and takes those back that it took where it refuses one.
    /// All the while packets go where that state's policy says.
    pub fn start<K: Kernel>(alloc: Global, kernel: &mut K) -> Result<Controller, StartFault>
        requires { (K.seen kernel.old).journal ≡ [] }
        ensures answer { IsStarted result (K.seen kernel.old) (K.seen kernel.new) }
        ensures kept { IfOk result (λ controller. IsKept controller (K.seen kernel.new)) }

        // after it every packet goes where the policy says, and lockdown holds
        ensures sends { IfOk result (λ controller. SendsByPolicy controller (K.seen kernel.new)) }

        // each answer by its cause
        ensures caused { HasStartCause result (K.seen kernel.old) (K.seen kernel.new) }

        // at every moment between two requests
        ensures moments { KeepsPolicy (K.seen kernel.old) (K.seen kernel.new) start start }
        ensures once { GoesOnce (K.seen kernel.old) (K.seen kernel.new) start start }

        // after a refusal its rules, their order and its tables are the very ones from before
        ensures as_before { IsStartAsBefore result (K.seen kernel.old) (K.seen kernel.new) }

        // each request is well formed
        ensures formed { AreWellFormed (K.seen kernel.new).journal }
    {
        start_law();
        own_rule_means_start();
        table_means_policy();
        barred_stays_in();
        Controller::make(alloc, kernel)
    }

    /// The state of the policy.
    pub fn state(&self) -> &State
        ensures { result.now ≡ self.now.state }
    {
        &self.state
    }

    /// The request by which the controller halted.
    pub fn halted(&self) -> Option<u64>
        ensures { result ≡ self.now.halted }
    {
        self.halted
    }

    // Carries the plan out, and makes the change of the state where nothing came in the way.
    fn bring<K: Kernel>(
        &mut self,
        kernel: &mut K,
        change: &Change,
        plan: &Plan,
    ) -> Result<Answer, AllocError>
        requires fits { Fits change.now self.old.state }
        requires good_after { IsGood (turned change.now self.old.state) }
        requires may { MayCarry plan.now (K.seen kernel.old) (K.room kernel.old) }
        ensures { IsBrought result plan.now (turned change.now self.old.state) self.old self.new
            (K.seen kernel.old) (K.seen kernel.new) }
    {
        let asked = self
            .state
            .turn_if(change, kernel, |kernel| ask_all(plan, kernel))?;
        match asked {
            Ok(()) => Ok(Answer::Done),
            Err(Stopped::Undone { request }) => Ok(Answer::KernelRefused { request }),
            Err(Stopped::Halted { request }) => {
                self.halted = Some(request);
                Ok(Answer::Halted { request })
            }
        }
    }

    // Takes a command with a controller that has not halted.
    fn take<K: Kernel>(&mut self, kernel: &mut K, command: &Command) -> Result<Answer, AllocError>
        requires kept { IsKept self.old (K.seen kernel.old) }
        requires runs { self.old.halted ≡ None }
        ensures answer { IsAnswered result command.now self.old self.new (K.seen kernel.old)
            (K.seen kernel.new) }
        ensures kept { IsKept self.new (K.seen kernel.new) }
    {
        let change = match self.state.accept(command) {
            Ok(change) => change,
            Err(code) => return Ok(Answer::Refused { code }),
        };
        let plan = plan_change(self.alloc, &self.state, &change)?;
        let Some(most) = room_for(kernel, &plan) else {
            return Ok(Answer::Refused {
                code: Code::NoSpace,
            });
        };
        make_room(kernel, &plan, most)?;
        command.fits_types();
        requests_can_be_asked();
        plan_ends();
        self.bring(kernel, &change, &plan)
    }

    // Answers a command, asking nothing where the controller has halted.
    fn answer<K: Kernel>(&mut self, kernel: &mut K, command: &Command) -> Result<Answer, AllocError>
        requires { IsKept self.old (K.seen kernel.old) }
        ensures answer { IsAnswered result command.now self.old self.new (K.seen kernel.old)
            (K.seen kernel.new) }
        ensures kept { IsKept self.new (K.seen kernel.new) }
    {
        match self.halted {
            Some(request) => Ok(Answer::Halted { request }),
            None => self.take(kernel, command),
        }
    }

    /// Brings the kernel and the state to what the command gives, at the cost of what the command changes. The plan, the
    /// kernel's room and the state's are made first, so that nothing can run out of memory from the first request on. A
    /// controller that has halted asks nothing.
    pub fn apply<K: Kernel>(
        &mut self,
        kernel: &mut K,
        command: &Command,
    ) -> Result<Answer, AllocError>
        requires { IsKept self.old (K.seen kernel.old) }
        ensures answer { IsAnswered result command.now self.old self.new (K.seen kernel.old)
            (K.seen kernel.new) }
        ensures kept { IsKept self.new (K.seen kernel.new) }

        // after it, unless the controller has halted, every packet goes where the policy says, and lockdown holds
        ensures sends { SendsByPolicy self.new (K.seen kernel.new) }

        // each answer by its cause
        ensures caused { HasCause result command.now self.old self.new (K.seen kernel.old)
            (K.seen kernel.new) }

        // how much is asked
        ensures bounded { KeepsLimit self.old.state command.now (K.seen kernel.old)
            (K.seen kernel.new) }

        // a journal of well formed requests stays one
        ensures formed { AreWellFormed (K.seen kernel.old).journal
            → AreWellFormed (K.seen kernel.new).journal }

        // at every moment between two requests, undoing and halts included
        ensures moments { self.old.halted ≡ None
            → KeepsPolicy (K.seen kernel.old) (K.seen kernel.new) self.old.state
            (changed self.old.state command.now) }
        ensures locked { self.old.halted ≡ None
            → KeepsLockdown (K.seen kernel.old) (K.seen kernel.new) self.old.state
            (changed self.old.state command.now) }

        // one switch, where nothing was undone
        ensures once { self.old.halted ≡ None
            → GoesOnce (K.seen kernel.old) (K.seen kernel.new) self.old.state
            (changed self.old.state command.now) }

        // after a refusal by the kernel its rules, their order and its tables are the very ones from before
        ensures as_before { IsAsBefore result (K.seen kernel.old) (K.seen kernel.new) }
    {
        command.fits_types();
        requests_can_be_asked();
        plan_law();
        plan_ends();
        table_means_policy();
        barred_stays_in();
        more_networks_stay_in();
        self.answer(kernel, command)
    }
}
