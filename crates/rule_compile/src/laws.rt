//! Laws of a command that a state accepts, on a kernel that stands for the state: the contract of each function here is
//! its statement.
ghost use Rattle.std.specs.Prelude.{◌≡◌, ◌⊎◌, ◌++◌, ◌∷◌, [], ℕ, List, Some, true, false, length, slice_get, take};
ghost use Rattle.std.specs.List.{AllByRecursion};
ghost use Rattle.kernel_model.specs.Form.{IsWellFormed};
ghost use Rattle.kernel_model.specs.Journal.{entry, replay_from};
ghost use Rattle.kernel_model.specs.Same.{Distinct};
ghost use Rattle.kernel_model.specs.Segment.{done, undone, IsSegment};
ghost use Rattle.kernel_model.specs.Stands.{Stands};
ghost use Rattle.kernel_model.specs.State.{KernelState, start as kernel_start, is_absent, is_present, is_route};
ghost use Rattle.kernel_model.specs.Switch.{twins, additions, deletions, IsSwitch, GiveAlike, walk_along};
ghost use Rattle.kernel_model.specs.Walk.{walk};
ghost use Rattle.kernel_model.specs.declared.request.Entry.{Entry};
ghost use Rattle.kernel_model.specs.declared.request.EntryKind.TheVariants.{Deleted, Broken};
ghost use Rattle.kernel_model.specs.declared.request.Request.{Request};
ghost use Rattle.kernel_model.specs.declared.request.Request.TheVariants as req;
ghost use Rattle.prefixes.specs.declared.route.Route.{Route};
ghost use Rattle.policy_state.specs.Step.{changed};
ghost use Rattle.policy_state.specs.Table.{rule_table, start_rules, route_list};
ghost use Rattle.policy_state.specs.Good.{IsGood};
ghost use Rattle.policy_state.specs.View.{StateView, start};
ghost use Rattle.commands.specs.declared.command.Command.{Command};
ghost use Rattle.rule_compile.specs.Asked.{asked_adds, asked_deletes, carried, started, MayStep};
ghost use Rattle.rule_law.specs.Plans.{GoesOver, GoesOverAndBack};
ghost use Rattle.rule_match.specs.declared.packet.Packet.{Packet};

use kernel_model::{ends, goes_over_and_back};

/// The two tables are as the two-lists law asks, and two rules of one table that have equal priority and give a packet
/// something have equal selectors.
pub fn tables_are_lawful()
    ensures switch { (k : KernelState) (s : StateView) (command : Command) → MayStep k s command
        → IsSwitch k (rule_table s) (rule_table (changed s command)) [] }
    ensures alike { (k : KernelState) (s : StateView) (packet : Packet) → IsGood s →
        GiveAlike k packet (rule_table s) }
{}

/// What is asked can be asked: additions are of rules, or one of a route and no other; they are absent, deletions are
/// present, nothing is asked twice, and each request is well formed.
pub fn requests_can_be_asked()
    ensures one_kind { (s : StateView) (command : Command)
        → AllByRecursion (λ q. is_route q ≡ false) (asked_adds s command)
        ⊎ ((n : ℕ) × (route : Route) × (asked_adds s command ≡ req.Route n route ∷ [])) }
    ensures absent { (k : KernelState) (s : StateView) (command : Command) → MayStep k s command
        → AllByRecursion (λ q. is_absent k q ≡ true) (asked_adds s command) }
    ensures present { (k : KernelState) (s : StateView) (command : Command) → MayStep k s command
        → AllByRecursion (λ q. is_present k q ≡ true) (asked_deletes s command) }
    ensures distinct { (k : KernelState) (s : StateView) (command : Command) → MayStep k s command
        → Distinct (asked_adds s command ++ asked_deletes s command) }
    ensures well_formed { (k : KernelState) (s : StateView) (command : Command) →
        MayStep k s command
        → AllByRecursion IsWellFormed (asked_adds s command) ×
        AllByRecursion IsWellFormed (asked_deletes s command) }
{}

/// The plan law: while a command is carried out each packet goes where it went before, and from some moment on where it
/// goes when all is done. While one is undone it goes back at some moment.
pub fn plan_law()
    ensures done { (k : KernelState) (s : StateView) (command : Command) (packet : Packet)
        (entries rest : List Entry)
        → MayStep k s command
        → entries ++ rest ≡ done (asked_adds s command) (asked_deletes s command)
        → GoesOver (length entries) (walk_along k packet entries) (walk k packet)
        (walk (carried k s command) packet) }
    ensures halted { (k : KernelState) (s : StateView) (command : Command) (packet : Packet)
        (entries : List Entry) (i : ℕ) (broken : Request)
        → MayStep k s command
        → slice_get (done (asked_adds s command) (asked_deletes s command)) i ≡
        Some (entry Deleted broken)
        → entries ≡ take i (done (asked_adds s command) (asked_deletes s command)) ++
        entry Broken broken ∷ []
        → GoesOver (length entries) (walk_along k packet entries) (walk k packet)
        (walk (carried k s command) packet) }
    ensures segment { (k : KernelState) (s : StateView) (command : Command) (packet : Packet)
        (entries : List Entry)
        → MayStep k s command
        → IsSegment (asked_adds s command) (asked_deletes s command) entries
        → GoesOverAndBack (length entries) (walk_along k packet entries) (walk k packet)
        (walk (carried k s command) packet) }
{}

/// Where a command ends: when all is done the kernel stands for the new state, and when it is undone the kernel is the
/// very one from before.
pub fn plan_ends()
    ensures done { (k : KernelState) (s : StateView) (command : Command) → MayStep k s command
        → Stands (carried k s command) (rule_table (changed s command))
        (route_list (changed s command)) }
    ensures undone { (k : KernelState) (s : StateView) (command : Command) (i : ℕ)
        (refused : Request) → MayStep k s command
        → slice_get (asked_adds s command) i ≡ Some refused
        → replay_from k (undone (asked_adds s command) i refused) ≡ k }
{}

/// The start: a kernel that has its own rule alone is brought to the rules of the first state, and nothing is deleted.
pub fn start_law()
    ensures asked { additions [] (rule_table start) ≡ twins start_rules }
    ensures deletes { deletions [] (rule_table start) [] ≡ [] }
    ensures absent { AllByRecursion (λ q. is_absent kernel_start q ≡ true) (twins start_rules) }
    ensures distinct { Distinct (twins start_rules) }
    ensures segment { (packet : Packet) (entries : List Entry) →
        IsSegment (twins start_rules) [] entries
        → GoesOverAndBack (length entries) (walk_along kernel_start packet entries)
        (walk kernel_start packet) (walk started packet) }
    ensures stands { Stands started (rule_table start) (route_list start) }
{
    goes_over_and_back();
    ends();
}
