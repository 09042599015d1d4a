//! Laws: the contract of each function here is its statement, and its body is empty.
ghost use Rattle.std.specs.Prelude.{◌≡◌, ◌≢◌, List, ◌++◌};
ghost use Rattle.kernel_model.specs.State.{KernelState, start as kernel_start};
ghost use Rattle.kernel_model.specs.Stands.{Stands};
ghost use Rattle.kernel_model.specs.Walk.{walk};
ghost use Rattle.networks.specs.declared.network.Network.{Network};
ghost use Rattle.policy_meaning.specs.Policy.{IsBarred, policy};
ghost use Rattle.policy_meaning.specs.Promise.{StaysIn};
ghost use Rattle.policy_state.specs.Good.{IsGood};
ghost use Rattle.policy_state.specs.Table.{rule_table, route_list};
ghost use Rattle.policy_state.specs.View.{StateView, start};
ghost use Rattle.rule_match.specs.declared.packet.Packet.{Packet};
ghost use Rattle.rule_match.specs.declared.verdict.Verdict.{Verdict};

/// The table means the policy: a kernel that stands for a good state sends every packet where
/// the policy says.
pub fn table_means_policy()
    ensures { (s : StateView) (k : KernelState) (p : Packet)
        → IsGood s → Stands k (rule_table s) (route_list s)
        → walk k p ≡ policy s p }
{}

/// Lockdown's promise: what a user other than root sends unprotected while it is locked down
/// leaves by no link but an interface of a secure VPN.
pub fn barred_stays_in()
    ensures { (s : StateView) (p : Packet) → IsGood s → IsBarred s p → p.uid.number ≢ 0 →
        StaysIn s.networks (policy s p) }
{}

/// What stays in stays in where more networks may be used.
pub fn more_networks_stay_in()
    ensures after { (ns ms : List Network) (v : Verdict) → StaysIn ns v → StaysIn (ns ++ ms) v }
    ensures before { (ns ms : List Network) (v : Verdict) → StaysIn ns v → StaysIn (ms ++ ns) v }
{}

/// The starting kernel, which has its own rule alone, sends every packet where the first state's
/// policy says.
pub fn own_rule_means_start()
    ensures { (p : Packet) → walk kernel_start p ≡ policy start p }
{}
