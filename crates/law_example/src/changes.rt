// A change from one table to another.
ghost use Rattle.std.specs.Prelude.{◌≡◌, ◌++◌, ◌∷◌, [], ◌≤◌, false, List, length, map, reverse, take, IfErr, OnOk, OnErr};
ghost use Rattle.rule_law.specs.Rules.{Stands, has};
ghost use Rattle.rule_law.specs.Plans.{Request, Add, Delete, beyond};
ghost use Rattle.law_example.specs.Kinds.{rule_kind};
ghost use Rattle.law_example.specs.Kernels.{rules_of};
ghost use Rattle.law_example.specs.declared.rule.Rule.{Rule};
ghost use Rattle.law_example.specs.Changes.{MayChange, MovesOver, ComesBack, StopsBetween, IsPartly};

use crate::kernel::Kernel;
use crate::rule::Rule;
use std::alloc::AllocError;
use thiserror::Error;

/// Why a change wasn't carried out. Memory ran out, and nothing else.
#[derive(Clone, Copy, Debug, PartialEq, Eq, Error)]
pub enum ChangeError {
    /// It ran out at an addition. The rules are those from before.
    #[error("an addition was refused, and the rules are those from before")]
    Refused,
    /// It ran out at a deletion. The kernel stays on the way.
    #[error("a deletion broke, and the kernel stays on the way")]
    Broken,
}

/// Brings a kernel from the old table to the new one: what the old one lacks is added, in the order of the new one, and
/// then what the new one lacks is deleted, in the reverse order of the old one. Where an addition is refused, those before
/// it are deleted, the last first.
pub fn change(kernel: &mut Kernel, old: &[Rule], new: &[Rule]) -> Result<(), ChangeError>
    requires tables { MayChange old.now new.now }
    requires stands { Stands rule_kind (rules_of kernel.old) old.now }
    ensures done { OnOk result (MovesOver old.now new.now kernel.old kernel.new) }
    ensures refused { result ≡ Err ChangeError.Refused →
        ComesBack old.now new.now kernel.old kernel.new }
    ensures broken { result ≡ Err ChangeError.Broken →
        StopsBetween old.now new.now kernel.old kernel.new }
{
    match add_missing(kernel, old, new) {
        Ok(()) => match delete_missing(kernel, old, new) {
            Ok(()) => Ok(()),
            Err(_) => Err(ChangeError::Broken),
        },
        Err(place) => match delete_missing(kernel, &new[..place], old) {
            Ok(()) => Err(ChangeError::Refused),
            Err(_) => Err(ChangeError::Broken),
        },
    }
}

// Adds those of the new rules that the old ones lack. An error is the place of the new rule that was refused.
fn add_missing(kernel: &mut Kernel, old: &[Rule], new: &[Rule]) -> Result<(), usize>
    ensures ok { OnOk result (kernel.new ≡ kernel.old ++
        map Add (beyond rule_kind old.now new.now)) }
    ensures within { IfErr result (λ place. place ≤ length new.now) }
    ensures err { IfErr result (λ place. kernel.new ≡ kernel.old ++
        map Add (beyond rule_kind old.now (take place new.now))) }
{
    for (place, rule) in new.iter().enumerate() {
        match add_if_missing(kernel, old, rule) {
            Ok(()) => {}
            Err(_) => return Err(place),
        }
    }
    Ok(())
}

fn add_if_missing(kernel: &mut Kernel, old: &[Rule], rule: &Rule) -> Result<(), AllocError>
    ensures ok { OnOk result (kernel.new ≡ kernel.old ++
        map Add (beyond rule_kind old.now (rule.now ∷ []))) }
    ensures err { OnErr result (kernel.new ≡ kernel.old) }
{
    if is_in(old, rule) {
        return Ok(());
    }
    kernel.add(rule)
}

// Deletes those of the rules that the others lack, the last first.
fn delete_missing(kernel: &mut Kernel, rules: &[Rule], others: &[Rule]) -> Result<(), AllocError>
    ensures ok { OnOk result (kernel.new ≡ kernel.old ++
        map Delete (reverse (beyond rule_kind others.now rules.now))) }
    ensures err { OnErr result ((broken : Rule) × (rest : List (Request Rule))
        × IsPartly (map Delete (reverse (beyond rule_kind others.now rules.now)))
        (Delete broken ∷ rest) kernel.old kernel.new) }
{
    for rule in rules.iter().rev() {
        delete_if_missing(kernel, rule, others)?;
    }
    Ok(())
}

fn delete_if_missing(kernel: &mut Kernel, rule: &Rule, others: &[Rule]) -> Result<(), AllocError>
    ensures ok { OnOk result (kernel.new ≡ kernel.old ++
        map Delete (beyond rule_kind others.now (rule.now ∷ []))) }
    ensures err { OnErr result (kernel.new ≡ kernel.old) }
    ensures missing { OnErr result (has rule_kind others.now rule.now ≡ false) }
{
    if is_in(others, rule) {
        return Ok(());
    }
    kernel.delete(rule)
}

fn is_in(rules: &[Rule], rule: &Rule) -> bool
    ensures { result ≡ has rule_kind rules.now rule.now }
{
    rules.iter().any(|other| rule.is_same(other))
}
