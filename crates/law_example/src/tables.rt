// Two small tables, and the change from the one to the other.
ghost use Rattle.std.specs.Prelude.{◌≡◌, IfOk, OnOk};
ghost use Rattle.rule_law.specs.Rules.{Stands};
ghost use Rattle.law_example.specs.Kinds.{rule_kind};
ghost use Rattle.law_example.specs.Kernels.{rules_of};
ghost use Rattle.law_example.specs.Changes.{MayChange, MovesOver, ComesBack, StopsBetween};

use crate::changes::{ChangeError, change};
use crate::kernel::Kernel;
use crate::rule::Rule;
use std::alloc::{AllocError, Global};

/// The old table.
pub const OLD: [Rule; 4] = [
    Rule {
        priority: 100,
        mark: Some(1),
        table: 10,
    },
    Rule {
        priority: 100,
        mark: Some(4),
        table: 40,
    },
    Rule {
        priority: 200,
        mark: None,
        table: 20,
    },
    Rule {
        priority: 300,
        mark: None,
        table: 30,
    },
];

/// The new table: its first and its last rule come, and the two between them stay.
pub const NEW: [Rule; 4] = [
    Rule {
        priority: 100,
        mark: Some(2),
        table: 25,
    },
    Rule {
        priority: 100,
        mark: Some(4),
        table: 40,
    },
    Rule {
        priority: 300,
        mark: None,
        table: 30,
    },
    Rule {
        priority: 300,
        mark: None,
        table: 31,
    },
];

/// The two tables meet the four conditions of the law.
pub fn may_change()
    ensures { MayChange OLD NEW }
{}

/// A kernel with the rules of the old table.
pub fn start(alloc: Global) -> Result<Kernel, AllocError>
    ensures { IfOk result (λ kernel. Stands rule_kind (rules_of kernel) OLD) }
{
    let mut kernel = Kernel::new(alloc);
    kernel.add(&OLD[0])?;
    kernel.add(&OLD[1])?;
    kernel.add(&OLD[2])?;
    kernel.add(&OLD[3])?;
    Ok(kernel)
}

/// Brings a kernel from the old table to the new one.
pub fn move_over(kernel: &mut Kernel) -> Result<(), ChangeError>
    requires { Stands rule_kind (rules_of kernel.old) OLD }
    ensures done { OnOk result (MovesOver OLD NEW kernel.old kernel.new) }
    ensures refused { result ≡ Err ChangeError.Refused → ComesBack OLD NEW kernel.old kernel.new }
    ensures broken { result ≡ Err ChangeError.Broken → StopsBetween OLD NEW kernel.old kernel.new }
{
    change(kernel, &OLD, &NEW)
}
