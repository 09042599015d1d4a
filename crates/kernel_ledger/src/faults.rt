ghost use Rattle.std.specs.Prelude.{◌≡◌, ℕ, Bool, true, false, nat_le, IsSome, is_some};
ghost use Rattle.kernel_model.specs.View.{KernelView};
ghost use Rattle.kernel_ledger.specs.Kept.{fails_next};
ghost use Rattle.kernel_ledger.specs.Seen.{seen_by};

use crate::ledger::Ledger;

/// Who decides which additions a kernel refuses and which deletions it breaks.
pub trait Faults: Drop {
    /// Whether the next addition is refused, where there are so many of what it adds: rules of its family, or routes
    /// of all tables.
    ghost refuses: { Self → KernelView → ℕ → Bool };

    /// Whether the next deletion breaks.
    ghost breaks: { Self → KernelView → Bool };

    /// Whether the ledger keeps lists, by which requests then fail.
    ghost has_lists: { Bool };

    fn refuses_next(&self, ledger: &Ledger, there: u64) -> bool
        ensures { result ≡ refuses self.now (seen_by ledger.now) there };

    fn breaks_next(&self, ledger: &Ledger) -> bool
        ensures { result ≡ breaks self.now (seen_by ledger.now) };

    ghost refuses_by_lists: { (faults : Self) (view : KernelView) (there : ℕ)
        → is_some view.lists ≡ has_lists → IsSome view.lists → refuses faults view there ≡
        fails_next view.lists view.journal true };

    ghost breaks_by_lists: { (faults : Self) (view : KernelView) → is_some view.lists ≡ has_lists
        → IsSome view.lists → breaks faults view ≡
        fails_next view.lists view.journal false };
}

/// Requests fail by the lists of the ledger.
#[derive(Drop)]
pub struct ByLists;

impl Faults for ByLists {
    ghost use Rattle.std.specs.Prelude.{refl, true, false};
    ghost use Rattle.kernel_ledger.specs.Kept.{fails_next};

    ghost refuses = { λ _ view _. fails_next view.lists view.journal true };

    ghost breaks = { λ _ view. fails_next view.lists view.journal false };

    ghost has_lists = { true };

    ghost refuses_by_lists = { λ _ _ _ _ _. refl };

    ghost breaks_by_lists = { λ _ _ _ _. refl };

    fn refuses_next(&self, ledger: &Ledger, _there: u64) -> bool {
        ledger.fails_next(true)
    }

    fn breaks_next(&self, ledger: &Ledger) -> bool {
        ledger.fails_next(false)
    }
}

/// An addition is refused where so many are there already, and no deletion breaks.
#[derive(Drop)]
pub struct ByQuota {
    pub limit: u64,
}

impl Faults for ByQuota {
    ghost use Rattle.std.specs.Prelude.{false, nat_le};
    ghost use Rattle.kernel_ledger.specs.Seen.{no_lists};

    ghost refuses = { λ quota _ there. nat_le quota.limit there };

    ghost breaks = { λ _ _. false };

    ghost has_lists = { false };

    ghost refuses_by_lists = { λ _ view _ none some. no_lists view.lists none some };

    ghost breaks_by_lists = { λ _ view none some. no_lists view.lists none some };

    fn refuses_next(&self, _ledger: &Ledger, there: u64) -> bool {
        self.limit <= there
    }

    fn breaks_next(&self, _ledger: &Ledger) -> bool {
        false
    }
}
