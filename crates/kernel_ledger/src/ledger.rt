ghost use Rattle.std.specs.Prelude.{◌≡◌, [], ◌∷◌, ◌++◌, ◌+◌, ◌-◌, ◌<◌, ◌≤◌, max, length, slice_get, Some, None, IsTrue, true, false, not, IsSome, OnOk, OnErr, vec_len, vec_capacity, is_ok, if◌then◌else◌};
ghost use Rattle.std.specs.Option.{option_map};
ghost use Rattle.kernel_model.specs.State.{is_absent, is_present};
ghost use Rattle.kernel_model.specs.Journal.{entry, asks_addition, fails, may_stand, is_listed};
ghost use Rattle.kernel_model.specs.View.{state_of, grown};
ghost use Rattle.kernel_model.specs.declared.request.EntryKind.TheVariants.{Added, Deleted, Refused, Broken};
ghost use Rattle.kernel_ledger.specs.Kept.{IsKept, lists_of, fails_next};

use kernel_model::{Entry, EntryKind, KernelFault, Request};
use std::alloc::{AllocError, Global};

/// The numbers of the additions to refuse and of the deletions to break.
#[derive(Drop)]
pub struct FailLists {
    pub refuse: Vec<u64>,
    pub breaks: Vec<u64>,
}

/// What a kernel was asked and what became of it, the lists by which it fails where it keeps such lists, and room for
/// entries.
#[derive(Drop)]
pub struct Ledger {
    journal: Vec<Entry>,
    lists: Option<FailLists>,
    /// How many additions and deletions were asked for.
    additions: u64,
    deletions: u64,
    spare: u64,
    ghost kept: { IsKept (option_map lists_of lists) journal.items additions deletions },
    ghost has_room: { vec_len journal + spare ≤ vec_capacity journal },
}

// Whether the number is in the list.
fn is_in(numbers: &[u64], number: u64) -> bool
    ensures { result ≡ is_listed numbers.now number }
{
    numbers.contains(&number)
}

fn is_addition(kind: EntryKind) -> bool
    ensures { result ≡ asks_addition kind }
{
    match kind {
        EntryKind::Added | EntryKind::Refused => true,
        EntryKind::Deleted | EntryKind::Broken => false,
    }
}

// Writes an entry in the room that is there.
fn log(journal: &mut Vec<Entry>, kind: EntryKind, request: Request)
    requires { vec_len journal.old < vec_capacity journal.old }
    ensures items { journal.new.items ≡ journal.old.items ++ entry kind request ∷ [] }
    ensures len { vec_len journal.new ≡ vec_len journal.old + 1 }
    ensures capacity { vec_capacity journal.old ≤ vec_capacity journal.new }
{
    let _ = journal.push(Entry { kind, request });
}

impl Ledger {
    ghost use Rattle.kernel_ledger.specs.Seen.{seen_by, spare_of, starting};

    /// An empty journal, no lists, and no room.
    pub fn new(alloc: Global) -> Ledger
        ensures seen { seen_by result ≡ starting None }
        ensures spare { spare_of result ≡ 0 }
    {
        Ledger {
            journal: Vec::new(alloc),
            lists: None,
            additions: 0,
            deletions: 0,
            spare: 0,
        }
    }

    /// From now on additions and deletions fail by these lists.
    pub fn arm(&mut self, refuse: Vec<u64>, breaks: Vec<u64>)
        requires { (seen_by self.old).journal ≡ [] }
        ensures seen { seen_by self.new ≡ record (seen_by self.old)
            { lists = Some (record { refuse = refuse.items; breaks = breaks.items }) } }
        ensures spare { spare_of self.new ≡ spare_of self.old }
    {
        self.lists = Some(FailLists { refuse, breaks });
    }

    /// Makes room for this number of entries at least.
    pub fn reserve(&mut self, more: u64) -> Result<(), AllocError>
        ensures seen { seen_by self.new ≡ seen_by self.old }
        ensures ok { OnOk result (spare_of self.new ≡ max (spare_of self.old) more) }
        ensures err { OnErr result (spare_of self.new ≡ spare_of self.old) }
    {
        if more > self.spare {
            self.journal.reserve(more as usize)?;
            self.spare = more;
        }
        Ok(())
    }

    /// Whether the lists say that the next addition, or the next deletion, fails.
    pub fn fails_next(&self, addition: bool) -> bool
        ensures { result ≡
            fails_next (seen_by self.now).lists (seen_by self.now).journal addition }
    {
        match &self.lists {
            None => false,
            Some(lists) => if addition {
                is_in(&lists.refuse, self.additions + 1)
            } else {
                is_in(&lists.breaks, self.deletions + 1)
            },
        }
    }

    /// Writes down what became of a request, in the room that is there: where there are lists, what they say. A kernel
    /// that fails by what it holds keeps no lists, and writes by itself.
    pub fn write(&mut self, kind: EntryKind, request: Request)
        requires may { IsTrue (may_stand (state_of (seen_by self.old)) kind request) }
        requires listed { IsSome (seen_by self.old).lists → fails kind ≡
            fails_next (seen_by self.old).lists (seen_by self.old).journal
            (asks_addition kind) }
        requires spare { 0 < spare_of self.old }
        ensures grown { seen_by self.new ≡ grown (seen_by self.old) (entry kind request ∷ []) }
        ensures spare { spare_of self.new ≡ spare_of self.old - 1 }
    {
        self.spare -= 1;
        log(&mut self.journal, kind, request);
        if is_addition(kind) {
            self.additions += 1;
        } else {
            self.deletions += 1;
        }
    }

    /// Asks for an addition, and writes down whether it is refused.
    pub fn ask_addition(&mut self, request: Request, refused: bool) -> Result<(), KernelFault>
        requires absent { IsTrue (is_absent (state_of (seen_by self.old)) request) }
        requires listed { IsSome (seen_by self.old).lists → refused ≡
            fails_next (seen_by self.old).lists (seen_by self.old).journal true }
        requires spare { 0 < spare_of self.old }
        ensures cause { is_ok result ≡ not refused }
        ensures grown { seen_by self.new ≡ grown (seen_by self.old)
            (entry (if is_ok result then Added else Refused) request ∷ []) }
        ensures spare { spare_of self.new ≡ spare_of self.old - 1 }
    {
        if refused {
            self.write(EntryKind::Refused, request);
            return Err(KernelFault);
        }
        self.write(EntryKind::Added, request);
        Ok(())
    }

    /// Asks for a deletion, and writes down whether it breaks.
    pub fn ask_deletion(&mut self, request: Request, breaks: bool) -> Result<(), KernelFault>
        requires present { IsTrue (is_present (state_of (seen_by self.old)) request) }
        requires listed { IsSome (seen_by self.old).lists → breaks ≡
            fails_next (seen_by self.old).lists (seen_by self.old).journal false }
        requires spare { 0 < spare_of self.old }
        ensures cause { is_ok result ≡ not breaks }
        ensures grown { seen_by self.new ≡ grown (seen_by self.old)
            (entry (if is_ok result then Deleted else Broken) request ∷ []) }
        ensures spare { spare_of self.new ≡ spare_of self.old - 1 }
    {
        if breaks {
            self.write(EntryKind::Broken, request);
            return Err(KernelFault);
        }
        self.write(EntryKind::Deleted, request);
        Ok(())
    }

    pub fn spare(&self) -> u64
        ensures { result ≡ spare_of self.now }
    {
        self.spare
    }

    pub fn len(&self) -> u64
        ensures { result ≡ length (seen_by self.now).journal }
    {
        self.journal.len() as u64
    }

    /// The entry at a place of the journal, from 0.
    pub fn entry_at(&self, place: u64) -> Option<Entry>
        ensures { result ≡ slice_get (seen_by self.now).journal place }
    {
        self.journal.get(place as usize).copied()
    }
}
