//! The two-lists law: while the rules of a kernel are brought from one table to another, one request at a time, each
//! packet goes by the old table at first and from some moment on by the new one.
//!
//! Each function here is a law: its contract is the statement, and its body is empty. `k` says what is known of the
//! rules, `gives` what a rule gives one packet, `old` and `new` are the tables, and `rules` is the list of the kernel.
//! `docs/why-no-packet-strays.md` tells the reason.
#![tactic(auto)]

ghost use Rattle.std.specs.Prelude.{◌≡◌, ◌≤◌, ◌⊎◌, ◌↔◌, ◌+◌, ◌++◌, ◌∷◌, [], ℕ, Bool, true, if◌then◌else◌, List, Option, filter, take, length};
ghost use Rattle.std.specs.List.{flat_map};
ghost use Rattle.rule_law.specs.Rules.{
  Kind,
  has,
  placed,
  placed_behind,
  NoneBelow,
  Rises,
  HasEachOnce,
  AreAbsent,
  class,
  Stands,
  walk,
  GiversAreAlike,
};
ghost use Rattle.rule_law.specs.Plans.{
  KeepsOrder,
  PutsNewBehind,
  AreOldAndNew,
  beyond,
  Request,
  after,
  concerning,
  plan,
  undone,
  walk_at,
  GoesOver,
  GoesOverAndBack,
  AskInTurn,
};
ghost use Rattle.rule_law.specs.Parts.{
  TurnsInto,
  AreUnlike,
  AreEachUnlike,
  DoNotMeet,
  EachPart,
  HaveDistinctKeys,
  KeysRise,
  ShowKeys,
};

/// One switch: along a plan, as far as it comes, the walk is the old table's below some moment and the new one's from it on.
pub fn goes_over<R, V>()
    ensures { (k : Kind R) (gives : R → Option V) (none : V)
        (old new rules : List R) (requests rest : List (Request R))
        → Rises k old → Rises k new → HasEachOnce k old → KeepsOrder k old new →
        PutsNewBehind k old new
        → GiversAreAlike k gives old → GiversAreAlike k gives new
        → Stands k rules old
        → concerning requests ++ rest ≡ plan k old new
        → GoesOver (length requests) (walk_at k gives none rules requests)
        (walk gives none old) (walk gives none new) }
{}

/// Over and back: along the first j additions and their deletions, as far as they come, the walk is the old table's, the
/// new one's from some moment on, and the old one's again.
pub fn goes_over_and_back<R, V>()
    ensures { (k : Kind R) (gives : R → Option V) (none : V)
        (old new rules : List R) (j : ℕ) (requests rest : List (Request R))
        → Rises k old → Rises k new → HasEachOnce k new → GiversAreAlike k gives old
        → Stands k rules old
        → concerning requests ++ rest ≡ undone (take j (beyond k old new))
        → GoesOverAndBack (length requests) (walk_at k gives none rules requests)
        (walk gives none old) (walk gives none new) }
{}

/// So each moment is old or new.
pub fn each_moment<V>()
    ensures done { (last : ℕ) (at : ℕ → V) (old new : V) → GoesOver last at old new
        → (i : ℕ) → i ≤ last → (at i ≡ old) ⊎ (at i ≡ new) }
    ensures undone { (last : ℕ) (at : ℕ → V) (old new : V) → GoesOverAndBack last at old new
        → (i : ℕ) → i ≤ last → (at i ≡ old) ⊎ (at i ≡ new) }
{}

/// The end of a whole plan: the list stands for the new table.
pub fn ends_in_new<R>()
    ensures { (k : Kind R) (old new rules : List R) (requests : List (Request R))
        → KeepsOrder k old new → PutsNewBehind k old new → Stands k rules old
        → concerning requests ≡ plan k old new
        → Stands k (after k requests rules) new }
{}

/// The end of an undoing: the very list is back, in its order.
pub fn ends_as_before<R>()
    ensures of_a_plan { (k : Kind R) (old new rules : List R) (j : ℕ) (requests : List (Request R))
        → Stands k rules old
        → concerning requests ≡ undone (take j (beyond k old new))
        → after k requests rules ≡ rules }

    // whatever the additions are and whatever the list
    ensures of_any { (k : Kind R) (added rules : List R) (requests : List (Request R))
        → AreAbsent k added rules
        → concerning requests ≡ undone added
        → after k requests rules ≡ rules }
{}

/// A list that stands for a table has the table's walk.
pub fn stands_walks<R, V>()
    ensures { (k : Kind R) (gives : R → Option V) (none : V) (rules table : List R)
        → Rises k table → GiversAreAlike k gives table
        → Stands k rules table
        → walk gives none rules ≡ walk gives none table }
{}

/// A list that stands for a table has each rule of the table once, and nothing else.
pub fn stands_tells<R>()
    ensures once { (k : Kind R) (rules table : List R)
        → HasEachOnce k table → Stands k rules table → HasEachOnce k rules }
    ensures same { (k : Kind R) (rules table : List R)
        → Stands k rules table → (rule : R) → has k rules rule ≡ has k table rule }
{}

/// In a list by rising priority, the place before the first rule of greater priority is the one after the last rule
/// whose priority isn't greater.
pub fn placed_is_behind<R>()
    ensures { (k : Kind R) (rule : R) (rules : List R)
        → Rises k rules → placed_behind k rule rules ≡ placed k rule rules }
{}

/// Along a plan, and along an undone one, as far as it comes, no rule is added that is there, and none deleted that isn't.
pub fn asks_in_turn<R>()
    ensures done { (k : Kind R) (old new rules : List R) (requests rest : List (Request R))
        → HasEachOnce k new → Stands k rules old
        → concerning requests ++ rest ≡ plan k old new
        → AskInTurn k requests rules }
    ensures undone { (k : Kind R) (old new rules : List R) (j : ℕ)
        (requests rest : List (Request R))
        → HasEachOnce k new → Stands k rules old
        → concerning requests ++ rest ≡ undone (take j (beyond k old new))
        → AskInTurn k requests rules }
{}

/// A kernel may have a rule of its own before all others: the tables with it are as the law asks where those without
/// it are, and the plan is the same.
pub fn own_rule<R>()
    ensures tables { (k : Kind R) (own : R) (old new : List R)
        → NoneBelow k (k.priority own + 1) old → NoneBelow k (k.priority own + 1) new
        → AreOldAndNew k old new → AreOldAndNew k (own ∷ old) (own ∷ new) }
    ensures plan { (k : Kind R) (own : R) (old new : List R)
        → NoneBelow k (k.priority own + 1) old → NoneBelow k (k.priority own + 1) new
        → plan k (own ∷ old) (own ∷ new) ≡ plan k old new }
{}

/// The walk asks the rules of the list alone.
pub fn walk_asks<R, V>()
    ensures { (k : Kind R) (gives other : R → Option V) (none : V) (rules : List R)
        → ((rule : R) → has k rules rule ≡ true → gives rule ≡ other rule)
        → walk gives none rules ≡ walk other none rules }
{}

/// The two conditions on the order are one equation for each priority and selectors.
pub fn order_is_one_equation<R>()
    ensures { (k : Kind R) (old new : List R)
        → (TurnsInto k old new) ↔ (KeepsOrder k old new × PutsNewBehind k old new) }
{}

/// Rows that stay turn into themselves.
pub fn rows_stay<R>()
    ensures { (k : Kind R) (rows : List R) → TurnsInto k rows rows }
{}

/// Rows turn into themselves with new rules at the end.
pub fn rows_come<R>()
    ensures { (k : Kind R) (rows more : List R)
        → AreAbsent k more rows → TurnsInto k rows (rows ++ more) }
{}

/// Rows turn into those of them that pass a test.
pub fn rows_go<R>()
    ensures { (k : Kind R) (stays : R → Bool) (rows : List R) →
        TurnsInto k rows (filter stays rows) }
{}

/// Rows turn into others with which they have no rule in common.
pub fn rows_are_replaced<R>()
    ensures { (k : Kind R) (old new : List R) → AreAbsent k old new → TurnsInto k old new }
{}

/// Rows turn into any others of which no two have equal priority and equal selectors.
pub fn rows_are_unlike<R>()
    ensures { (k : Kind R) (old new : List R)
        → HasEachOnce k old → AreEachUnlike k new → TurnsInto k old new }
{}

/// Two parts side by side turn as each does, where no rule of the one has the priority and the selectors of a rule of the
/// other.
pub fn parts_side_by_side<R>()
    ensures { (k : Kind R) (old new old_other new_other : List R)
        → AreUnlike k (old ++ new) (old_other ++ new_other)
        → TurnsInto k old new → TurnsInto k old_other new_other
        → TurnsInto k (old ++ old_other) (new ++ new_other) }
{}

/// Parts of distinct keys turn as each does, where a rule's priority and selectors show the key of its part. A part that
/// comes has no rules in the old table, and one that goes has none in the new one.
pub fn parts_by_key<R, N>()
    ensures { (k : Kind R) (key : N → ℕ) (key_of : R → ℕ) (old new : N → List R) (parts : List N)
        → ((x y : R) → k.alike x y ≡ true → key_of x ≡ key_of y)
        → HaveDistinctKeys key parts
        → ShowKeys k key key_of old parts → ShowKeys k key key_of new parts
        → EachPart (λ n. TurnsInto k (old n) (new n)) parts
        → TurnsInto k (flat_map old parts) (flat_map new parts) }
{}

/// Parts that are left out are parts without rules.
pub fn parts_left_out<R, N>()
    ensures { (rows : N → List R) (stays : N → Bool) (parts : List N)
        → flat_map rows (filter stays parts) ≡
        flat_map (λ n. if stays n then rows n else []) parts }
{}

/// The rules of one priority and selectors in a table of parts are those of each part, one part after the other.
pub fn class_of_parts<R, N>()
    ensures { (k : Kind R) (rule : R) (rows : N → List R) (parts : List N)
        → class k rule (flat_map rows parts) ≡ flat_map (λ n. class k rule (rows n)) parts }
{}

/// Parts of distinct keys, each of which has each rule once, have each rule once together.
pub fn parts_have_each_once<R, N>()
    ensures { (k : Kind R) (key : N → ℕ) (key_of : R → ℕ) (rows : N → List R) (parts : List N)
        → HaveDistinctKeys key parts → ShowKeys k key key_of rows parts
        → EachPart (λ n. HasEachOnce k (rows n)) parts
        → HasEachOnce k (flat_map rows parts) }
{}

/// Parts of one priority each, by rising priority, are ordered by rising priority together.
pub fn parts_rise<R, N>()
    ensures rises { (k : Kind R) (key : N → ℕ) (low : ℕ) (rows : N → List R) (parts : List N)
        → KeysRise key low parts → ShowKeys k key k.priority rows parts
        → Rises k (flat_map rows parts) }
    ensures none_below { (k : Kind R) (key : N → ℕ) (low : ℕ) (rows : N → List R) (parts : List N)
        → KeysRise key low parts → ShowKeys k key k.priority rows parts
        → NoneBelow k low (flat_map rows parts) }
{}

/// Of two parts side by side the givers are alike where each part's are, and where no giver of the one has the priority of
/// a giver of the other.
pub fn givers_side_by_side<R, V>()
    ensures { (k : Kind R) (gives : R → Option V) (rows others : List R)
        → GiversAreAlike k gives rows → GiversAreAlike k gives others →
        DoNotMeet k gives rows others
        → GiversAreAlike k gives (rows ++ others) }
{}
