//! Laws of a kernel that is brought from one list of rules to another: each function's contract is a law, and its body
//! is empty.
ghost use Rattle.std.specs.Prelude.{◌≡◌, ◌∷◌, ◌++◌, [], ◌+◌, ℕ, List, length, Option, Some, slice_get, take};
ghost use Rattle.prefixes.specs.Best.{answer};
ghost use Rattle.prefixes.specs.declared.addr.Addr.{Addr};
ghost use Rattle.prefixes.specs.declared.route.Route.{Route};
ghost use Rattle.rule_law.specs.Plans.{GoesOver, GoesOverAndBack};
ghost use Rattle.rule_match.specs.declared.packet.Packet.{Packet};
ghost use Rattle.rule_match.specs.declared.rule.Rule.{Rule};
ghost use Rattle.kernel_model.specs.Journal.{entry, replay, replay_from};
ghost use Rattle.kernel_model.specs.Leaving.{
  LeaveInOrder,
  taken_out,
  leaving,
  without_routes,
  IsLeaving,
};
ghost use Rattle.kernel_model.specs.Moments.{moment, moment_from};
ghost use Rattle.kernel_model.specs.Segment.{done, undone, IsSegment};
ghost use Rattle.kernel_model.specs.Stands.{Stands};
ghost use Rattle.kernel_model.specs.State.{KernelState};
ghost use Rattle.kernel_model.specs.Switch.{
  additions,
  deletions,
  switched,
  IsSwitch,
  GiveAlike,
  walk_along,
  LosesRoutes,
};
ghost use Rattle.kernel_model.specs.Walk.{walk};
ghost use Rattle.kernel_model.specs.declared.request.Entry.{Entry};
ghost use Rattle.kernel_model.specs.declared.request.EntryKind.TheVariants.{Deleted, Broken};
ghost use Rattle.kernel_model.specs.declared.request.Request.{Request};

/// One switch: along a done segment, and along one that broke before its end, each packet goes by the old rules below
/// some moment and by the new ones from it on.
pub fn goes_over()
    ensures done { (k : KernelState) (old new : List Rule) (gone : List (ℕ × Route))
        (packet : Packet) (entries rest : List Entry)
        → IsSwitch k old new gone → GiveAlike k packet old → GiveAlike k packet new
        → entries ++ rest ≡ done (additions old new) (deletions old new gone)
        → GoesOver (length entries) (walk_along k packet entries) (walk k packet)
        (walk (switched k old new gone) packet) }
    ensures halted { (k : KernelState) (old new : List Rule) (gone : List (ℕ × Route))
        (packet : Packet) (entries : List Entry) (i : ℕ) (broken : Request)
        → IsSwitch k old new gone → GiveAlike k packet old → GiveAlike k packet new
        → slice_get (done (additions old new) (deletions old new gone)) i ≡
        Some (entry Deleted broken)
        → entries ≡ take i (done (additions old new) (deletions old new gone)) ++
        entry Broken broken ∷ []
        → GoesOver (length entries) (walk_along k packet entries) (walk k packet)
        (walk (switched k old new gone) packet) }
{}

/// Over and back: along any segment each packet goes by the old rules, by the new ones from some moment on, and by the
/// old ones again from some moment on.
pub fn goes_over_and_back()
    ensures { (k : KernelState) (old new : List Rule) (gone : List (ℕ × Route)) (packet : Packet)
        (entries : List Entry)
        → IsSwitch k old new gone → GiveAlike k packet old → GiveAlike k packet new
        → IsSegment (additions old new) (deletions old new gone) entries
        → GoesOverAndBack (length entries) (walk_along k packet entries) (walk k packet)
        (walk (switched k old new gone) packet) }
{}

/// The end of a done segment stands for the new rules and the routes that are left, and the end of an undone one is the
/// very kernel from before.
pub fn ends()
    ensures done { (k : KernelState) (old new : List Rule) (routes gone left : List (ℕ × Route))
        → IsSwitch k old new gone → Stands k old routes → LosesRoutes routes gone left
        → Stands (switched k old new gone) new left }
    ensures undone { (k : KernelState) (old new : List Rule) (gone : List (ℕ × Route)) (i : ℕ)
        (refused : Request)
        → IsSwitch k old new gone
        → replay_from k (undone (additions old new) i refused) ≡ k }
{}

/// The law of routes: while the routes of a link are taken out of a table, a shorter prefix before a longer one, the table
/// answers each packet by all of its routes below some moment, and by those that are left from it on. So what is left of
/// the link's routes never covers an address whose best route has gone.
pub fn routes_leave()
    ensures { (link : ℕ) (gone routes : List Route) (dest : Addr) (bound : Option ℕ)
        → LeaveInOrder link gone
        → GoesOver (length gone) (λ i. answer (taken_out routes (take i gone)) dest bound)
        (answer routes dest bound) (answer (taken_out routes gone) dest bound) }
{}

/// A link leaves, its routes first and then its rules: along all of this, and where a deletion breaks, each packet goes as
/// before below some moment, and from it on where it goes when all is done.
pub fn link_leaves()
    ensures done { (k : KernelState) (old new : List Rule) (table link : ℕ) (gone : List Route)
        (packet : Packet) (entries rest : List Entry)
        → IsLeaving k old new table link gone
        → GiveAlike (without_routes k table gone) packet old
        → GiveAlike (without_routes k table gone) packet new
        → entries ++ rest ≡ done [] (leaving old new table gone)
        → GoesOver (length entries) (walk_along k packet entries) (walk k packet)
        (walk (replay_from k (done [] (leaving old new table gone))) packet) }
    ensures halted { (k : KernelState) (old new : List Rule) (table link : ℕ) (gone : List Route)
        (packet : Packet) (entries : List Entry) (i : ℕ) (broken : Request)
        → IsLeaving k old new table link gone
        → GiveAlike (without_routes k table gone) packet old
        → GiveAlike (without_routes k table gone) packet new
        → slice_get (done [] (leaving old new table gone)) i ≡ Some (entry Deleted broken)
        → entries ≡ take i (done [] (leaving old new table gone)) ++ entry Broken broken ∷ []
        → GoesOver (length entries) (walk_along k packet entries) (walk k packet)
        (walk (replay_from k (done [] (leaving old new table gone))) packet) }
{}

/// The moments of a journal past a length are those of its further entries.
pub fn moments_go_on()
    ensures { (journal entries : List Entry) (i : ℕ) →
        moment (journal ++ entries) (length journal + i) ≡ moment_from (replay journal) entries i }
{}
