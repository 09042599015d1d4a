// A rule, and what it gives a packet.
ghost use Rattle.std.specs.Prelude.{◌≡◌};
ghost use Rattle.law_example.specs.Rules.{same_mark, same_rule, gives};

/// A packet, as far as the rules look at it.
#[derive(Clone, Copy, Debug, PartialEq, Eq)]
pub struct Packet {
    pub mark: u32,
}

/// What becomes of a packet.
#[derive(Clone, Copy, Debug, PartialEq, Eq)]
pub enum Verdict {
    /// It goes by this table of routes.
    Table(u32),
    Unreachable,
}

/// A rule sends the packets of its mark to a table of routes, or each packet where it states no mark. The rule of smallest
/// priority is asked first.
#[derive(Clone, Copy, Debug, PartialEq, Eq)]
pub struct Rule {
    pub priority: u32,
    pub mark: Option<u32>,
    pub table: u32,
}

impl Rule {
    /// Whether the rules are equal.
    pub fn is_same(&self, other: &Rule) -> bool
        ensures { result ≡ same_rule self.now other.now }
    {
        self.priority == other.priority
            && is_same_mark(self.mark, other.mark)
            && self.table == other.table
    }

    /// What the rule gives a packet, or nothing.
    pub fn verdict(&self, packet: &Packet) -> Option<Verdict>
        ensures { result ≡ gives packet.now self.now }
    {
        match self.mark {
            Some(mark) if mark != packet.mark => None,
            _ => Some(Verdict::Table(self.table)),
        }
    }
}

fn is_same_mark(one: Option<u32>, other: Option<u32>) -> bool
    ensures { result ≡ same_mark one other }
{
    match (one, other) {
        (None, None) => true,
        (Some(one), Some(other)) => one == other,
        _ => false,
    }
}
