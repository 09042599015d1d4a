ghost use Rattle.std.specs.Prelude.{◌≡◌, ◌≤◌, ◌<◌, ◌↔◌, ℕ, IsNone, IfSome, IsTrue};

/// A user's number, from 0 to 4294967294.
#[derive(Clone, Copy, PartialEq, Eq, Hash, Debug)]
pub struct Uid {
    pub number: u32,
    pub ghost in_range: { number < 4294967295 },
}

impl Uid {
    /// The UID of this number. The one number that is left out means 'no user' to the kernel.
    pub fn new(number: u32) -> Option<Uid>
        ensures none { IsNone result ↔ (number ≡ 4294967295) }
        ensures some { IfSome result (λ uid. uid.number ≡ number) }
    {
        if number == u32::MAX {
            return None;
        }
        Some(Uid { number })
    }

    pub fn number(&self) -> u32
        ensures { result ≡ self.now.number }
    {
        self.number
    }
}

/// The UIDs from a first one to a last one, both included.
#[derive(Clone, Copy, PartialEq, Eq, Debug)]
pub struct UidRange {
    pub first: Uid,
    pub last: Uid,
    pub ghost ordered: { first.number ≤ last.number },
}

impl UidRange {
    ghost use Rattle.uid_ranges.specs.Range.{holds, meets, same_range};

    pub fn new(first: Uid, last: Uid) -> Option<UidRange>
        ensures none { IsNone result ↔ (last.number < first.number) }
        ensures first { IfSome result (λ range. range.first ≡ first) }
        ensures last { IfSome result (λ range. range.last ≡ last) }
    {
        if first.number > last.number {
            return None;
        }
        Some(UidRange { first, last })
    }

    pub fn first(&self) -> Uid
        ensures { result ≡ self.now.first }
    {
        self.first
    }

    pub fn last(&self) -> Uid
        ensures { result ≡ self.now.last }
    {
        self.last
    }

    /// Whether the UID is in the range.
    pub fn holds(&self, uid: Uid) -> bool
        ensures { result ≡ holds self.now uid.number }
    {
        self.first.number <= uid.number && uid.number <= self.last.number
    }

    /// Whether some UID is in both ranges.
    pub fn meets(&self, other: &UidRange) -> bool
        ensures { result ≡ meets self.now other.now }
    {
        self.first.number <= other.last.number && other.first.number <= self.last.number
    }

    /// Whether the ends are the same.
    pub fn is_same(&self, other: &UidRange) -> bool
        ensures word { result ≡ same_range self.now other.now }
        ensures equal { IsTrue result ↔ (self.now ≡ other.now) }
    {
        self.first.number == other.first.number && self.last.number == other.last.number
    }

    /// Two ranges meet exactly where they share a UID.
    pub fn meets_where_shared(one: UidRange, other: UidRange)
        ensures { IsTrue (meets one other) ↔ ((uid : ℕ) × IsTrue (holds one uid) ×
            IsTrue (holds other uid)) }
    {}
}
