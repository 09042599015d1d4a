use prefixes::{Family, Route};
use rule_match::Rule;

/// One rule or one route that a kernel is asked to add or to delete.
#[derive(Clone, Copy, Debug, PartialEq, Eq)]
pub enum Request {
    Rule { family: Family, rule: Rule },
    Route { table: u32, route: Route },
}

/// What became of a request: an addition was made or refused, a deletion was made or broke.
#[derive(Clone, Copy, Debug, PartialEq, Eq)]
pub enum EntryKind {
    Added,
    Deleted,
    Refused,
    Broken,
}

/// An entry of a kernel's journal.
#[derive(Clone, Copy, Debug, PartialEq, Eq)]
pub struct Entry {
    pub kind: EntryKind,
    pub request: Request,
}
