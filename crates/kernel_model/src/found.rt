use rule_match::Rule;

/// A rule of a list, with its place there, from 0.
#[derive(Clone, Copy, Debug, PartialEq, Eq)]
pub struct FoundRule {
    pub place: u64,
    pub rule: Rule,
}
