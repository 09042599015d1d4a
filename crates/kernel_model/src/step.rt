use rule_match::Action;

/// A rule that a walk looked at and that matched.
#[derive(Clone, Copy, Debug, PartialEq, Eq)]
pub struct Step {
    pub priority: u32,
    pub action: Action,
}
