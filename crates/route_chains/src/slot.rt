use prefixes::Route;

/// A route with the number of its chain, and the place of the next one of that chain.
#[derive(Clone, Copy)]
pub struct Slot {
    pub chain: usize,
    pub route: Route,
    pub next: Option<usize>,
}
