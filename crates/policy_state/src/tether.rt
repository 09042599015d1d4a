/// What comes in by the one link may go out by the other.
#[derive(Clone, Copy, Debug, PartialEq, Eq)]
pub struct TetherPair {
    pub input: u16,
    pub out: u16,
}
