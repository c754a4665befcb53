//! What is counted of a node.

/// What is counted of a node since it was first heard. Each stops at `u64::MAX`.
#[derive(Clone, Copy, Debug, PartialEq, Eq)]
pub struct Counts {
    /// Births that were consumed.
    pub births: u64,
    /// Messages that were consumed, births too.
    pub used: u64,
    /// Gaps.
    pub gaps: u64,
    /// Deaths of the session that was followed.
    pub deaths: u64,
    /// Other deaths, which changed nothing.
    pub ignored: u64,
    /// Rebirths that were asked for.
    pub requests: u64,
    /// Messages that are known not to have come.
    pub missing: u64,
    /// Messages that came, and weren't used.
    pub unused: u64,
    /// Holes that are over, those that aren't kept too.
    pub holes: u64,
}
