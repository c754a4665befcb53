//! The head of a view.

/// When the program began, the moment of a view and its revision, and whether there is a connection with a broker.
#[derive(Clone, Copy, Debug, PartialEq, Eq)]
pub struct Head {
    /// In milliseconds since 1970.
    pub began: u64,
    /// The same.
    pub now: u64,
    /// It rises with each change that is seen.
    pub revision: u64,
    pub is_connected: bool,
}
