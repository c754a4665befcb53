//! What a call that sets something found.

/// Whether a call that sets something changed it.
#[derive(Clone, Copy, Debug, PartialEq, Eq)]
pub enum Outcome {
    /// It is another now.
    Changed,
    /// It was so already.
    Same,
}
