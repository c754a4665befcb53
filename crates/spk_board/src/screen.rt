//! Where a board is shown.

/// Where a board is shown.
#[derive(Clone, Copy, Debug, PartialEq, Eq)]
pub enum Screen {
    /// On no terminal: boards follow one another, each behind a line of its moment.
    Plain,
    /// On a terminal: each board takes the place of the one before.
    Terminal,
    /// The same, with colours.
    Colours,
}
