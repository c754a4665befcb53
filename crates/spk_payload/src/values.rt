//! Which values of a payload are read.

/// Which values of a payload are read (own rule).
#[derive(Clone, Copy, Debug, PartialEq, Eq)]
pub enum Values {
    /// Whole numbers, truth values, texts and bytes. A float or a double is `Raw::Other`.
    Whole,
    /// These, and floats and doubles (IEEE 754 binary32 and binary64).
    All,
}
