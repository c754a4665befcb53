//! What may not be as wanted of a case.

/// What isn't as wanted.
#[derive(Clone, Copy, Debug, PartialEq, Eq)]
pub(crate) enum Flaw {
    NoJson,
    Unknown,
    NoCase,
    NoFile,
    NoPlan,
    Printed,
    Noted,
    End,
    Memory,
    Read,
    Fault,
}

impl Flaw {
    /// In words.
    pub(crate) fn text(self) -> &'static str {
        match self {
            Flaw::NoJson => "it isn't JSON",
            Flaw::Unknown => "it says what isn't known",
            Flaw::NoCase => "it is no case",
            Flaw::NoFile => "it has no file",
            Flaw::NoPlan => "it has no plan",
            Flaw::Printed => "what it prints",
            Flaw::Noted => "what it notes",
            Flaw::End => "what it comes to",
            Flaw::Memory => "what it prints where memory is refused",
            Flaw::Read => "what is read",
            Flaw::Fault => "the fault",
        }
    }
}
