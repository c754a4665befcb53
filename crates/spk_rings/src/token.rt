//! What is left of an end that offered.

use crate::item::Item;
use rtrb::Finished;
use std::fmt;

/// All that was offered to a ring whose offers are ended.
#[derive(Drop)]
pub struct Token {
    pub(crate) end: Finished<Item>,
}

impl fmt::Debug for Token {
    fn fmt<W: fmt::Write>(&self, f: &mut fmt::Formatter<W>) -> fmt::Result {
        f.write_str("Token { .. }")
    }
}
