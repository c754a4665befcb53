//! Who the program says it is.

/// The user name that CONNECT says, and the password, if there is one (MQTT 3.1.1, sections 3.1.3.4 and 3.1.3.5).
#[derive(Debug, PartialEq, Drop)]
pub struct Login {
    /// The user name: at most 65,535 bytes, and without U+0000.
    pub user: String,
    /// The password: at most 65,535 bytes.
    pub password: Option<Vec<u8>>,
}
