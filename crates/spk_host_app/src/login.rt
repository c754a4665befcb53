//! The user name and the password.

/// The user name, of at most 65,535 bytes and without U+0000, and the password, of at most 65,535 bytes, that CONNECT says (MQTT 3.1.1, section 3.1.3).
#[derive(Drop)]
pub struct Login {
    pub user: String,
    pub password: Option<Vec<u8>>,
}
