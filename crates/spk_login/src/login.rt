//! A CONNECT with a user name and a password.
ghost use Rattle.std.specs.Prelude.{◌≡◌, ◌≤◌, ◌<◌, ◌+◌, ◌++◌, ◌⊎◌, ℕ, Bool, List, Option, Some, None, length, nat_lt, get_or, true, false, IfOk, IfErr, OnOk};
ghost use Rattle.std.specs.Option.{option_map};
ghost use Rattle.spk_packets.specs.Grammar.{Spells, has_zero};
ghost use Rattle.spk_packets.specs.Message.{Connect, WillData};
ghost use Rattle.spk_packets.specs.Spelling.{counted};
ghost use Rattle.spk_login.specs.Bytes.{body_of, body_with, fits, is_bad, is_long_password, is_plain, login_bytes, password_flag, password_part, refusal};
ghost use Rattle.spk_login.specs.Login.{LogsIn};

use crate::fault::LoginFault;
use crate::length::put_length;
use crate::parts::{body_of, put_counted};
use std::alloc::{AllocError, Global};

/// The longest body of a packet of 1,048,576 bytes.
const LONGEST: usize = 1_048_572;

/// The most bytes of a text.
const MOST: usize = 65_535;

/// Whether bytes are those of a CONNECT without a user name, by its first byte and its flags.
fn is_plain(connect: &[u8]) -> bool
    ensures { result ≡ is_plain connect.now }
{
    let body = body_of(connect);
    connect.first().copied().unwrap_or(0) == 16
        && body.len() > 7
        && body.get(7).copied().unwrap_or(0) < 64
}

/// Whether a password is too long.
fn is_long(password: &Option<Vec<u8>>) -> bool
    ensures { result ≡ is_long_password (option_map (λ p. p.items) password.now) }
{
    match password {
        Some(bytes) => bytes.len() > MOST,
        None => false,
    }
}

/// Whether U+0000 is there.
fn has_zero(text: &str) -> bool
    ensures { result ≡ has_zero text.now }
{
    text.bytes().any(|b| b == 0)
}

/// Whether the user name or the password can't be in a CONNECT.
fn is_bad(user: &str, password: &Option<Vec<u8>>) -> bool
    ensures { result ≡ is_bad user.now (option_map (λ p. p.items) password.now) }
{
    let is_long_user = user.len() > MOST;
    let has_zero_user = has_zero(user);
    let is_long_password = is_long(password);
    is_long_user || has_zero_user || is_long_password
}

/// How many bytes a user name and a password are in the payload.
fn added(user: &str, password: &Option<Vec<u8>>) -> usize
    requires { is_bad user.now (option_map (λ p. p.items) password.now) ≡ false }
    ensures size { result ≡ length (counted user.now ++ password_part (option_map (λ p. p.items) password.now)) }
    ensures few { result ≤ 131074 }
{
    match password {
        Some(bytes) => 2 + user.len() + 2 + bytes.len(),
        None => 2 + user.len(),
    }
}

/// Whether the packet with both has no more than 1,048,576 bytes.
fn fits(body: &[u8], user: &str, password: &Option<Vec<u8>>) -> bool
    requires long { 7 < length body.now }
    requires good { is_bad user.now (option_map (λ p. p.items) password.now) ≡ false }
    ensures { result ≡ fits body.now user.now (option_map (λ p. p.items) password.now) }
{
    let more = added(user, password);
    body.len() + more <= LONGEST
}

/// Appends the body with both.
fn put_body(
    out: &mut Vec<u8>,
    body: &[u8],
    user: &str,
    password: &Option<Vec<u8>>,
) -> Result<(), AllocError>
    requires long { 7 < length body.now }
    requires flags { get_or body.now 7 0 < 64 }
    requires good { is_bad user.now (option_map (λ p. p.items) password.now) ≡ false }
    ensures { OnOk result (out.new.items ≡ out.old.items
        ++ body_with body.now user.now (option_map (λ p. p.items) password.now)) }
{
    let flags = body[7] + 128;
    out.extend_from_slice(&body[..7])?;
    out.push(match password {
        Some(_) => flags + 64,
        None => flags,
    })?;
    out.extend_from_slice(&body[8..])?;
    put_counted(out, user.as_bytes())?;
    if let Some(bytes) = password {
        put_counted(out, bytes)?;
    }
    Ok(())
}

/// Why they aren't put in.
fn refusal_of(connect: &[u8], user: &str, password: &Option<Vec<u8>>) -> Option<LoginFault>
    ensures { result ≡ refusal connect.now user.now (option_map (λ p. p.items) password.now) }
{
    if !is_plain(connect) {
        return Some(LoginFault::NoConnect);
    }
    if is_bad(user, password) {
        return Some(LoginFault::BadText);
    }
    if !fits(body_of(connect), user, password) {
        return Some(LoginFault::TooLarge);
    }
    None
}

/// The bytes with both.
fn joined(
    alloc: Global,
    connect: &[u8],
    user: &str,
    password: &Option<Vec<u8>>,
) -> Result<Vec<u8>, AllocError>
    requires { refusal connect.now user.now (option_map (λ p. p.items) password.now) ≡ None }
    ensures { IfOk result
        (λ v. v.items ≡ login_bytes connect.now user.now (option_map (λ p. p.items) password.now)) }
{
    let body = body_of(connect);
    let mut out = Vec::new(alloc);
    out.extend_from_slice(&[16])?;
    put_length(&mut out, body.len() + added(user, password))?;
    put_body(&mut out, body, user, password)?;
    Ok(out)
}

/// The bytes of a CONNECT with a user name, and with a password where there is one: whoever reads them reads the same packet, and who asks for
/// the user name and the password gets these (MQTT 3.1.1, section 3.1).
///
/// Refused, in this order, with NoConnect (111) for bytes that aren't those of a CONNECT without a user name; with BadText (14) for a user name with U+0000 or
/// one of over 65,535 bytes, or such a password; with TooLarge (16) for a packet of over 1,048,576 bytes (own rule).
pub fn with_login(
    alloc: Global,
    connect: &[u8],
    user: &str,
    password: &Option<Vec<u8>>,
) -> Result<Vec<u8>, LoginFault>
    ensures bytes { IfOk result
        (λ v. v.items ≡ login_bytes connect.now user.now (option_map (λ p. p.items) password.now)) }
    ensures same { (client : List ℕ) (clean : Bool) (keep : ℕ) (will : Option WillData)
        → Spells connect.now (Connect client clean keep will)
        → IfOk result (λ v. LogsIn v.items client clean keep will user.now
        (option_map (λ p. p.items) password.now)) }
    ensures done { OnOk result
        (refusal connect.now user.now (option_map (λ p. p.items) password.now) ≡ None) }
    ensures refused { IfErr result (λ e. (e ≡ LoginFault.NoMemory)
        ⊎ (refusal connect.now user.now (option_map (λ p. p.items) password.now) ≡ Some e)) }
{
    match refusal_of(connect, user, password) {
        Some(fault) => Err(fault),
        None => Ok(joined(alloc, connect, user, password)?),
    }
}
