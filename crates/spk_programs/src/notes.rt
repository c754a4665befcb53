//! What is told of connections, on standard error.

use spk_network::Note;
use std::io::Write;

/// Tells of a connection, behind what says whose it is. What becomes of the line changes nothing else.
pub(crate) fn write_note<N: Write>(notes: &mut N, note: &Note) {
    let _ = match note {
        Note::Connected(address) => writeln!(notes, "connected with {address}"),
        Note::Failed(address) => writeln!(notes, "no connection with {address}"),
        Note::NoAddress(number) => { writeln!(notes, "broker {number} has no address") }
        Note::Over => writeln!(notes, "the connection is over"),
    };
}
