//! What a file says.
ghost use Rattle.std.specs.Prelude.{◌≡◌, ◌≢◌, ◌==◌, not, ◌+◌, ◌^◌, ◌<◌, ◌≤◌, ℕ, List, [], ◌∷◌, ◌++◌, map, drop, length, slice_index, slice_range, IfOk, if◌then◌else◌};
ghost use Rattle.spk_journal.specs.File.{Says, is_mark, waiting};
ghost use Rattle.spk_journal.specs.Read.{IsRead};

use std::alloc::{AllocError, Global};

/// What a file says.
#[derive(Drop)]
pub struct Lines<'a> {
    /// Its lines, without their ends, the marks too.
    pub lines: Vec<&'a [u8]>,
    /// How many of them stand before those that wait.
    pub settled: usize,
    /// Whether something stands behind the last end of a line: it says nothing.
    pub is_torn: bool,
}

/// Whether a line is the mark `said`.
pub fn is_mark(line: &[u8]) -> bool
    ensures { result ≡ is_mark line.now }
{
    line == b"said".as_slice()
}

/// Where the line at this place begins, once it was read: behind it, where it is the end of one, which is put behind the others.
fn put_byte<'a>(
    lines: &mut Vec<&'a [u8]>,
    bytes: &'a [u8],
    start: usize,
    place: usize,
) -> Result<usize, AllocError>
    requires order { start ≤ place }
    requires within { place < length bytes.now }
    ensures end { slice_index bytes.now place ≡ 10 → IfOk result (λ n. (n ≡ place + 1)
        × (map (λ line. line.now) lines.new.items
        ≡ map (λ line. line.now) lines.old.items ++ slice_range bytes.now start place ∷ [])) }
    ensures other { slice_index bytes.now place ≢ 10 → IfOk result (λ n. (n ≡ start)
        × (map (λ line. line.now) lines.new.items ≡ map (λ line. line.now) lines.old.items)) }
{
    if bytes[place] == b'\n' {
        lines.push(&bytes[start..place])?;
        return Ok(place + 1);
    }
    Ok(start)
}

/// The lines of a file, and where what stands behind the last end begins.
fn lines_in<'a>(alloc: Global, bytes: &'a [u8]) -> Result<(Vec<&'a [u8]>, usize), AllocError>
    ensures { IfOk result (λ r. Says bytes.now (map (λ line. line.now) r.0.items) (drop r.1 bytes.now)
        × (r.1 ≤ length bytes.now)) }
{
    let mut lines = Vec::new(alloc);
    let mut start = 0usize;
    for place in 0..bytes.len() {
        start = put_byte(&mut lines, bytes, start, place)?;
    }
    Ok((lines, start))
}

/// How many lines stand before those that wait, behind one more.
fn settled_behind(settled: usize, place: usize, line: &[u8]) -> usize
    requires { place < 2 ^ 63 }
    ensures { result ≡ (if is_mark line.now then place + 1 else settled) }
{
    if is_mark(line) { place + 1 } else { settled }
}

/// How many lines stand before those that wait.
fn settled_in(lines: &[&[u8]]) -> usize
    ensures within { result ≤ length lines.now }
    ensures wait { drop result (map (λ line. line.now) lines.now) ≡ waiting (map (λ line. line.now) lines.now) }
{
    let mut settled = 0usize;
    for place in 0..lines.len() {
        settled = settled_behind(settled, place, lines[place]);
    }
    settled
}

/// Reads a file that may have been torn at whatever byte. Refused only where memory is.
pub fn read<'a>(alloc: Global, bytes: &'a [u8]) -> Result<Lines<'a>, AllocError>
    ensures { IfOk result (IsRead bytes.now) }
{
    let (lines, start) = lines_in(alloc, bytes)?;
    let settled = settled_in(lines.as_slice());
    Ok(Lines {
        lines,
        settled,
        is_torn: start < bytes.len(),
    })
}
