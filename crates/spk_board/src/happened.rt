//! What happened last.
ghost use Rattle.std.specs.Prelude.{◌≡◌};
ghost use Rattle.spk_board.specs.Happening.{is_asking};

use crate::row::NAME;
use crate::text::{write_name, write_time};
use spk_story::Hole;
use std::io::{self, Write};

/// What happened.
#[derive(Clone, Copy, Debug, PartialEq, Eq)]
pub(crate) enum What {
    /// A node was born for the first time.
    Born,
    /// It was born again.
    BornAgain,
    /// It was born, and so this hole is over.
    Mended(Hole),
    /// Messages of it were lost.
    Lost,
    /// Its session is over.
    Died,
    /// A rebirth of it was asked for.
    Asked,
    /// A message was refused, with this number.
    Refused(u32),
    /// The host's own session is over.
    Ended,
    /// The broker turned the host away, with this code.
    TurnedAway(u8),
    /// The broker refused the subscription.
    NotSubscribed,
}

/// What happened, when and to which node, if to one.
#[derive(Clone, Copy, Debug, PartialEq, Eq)]
pub(crate) struct Happened {
    pub(crate) at: u64,
    pub(crate) place: Option<usize>,
    pub(crate) what: What,
}

/// A birth that ends a hole. Where nothing was held at the gap, all that is known is that a message is missing.
fn write_mended<W: Write>(out: &mut W, hole: Hole) -> io::Result<()> {
    write!(out, "born; since ")?;
    write_time(out, hole.from)?;
    if hole.missing == 0 && hole.unused == 0 {
        return write!(out, " a message or more missing");
    }
    let missing = hole.missing.min(9_999_999);
    let unused = hole.unused.min(999_999);
    write!(out, " {missing} missing, {unused} unused")
}

impl What {
    /// Writes it in at most 51 columns.
    fn write<W: Write>(self, out: &mut W) -> io::Result<()> {
        match self {
            What::Born => write!(out, "born"),
            What::BornAgain => write!(out, "born again"),
            What::Mended(hole) => write_mended(out, hole),
            What::Lost => write!(out, "messages were lost"),
            What::Died => write!(out, "its session is over"),
            What::Asked => write!(out, "a rebirth was asked for"),
            What::Refused(number) => write!(out, "a message was refused ({number})"),
            What::Ended => write!(out, "the host's own session is over"),
            What::TurnedAway(code) => write!(out, "the broker turned the host away ({code})"),
            What::NotSubscribed => write!(out, "the broker refused the subscription"),
        }
    }
}

impl Happened {
    /// Whether it is a request for the node at a place, at a moment or behind it.
    pub(crate) fn is_asking(&self, place: usize, since: u64) -> bool
        ensures { result ≡ is_asking place since self.now }
    {
        let is_request = match self.what {
            What::Asked => true,
            _ => false,
        };
        self.place == Some(place) && is_request && self.at >= since
    }

    /// Writes it as a line of at most 80 columns, of the node with this name.
    pub(crate) fn write<W: Write>(&self, out: &mut W, name: &str) -> io::Result<()> {
        write_time(out, self.at)?;
        write!(out, " ")?;
        write_name(out, name, NAME)?;
        write!(out, " ")?;
        self.what.write(out)?;
        writeln!(out)
    }
}
