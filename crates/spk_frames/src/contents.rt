//! The contents of bytes, one after the other.
ghost use Rattle.std.specs.Prelude.{◌≡◌, ◌≤◌, ◌+◌, ◌++◌, [], ◌∷◌, drop, length, take, IfNone, IfSome, List, ℕ};
ghost use Rattle.spk_frames.specs.File.{AreTaken, Holds, Walk};
ghost use Rattle.spk_frames.specs.Frame.{IsFrame};

use crate::framing::{Framed, frame};
use std::marker::Model;

/// The contents of bytes, one after the other.
#[derive(Debug, Drop)]
pub struct Contents<'a> {
    bytes: &'a [u8],
    /// How many of the bytes are the frames of the contents that were given.
    whole: usize,
    /// How many bytes a content has at most.
    most: u32,
}

impl<'a> Model for Contents<'a> {
    ghost use Rattle.std.specs.Prelude.{◌≤◌, length};
    ghost use Rattle.spk_frames.specs.File.{Walk};

    ghost Value = { Walk };

    ghost view = { λ w. record { bytes = w.bytes.now; whole = w.whole; most = w.most } };

    ghost invariant = { λ w. w.whole ≤ length w.bytes.now };
}

impl<'a> Contents<'a> {
    /// Those of these bytes, each of so many bytes at most.
    pub fn new(bytes: &'a [u8], most: u32) -> Contents<'a>
        ensures bytes { result.bytes ≡ bytes.now }
        ensures most { result.most ≡ most }
        ensures none { AreTaken result [] }
    {
        Contents {
            bytes,
            whole: 0,
            most,
        }
    }

    /// The next content; none where no frame stands there. Linear in it.
    pub fn next(&mut self) -> Option<&'a [u8]>
        ensures bytes { self.new.bytes ≡ self.old.bytes }
        ensures most { self.new.most ≡ self.old.most }
        ensures taken { IfSome result (λ content. (contents : List (List ℕ)) → AreTaken self.old contents
            → AreTaken self.new (contents ++ content.now ∷ [])) }
        ensures over { IfNone result ((self.new ≡ self.old) × ((contents : List (List ℕ)) → AreTaken self.old contents
            → Holds self.old.most self.old.bytes contents (drop self.old.whole self.old.bytes))) }
    {
        match self.front() {
            Framed::Content(content) => {
                self.whole += content.len() + 8;
                Some(content)
            }
            Framed::End => None,
            Framed::Torn => None,
            Framed::Broken => None,
        }
    }

    /// How many of the bytes are the frames of the contents that were given.
    pub fn whole(&self) -> usize
        ensures { result ≡ self.now.whole }
    {
        self.whole
    }

    /// What stands behind them: where `next` gives none, whether the bytes end there.
    pub fn front(&self) -> Framed<'a>
        ensures { IsFrame self.now.most (drop self.now.whole self.now.bytes) result }
    {
        frame(&self.bytes[self.whole..], self.most)
    }
}
