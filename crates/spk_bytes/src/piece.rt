//! Bytes in one piece, which many may hold.
ghost use Rattle.std.specs.Prelude.{◌≡◌, ◌==◌, IfOk, length};

use std::alloc::AllocError;
use std::marker::Model;
use std::sync::ArcSlice;

/// Who holds the bytes.
#[derive(Debug, Drop)]
enum Held {
    Alone(Vec<u8>),
    Together(ArcSlice<u8>),
}

/// Bytes in one piece. Contracts see them as a list of numbers.
#[derive(Debug, Drop)]
pub struct Piece {
    held: Held,
}

impl Model for Piece {
    ghost use Rattle.std.specs.Prelude.{ℕ, List};
    ghost use Rattle.spk_bytes.specs.Piece.{held_items};

    ghost Value = { List ℕ };

    ghost view = { λ s. held_items s.held };
}

impl Piece {
    /// These bytes. It takes no memory.
    pub fn new(bytes: Vec<u8>) -> Piece
        ensures { result ≡ bytes.items }
    {
        Piece {
            held: Held::Alone(bytes),
        }
    }

    /// These bytes, so that `share` copies none of them.
    pub fn shared(bytes: Vec<u8>) -> Result<Piece, AllocError>
        ensures { IfOk result (λ b. b ≡ bytes.items) }
    {
        Ok(Piece {
            held: Held::Together(ArcSlice::from_vec(bytes)?),
        })
    }

    /// The same bytes for one more holder. Those of one owner are copied.
    pub fn share(&self) -> Result<Piece, AllocError>
        ensures { IfOk result (λ b. b ≡ self.now) }
    {
        match &self.held {
            Held::Alone(bytes) => Ok(Piece::new(bytes.clone()?)),
            Held::Together(bytes) => Ok(Piece {
                held: Held::Together(bytes.clone()?),
            }),
        }
    }

    /// The bytes, lent.
    pub fn as_slice(&self) -> &[u8]
        ensures { result.now ≡ self.now }
    {
        match &self.held {
            Held::Alone(bytes) => bytes.as_slice(),
            Held::Together(bytes) => bytes.as_slice(),
        }
    }

    /// How many bytes these are.
    pub fn len(&self) -> usize
        ensures { result ≡ length self.now }
    {
        self.as_slice().len()
    }

    /// Whether these are none.
    pub fn is_empty(&self) -> bool
        ensures { result ≡ (length self.now == 0) }
    {
        self.as_slice().is_empty()
    }
}

impl PartialEq for Piece {
    ghost use Rattle.std.specs.Prelude.{nat_eq};
    ghost use Rattle.std.specs.Cmp.{partial_equiv_from_equiv};
    ghost use Rattle.std.specs.Cmp.Lexicographic.{nat_list_eq_equiv, pointwise};

    ghost eq = { pointwise nat_eq };

    ghost laws = { partial_equiv_from_equiv nat_list_eq_equiv };

    fn eq(&self, other: &Piece) -> bool {
        self.as_slice() == other.as_slice()
    }
}
