//! What is to be written.
ghost use Rattle.std.specs.Prelude.{◌≡◌, ◌++◌, [], ◌∷◌, true, false};

use std::alloc::Global;

/// What is to be written behind what stands in the file.
#[derive(Drop)]
pub(crate) struct Tail {
    pub(crate) unwritten: Vec<u8>,
    /// The file is to be made anew.
    pub(crate) is_broken: bool,
}

impl Tail {
    /// Nothing is, but all anew.
    pub(crate) fn new(alloc: Global) -> Tail
        ensures unwritten { result.unwritten.items ≡ [] }
        ensures broken { result.is_broken ≡ true }
    {
        Tail {
            unwritten: Vec::new(alloc),
            is_broken: true,
        }
    }

    /// Puts a line behind it, with its end. Where there is no memory for that the file is to be made anew.
    pub(crate) fn put(&mut self, line: &[u8])
        ensures { self.new.is_broken ≡ false → (self.old.is_broken ≡ false)
            × (self.new.unwritten.items ≡ self.old.unwritten.items ++ (line.now ++ 10 ∷ [])) }
    {
        if self.is_broken {
            return;
        }
        let is_put = self.unwritten.extend_from_slice(line).is_ok()
            && self.unwritten.push(b'\n').is_ok();
        self.is_broken = !is_put;
    }
}
