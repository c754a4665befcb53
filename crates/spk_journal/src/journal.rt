//! The journal.
ghost use Rattle.std.specs.Prelude.{◌≡◌, ◌⊎◌, ◌++◌, ℕ, List, [], ◌∷◌, ◌==◌, true, false, length, IfOk, IfErr, IfSome, IfNone, OnOk, OnErr, string_bytes};
ghost use Rattle.spk_journal.specs.File.{Says, mark};
ghost use Rattle.spk_journal.specs.Journal.{AreGood, Stands, is_bad, made_anew};

use crate::fault::JournalFault;
use crate::tail::Tail;
use std::alloc::{AllocError, Global};
use std::collections::VecDeque;
use std::fmt;
use std::marker::Model;

/// The line behind which nothing above waits.
const SAID: &[u8; 4] = b"said";

/// The lines that wait, and what is to be written behind what stands in the file.
#[derive(Drop)]
pub struct Journal {
    alloc: Global,
    /// The lines that wait, without their ends.
    pub(crate) lines: VecDeque<String>,
    pub(crate) tail: Tail,
}

impl fmt::Debug for Journal {
    fn fmt<W: fmt::Write>(&self, f: &mut fmt::Formatter<W>) -> fmt::Result {
        f.write_str("Journal { .. }")
    }
}

impl Model for Journal {
    ghost use Rattle.std.specs.Prelude.{map, string_bytes};
    ghost use Rattle.spk_journal.specs.Journal.{AreGood, JournalData};

    ghost Value = { JournalData };

    ghost view = { λ j. record {
      lines = map string_bytes j.lines.items;
      unwritten = j.tail.unwritten.items;
      is_broken = j.tail.is_broken;
    } };

    // each line can be noted
    ghost invariant = { λ j. AreGood (map string_bytes j.lines.items) };
}

/// Whether a line can't be noted.
fn is_bad(line: &str) -> bool
    ensures { result ≡ is_bad line.now }
{
    line.as_bytes().contains(&b'\n') || line == "said"
}

impl Journal {
    /// A journal in which nothing waits, and whose file is to be made anew.
    pub fn new(alloc: Global) -> Journal
        ensures none { result.lines ≡ [] }
        ensures unwritten { result.unwritten ≡ [] }
        ensures broken { result.is_broken ≡ true }
    {
        Journal {
            alloc,
            lines: VecDeque::new(alloc),
            tail: Tail::new(alloc),
        }
    }

    /// How many lines wait.
    pub fn len(&self) -> usize
        ensures count { result ≡ length self.now.lines }
        ensures good { AreGood self.now.lines }
    {
        self.lines.len()
    }

    /// Whether none does.
    pub fn is_empty(&self) -> bool
        ensures { result ≡ (length self.now.lines == 0) }
    {
        self.lines.is_empty()
    }

    /// Whether the file is to be made anew.
    pub fn is_broken(&self) -> bool
        ensures { result ≡ self.now.is_broken }
    {
        self.tail.is_broken
    }

    /// What is to be written behind what stands in the file.
    pub fn unwritten(&self) -> &[u8]
        ensures { result.now ≡ self.now.unwritten }
    {
        self.tail.unwritten.as_slice()
    }

    /// Notes a line, which waits from now on. Refused with BadLine (118) where it has the end of a line in it, or is `said`; then, and where memory is
    /// refused, nothing has changed.
    pub fn note(&mut self, line: String) -> Result<(), JournalFault>
        ensures noted { OnOk result (self.new.lines ≡ self.old.lines ++ string_bytes line ∷ []) }
        ensures stands { OnOk result ((file : List ℕ) → Stands file self.old → Stands file self.new) }
        ensures written { OnOk result (self.new.is_broken ≡ false
            → self.new.unwritten ≡ self.old.unwritten ++ (string_bytes line ++ 10 ∷ [])) }
        ensures bad { OnOk result (is_bad (string_bytes line) ≡ false) }
        ensures refused { IfErr result (λ e. (e ≡ JournalFault.NoMemory)
            ⊎ ((e ≡ JournalFault.BadLine) × (is_bad (string_bytes line) ≡ true))) }
        ensures err { OnErr result (self.new ≡ self.old) }
    {
        if is_bad(line.as_str()) {
            return Err(JournalFault::BadLine);
        }
        self.lines.reserve(1)?;
        self.tail.put(line.as_bytes());
        match self.lines.push_back(line) {
            Ok(()) => Ok(()),
            Err(_) => unreachable!(),
        }
    }

    /// Nothing waits any more.
    pub fn say(&mut self)
        ensures none { self.new.lines ≡ [] }
        ensures stands { (file : List ℕ) → Stands file self.old → Stands file self.new }
        // where one waited the mark is to be written, or the file to be made anew
        ensures said { (length self.old.lines == 0) ≡ false → self.new.is_broken ≡ false
            → self.new.unwritten ≡ self.old.unwritten ++ (mark ++ 10 ∷ []) }
    {
        if self.lines.is_empty() {
            return;
        }
        self.lines.clear();
        self.tail.put(SAID);
    }

    /// The first line that waits waits no more: it only sets values. Nothing is to be written for that.
    pub fn pass(&mut self) -> Option<String>
        ensures passed { IfSome result (λ line. self.old.lines ≡ string_bytes line ∷ self.new.lines) }
        ensures none { IfNone result ((self.old.lines ≡ []) × (self.new.lines ≡ [])) }
        ensures stands { (file : List ℕ) → Stands file self.old → Stands file self.new }
        ensures unwritten { self.new.unwritten ≡ self.old.unwritten }
        ensures broken { self.new.is_broken ≡ self.old.is_broken }
    {
        self.lines.pop_front()
    }

    /// What was to be written stands behind what stood in the file.
    pub fn appended(&mut self)
        ensures lines { self.new.lines ≡ self.old.lines }
        ensures unwritten { self.new.unwritten ≡ [] }
        ensures broken { self.new.is_broken ≡ self.old.is_broken }
        ensures stands { (file : List ℕ) → Stands file self.old → Stands (file ++ self.old.unwritten) self.new }
    {
        self.tail.unwritten.clear();
    }

    /// What the file is to say where it is made anew behind these lines, which only set values: these, the mark, and the lines that wait. Refused only
    /// where memory is.
    pub fn made_anew(&self, base: &[u8]) -> Result<Vec<u8>, AllocError>
        ensures { IfOk result (λ bytes. bytes.items ≡ made_anew base.now (self.now.lines)) }
    {
        let mut bytes = Vec::from_slice(self.alloc, base)?;
        bytes.extend_from_slice(b"said\n")?;
        for place in 0..self.lines.len() {
            bytes.extend_from_slice(self.lines[place].as_bytes())?;
            bytes.push(b'\n')?;
        }
        Ok(bytes)
    }

    /// The file was made anew: what `made_anew` gave stands in it, and nothing else.
    pub fn renewed(&mut self)
        ensures lines { self.new.lines ≡ self.old.lines }
        ensures unwritten { self.new.unwritten ≡ [] }
        ensures broken { self.new.is_broken ≡ false }
        ensures stands { (base : List ℕ) (lines : List (List ℕ)) → Says base lines []
            → Stands (made_anew base self.old.lines) self.new }
    {
        self.tail.unwritten.clear();
        self.tail.is_broken = false;
    }

    /// Writing failed: the file is to be made anew.
    pub fn failed(&mut self)
        ensures lines { self.new.lines ≡ self.old.lines }
        ensures unwritten { self.new.unwritten ≡ [] }
        ensures broken { self.new.is_broken ≡ true }
    {
        self.tail.unwritten.clear();
        self.tail.is_broken = true;
    }
}
