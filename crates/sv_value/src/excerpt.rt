// Parts of a text that share its memory.
ghost use Rattle.std.specs.Prelude.{◌≡◌, ℕ, ◌+◌, ◌≤◌, ◌↔◌, IsTrue, IfOk, length, take, drop, []};

use crate::NoMemory;
use std::alloc::Global;
use std::marker::Model;
use std::rc::Rc;

/// A part of a text, seen as its bytes. Excerpts of one text share its memory, so one more owner takes none.
#[derive(Drop)]
pub struct Excerpt {
    whole: Rc<Vec<u8>>,
    start: usize,
    len: usize,
}

impl Model for Excerpt {
    ghost use Rattle.std.specs.Prelude.{List, ℕ, take, drop, length, ◌+◌, ◌≤◌};

    ghost Value = { List ℕ };

    ghost view = { λ e. take e.len (drop e.start e.whole.value.items) };

    ghost invariant = { λ e. e.start + e.len ≤ length e.whole.value.items };
}

impl Excerpt {
    /// A text with the bytes given, all of it.
    pub fn new(alloc: Global, bytes: &[u8]) -> Result<Excerpt, NoMemory>
        ensures { IfOk result (λ e. e ≡ bytes.now) }
    {
        let whole = Vec::from_slice(alloc, bytes)?;
        let len = whole.len();
        let whole = Rc::new(alloc, whole)?;
        Ok(Excerpt {
            whole,
            start: 0,
            len,
        })
    }

    /// The bytes.
    pub fn bytes(&self) -> &[u8]
        ensures { result.now ≡ self.now }
    {
        &self.whole[self.start..self.start + self.len]
    }

    /// The `len` bytes from `start` on, in the same memory.
    pub fn part(&self, start: usize, len: usize) -> Result<Excerpt, NoMemory>
        requires { start + len ≤ length self.now }
        ensures { IfOk result (λ e. e ≡ take len (drop start self.now)) }
    {
        Ok(Excerpt {
            whole: self.whole.clone()?,
            start: self.start + start,
            len,
        })
    }

    /// The same bytes, in the same memory.
    pub fn share(&self) -> Result<Excerpt, NoMemory>
        ensures { IfOk result (λ e. e ≡ self.now) }
    {
        Ok(Excerpt {
            whole: self.whole.clone()?,
            start: self.start,
            len: self.len,
        })
    }

    /// Whether two excerpts have the same bytes.
    pub fn equals(&self, other: &Excerpt) -> bool
        ensures { IsTrue result ↔ (self.now ≡ other.now) }
    {
        self.bytes() == other.bytes()
    }
}
