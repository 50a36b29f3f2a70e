use crate::text::{Text, TextBuffer};
use std::alloc::{AllocError, Global};

/// A text that is being written up to a number of characters. What comes after them is left out.
#[derive(Debug, Drop)]
pub(crate) struct LimitedBuffer {
    pub text: TextBuffer,
    /// How many more characters it takes.
    pub room: usize,
}

impl LimitedBuffer {
    ghost use Rattle.std.specs.Prelude.{◌≡◌, [], ◌∷◌, length, ◌<◌, ◌^◌, ◌↔◌, IsTrue, IfOk, OnOk};
    ghost use Rattle.mon_values.specs.Limits.{written};

    /// No characters yet.
    pub fn new(alloc: Global, limit: usize) -> LimitedBuffer
        ensures text { result.text ≡ [] }
        ensures room { result.room ≡ limit }
    {
        LimitedBuffer {
            text: TextBuffer::new(alloc),
            room: limit,
        }
    }

    /// Whether it takes no more characters.
    pub fn is_full(&self) -> bool
        ensures { IsTrue result ↔ (self.now.room ≡ 0) }
    {
        self.room == 0
    }

    /// What was written, as a text.
    pub fn into_text(self) -> Result<Text, AllocError>
        ensures text { IfOk result (λ t. t ≡ self.text) }
        ensures fits { length self.text < 2 ^ 63 }
    {
        self.text.into_text()
    }

    /// Adds a character at the end, if there is room.
    pub fn push(&mut self, c: char) -> Result<(), AllocError>
        ensures { OnOk result (self.new ≡ written self.old (c ∷ [])) }
    {
        if self.room > 0 {
            self.text.push(c)?;
            self.room -= 1;
        }
        Ok(())
    }

    /// Adds characters at the end, as far as there is room.
    pub fn append(&mut self, more: &[char]) -> Result<(), AllocError>
        ensures { OnOk result (self.new ≡ written self.old more.now) }
    {
        let count = more.len().min(self.room);
        self.text.append(&more[..count])?;
        self.room -= count;
        Ok(())
    }

    /// Adds an ASCII string at the end, as far as there is room.
    pub fn append_ascii(&mut self, ascii: &str) -> Result<(), AllocError>
        ensures { OnOk result (self.new ≡ written self.old ascii.now) }
    {
        for byte in ascii.as_bytes() {
            self.push(*byte as char)?;
        }
        Ok(())
    }
}
