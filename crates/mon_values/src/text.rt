ghost use Rattle.std.specs.Prelude.{◌≡◌, [], ◌∷◌, ◌++◌, length, ◌<◌, ◌^◌, ◌↔◌, IsTrue, IfOk, OnOk, OnErr};

use mon_shared::SharedItems;
use std::alloc::{AllocError, Global};
use std::marker::Model;

/// A text with shared characters, which contracts see as their list.
#[derive(Debug, Drop)]
pub struct Text {
    items: SharedItems<char>,
}

impl Model for Text {
    ghost use Rattle.std.specs.Prelude.{List, ℕ};

    ghost Value = { List ℕ };

    ghost view = { λ t. t.items };
}

impl Text {
    /// The empty text.
    pub fn new() -> Text
        ensures { result ≡ [] }
    {
        Text {
            items: SharedItems::new(),
        }
    }

    /// The text of these characters, without a copy.
    pub fn from_vec(items: Vec<char>) -> Result<Text, AllocError>
        ensures { IfOk result (λ t. t ≡ items.items) }
    {
        Ok(Text {
            items: SharedItems::from_vec(items)?,
        })
    }

    /// A copy of these characters.
    pub fn from_chars(alloc: Global, chars: &[char]) -> Result<Text, AllocError>
        ensures { IfOk result (λ t. t ≡ chars.now) }
    {
        Text::from_vec(Vec::from_slice(alloc, chars)?)
    }

    /// The text of an ASCII string; of another string, one character for each of its bytes.
    pub fn from_ascii(alloc: Global, ascii: &str) -> Result<Text, AllocError>
        ensures { IfOk result (λ t. t ≡ ascii.now) }
    {
        let mut text = TextBuffer::new(alloc);
        text.append_ascii(ascii)?;
        text.into_text()
    }

    /// The characters in order.
    pub fn chars(&self) -> &[char]
        ensures { result.now ≡ self.now }
    {
        self.items.as_slice()
    }

    /// The number of characters.
    pub fn len(&self) -> usize
        ensures { result ≡ length self.now }
    {
        self.items.len()
    }

    /// Whether there is no character.
    pub fn is_empty(&self) -> bool
        ensures { IsTrue result ↔ (self.now ≡ []) }
    {
        self.items.is_empty()
    }

    /// The same text, with one more owner of its characters.
    pub fn copy(&self) -> Result<Text, AllocError>
        ensures { IfOk result (λ t. t ≡ self.now) }
    {
        Ok(Text {
            items: self.items.share()?,
        })
    }

    /// The same text, of which nothing is shared.
    pub fn own(&self, alloc: Global) -> Result<Text, AllocError>
        ensures { IfOk result (λ t. t ≡ self.now) }
    {
        Text::from_chars(alloc, self.chars())
    }
}

/// A text that is being written, which contracts see as the list of its characters.
#[derive(Debug, Drop)]
pub struct TextBuffer {
    items: Vec<char>,
}

impl Model for TextBuffer {
    ghost use Rattle.std.specs.Prelude.{List, ℕ};

    ghost Value = { List ℕ };

    ghost view = { λ t. t.items.items };
}

impl TextBuffer {
    /// No characters yet.
    pub fn new(alloc: Global) -> TextBuffer
        ensures { result ≡ [] }
    {
        TextBuffer {
            items: Vec::new(alloc),
        }
    }

    /// The number of characters so far.
    pub fn len(&self) -> usize
        ensures { result ≡ length self.now }
    {
        self.items.len()
    }

    /// What was written, as a text, which keeps no more room than it needs.
    pub fn into_text(mut self) -> Result<Text, AllocError>
        ensures text { IfOk result (λ t. t ≡ self) }
        ensures fits { length self < 2 ^ 63 }
    {
        self.items.shrink_to_fit();
        Text::from_vec(self.items)
    }

    /// Adds a character at the end.
    pub fn push(&mut self, c: char) -> Result<(), AllocError>
        ensures ok { OnOk result (self.new ≡ self.old ++ c ∷ []) }
        ensures err { OnErr result (self.new ≡ self.old) }
    {
        self.items.push(c)?;
        Ok(())
    }

    /// Adds characters at the end.
    pub fn append(&mut self, more: &[char]) -> Result<(), AllocError>
        ensures ok { OnOk result (self.new ≡ self.old ++ more.now) }
        ensures err { OnErr result (self.new ≡ self.old) }
    {
        self.items.extend_from_slice(more)
    }

    /// Adds an ASCII string at the end, as `from_ascii` reads it.
    pub fn append_ascii(&mut self, ascii: &str) -> Result<(), AllocError>
        ensures ok { OnOk result (self.new ≡ self.old ++ ascii.now) }
        ensures err { OnErr result (self.new ≡ self.old) }
    {
        let before = self.items.len();
        for byte in ascii.as_bytes() {
            if self.push(*byte as char).is_err() {
                self.items.truncate(before);
                return Err(AllocError);
            }
        }
        Ok(())
    }
}
