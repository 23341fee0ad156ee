ghost use Rattle.std.specs.Prelude.{◌≡◌, ◌<◌, ◌/◌, ◌%◌, ◌∷◌, ◌++◌, ◌↔◌, [], IfOk, IsTrue, OnOk, codes, replicate, true, decimal};
ghost use Rattle.std.specs.List.{list_all};
ghost use Rattle.std.specs.Str.{is_utf8};
ghost use Rattle.wc_diag_texts.specs.Plain.{IsShown, acts_nowhere, escaped_byte, escaped_text, hex_digit, is_plain, passes, shown_text, with_spaces, words_after};

use crate::plain::{passes, with_spaces};
use std::alloc::{AllocError, Global};

/// A text for people, of characters that a terminal only shows, and line feeds.
#[derive(Drop)]
pub struct Message {
    alloc: Global,
    bytes: Vec<u8>,
    ghost plain: { list_all is_plain bytes.items ≡ true },
    ghost text: { is_utf8 bytes.items ≡ true },
    ghost calm: { acts_nowhere bytes.items ≡ true },
}

/// A hexadecimal digit.
fn digit(value: u8) -> u8
    requires { value < 16 }
    ensures { result ≡ hex_digit value }
{
    match value {
        0..10 => b'0' + value,
        _ => b'a' + (value - 10),
    }
}

impl Message {
    /// A text with nothing in it.
    pub fn new(alloc: Global) -> Message
        ensures nothing { result.bytes.items ≡ [] }
        ensures shown { IsShown result.bytes.items }
    {
        Message {
            alloc,
            bytes: Vec::new(alloc),
        }
    }

    /// The bytes, which are UTF-8 without control characters but for line feeds, and without characters that act on a terminal.
    pub fn as_bytes(&self) -> &[u8]
        ensures plain { list_all is_plain result.now ≡ true }
        ensures text { is_utf8 result.now ≡ true }
        ensures calm { acts_nowhere result.now ≡ true }
        ensures all { result.now ≡ self.now.bytes.items }
    {
        self.bytes.as_slice()
    }

    /// The bytes, without the message.
    pub fn into_bytes(self) -> Vec<u8>
        ensures all { result.items ≡ self.bytes.items }
        ensures plain { list_all is_plain result.items ≡ true }
        ensures text { is_utf8 result.items ≡ true }
        ensures calm { acts_nowhere result.items ≡ true }
    {
        let Message { bytes, .. } = self;
        bytes
    }

    /// The bytes as a text.
    pub fn as_str(&self) -> &str
        ensures { result.now ≡ self.now.bytes.items }
    {
        // A message is UTF-8, so the other text is not reached.
        str::from_utf8(self.as_bytes()).unwrap_or("")
    }

    /// Whether it has no byte.
    pub fn is_empty(&self) -> bool
        ensures { IsTrue result ↔ self.now.bytes.items ≡ [] }
    {
        self.bytes.is_empty()
    }

    /// Adds a byte of ASCII that is shown as it is.
    fn put(&mut self, byte: u8) -> Result<(), AllocError>
        requires plain { is_plain byte ≡ true }
        requires ascii { byte < 128 }
        ensures { OnOk result (self.new.bytes.items ≡ self.old.bytes.items ++ byte ∷ []) }
    {
        self.bytes.push(byte)?;
        Ok(())
    }

    /// Adds `\x` and the two digits of a byte.
    fn escape(&mut self, byte: u8) -> Result<(), AllocError>
        ensures { OnOk result (self.new.bytes.items
            ≡ self.old.bytes.items
            ++ (92 ∷ 120 ∷ hex_digit (byte / 16) ∷ hex_digit (byte % 16) ∷ [])) }
    {
        self.put(b'\\')?;
        self.put(b'x')?;
        self.put(digit(byte / 16))?;
        self.put(digit(byte % 16))
    }

    /// Adds bytes that are shown as they are.
    fn put_text(&mut self, text: &[u8]) -> Result<(), AllocError>
        requires { passes text.now ≡ true }
        ensures { OnOk result (self.new.bytes.items ≡ self.old.bytes.items ++ text.now) }
    {
        self.bytes.extend_from_slice(text)
    }

    /// Adds a byte: printable ASCII as it is, a tab as a space, any other as `\x` and two digits.
    fn show(&mut self, byte: u8) -> Result<(), AllocError>
        ensures { OnOk result (self.new.bytes.items ≡ self.old.bytes.items ++ escaped_byte byte) }
    {
        if byte >= 32 && byte <= 126 {
            self.put(byte)
        } else if byte == b'\t' {
            self.put(b' ')
        } else {
            self.escape(byte)
        }
    }

    /// Adds bytes with an escape for each that is not printable ASCII.
    pub fn add_escaped(&mut self, text: &[u8]) -> Result<(), AllocError>
        ensures { OnOk result (self.new.bytes.items
            ≡ self.old.bytes.items ++ escaped_text text.now) }
    {
        for byte in text {
            self.show(*byte)?;
        }
        Ok(())
    }

    /// Adds bytes on the line: as they are with spaces for tabs, if no terminal acts on them, else with escapes.
    pub fn add(&mut self, text: &[u8]) -> Result<(), AllocError>
        ensures { OnOk result (self.new.bytes.items ≡ self.old.bytes.items ++ shown_text text.now) }
    {
        if passes(text) {
            return self.put_text(text);
        }
        let spaced = with_spaces(self.alloc, text)?;
        if passes(&spaced) {
            self.put_text(&spaced)
        } else {
            self.add_escaped(text)
        }
    }

    /// Adds words on the line.
    pub fn say(&mut self, text: &str) -> Result<(), AllocError>
        ensures all { OnOk result (self.new.bytes.items
            ≡ self.old.bytes.items ++ shown_text text.now) }
        ensures shown { IsShown self.old.bytes.items → OnOk result (IsShown self.new.bytes.items) }
    {
        self.add(text.as_bytes())
    }

    /// Adds a number.
    pub fn count(&mut self, number: usize) -> Result<(), AllocError>
        ensures { OnOk result (self.new.bytes.items
            ≡ self.old.bytes.items ++ shown_text (decimal number)) }
    {
        let text = format!(in self.alloc; "{number}")?;
        self.say(&text)
    }

    /// Adds a slice of a text between backquotes.
    pub fn quote(&mut self, text: &[u8]) -> Result<(), AllocError>
        ensures { OnOk result (self.new.bytes.items
            ≡ self.old.bytes.items
            ++ (shown_text (codes "`") ++ shown_text text.now ++ shown_text (codes "`"))) }
    {
        self.say("`")?;
        self.add(text)?;
        self.say("`")
    }

    /// Adds a mark that number of times.
    pub fn repeat(&mut self, mark: u8, times: usize) -> Result<(), AllocError>
        requires plain { is_plain mark ≡ true }
        requires ascii { mark < 128 }
        ensures { OnOk result (self.new.bytes.items
            ≡ self.old.bytes.items ++ replicate times mark) }
    {
        for _done in 0..times {
            self.put(mark)?;
        }
        Ok(())
    }

    /// Adds all of another message.
    pub fn append(&mut self, other: &Message) -> Result<(), AllocError>
        ensures { OnOk result (self.new.bytes.items
            ≡ self.old.bytes.items ++ other.now.bytes.items) }
    {
        self.bytes.extend_from_slice(&other.bytes)
    }

    /// Adds words after a mark; nothing if there are none.
    pub fn say_before(&mut self, mark: &str, words: &Message) -> Result<(), AllocError>
        ensures { OnOk result (self.new.bytes.items
            ≡ self.old.bytes.items ++ words_after (shown_text mark.now) words.now.bytes.items) }
    {
        if words.is_empty() {
            return Ok(());
        }
        self.say(mark)?;
        self.append(words)
    }

    /// Ends the line.
    pub fn end_line(&mut self) -> Result<(), AllocError>
        ensures { OnOk result (self.new.bytes.items ≡ self.old.bytes.items ++ 10 ∷ []) }
    {
        self.put(b'\n')
    }
}

/// Bytes as they are shown on one line: as they are with spaces for tabs, if they are UTF-8 on which no terminal acts; else printable
/// ASCII as it is, and any other byte as `\x` and two digits.
pub fn shown_text(alloc: Global, text: &[u8]) -> Result<Message, AllocError>
    ensures { IfOk result (λ message. message.bytes.items ≡ shown_text text.now) }
{
    let mut message = Message::new(alloc);
    message.add(text)?;
    Ok(message)
}
