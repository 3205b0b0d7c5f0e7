//! A text that grows. Where memory is refused it is cut off, and stays so.
use std::alloc::Global;
use std::fmt::{Display, Write};

/// A text that grows, piece by piece. Its calls return nothing, so that what puts many pieces stays
/// short.
#[derive(Drop)]
pub struct Told {
    text: String,
    is_cut: bool,
}

impl Told {
    /// The empty text.
    pub fn new(alloc: Global) -> Told {
        Told {
            text: String::new(alloc),
            is_cut: false,
        }
    }

    /// Puts a piece behind the others.
    pub fn put(&mut self, piece: &str) {
        if self.text.push_str(piece).is_err() {
            self.is_cut = true;
        }
    }

    /// Puts a number in decimal digits.
    pub fn put_number(&mut self, number: u64) {
        self.put_shown(&number);
    }

    /// Puts a number in decimal digits, with its sign where it is negative.
    pub fn put_signed(&mut self, number: i64) {
        self.put_shown(&number);
    }

    /// Puts a space where something stands before it.
    pub fn put_gap(&mut self) {
        if !self.text.is_empty() {
            self.put(" ");
        }
    }

    /// Puts a word, behind a space where something stands before it.
    pub fn put_word(&mut self, word: &str) {
        self.put_gap();
        self.put(word);
    }

    /// Puts what a value is shown as.
    pub fn put_shown<T: Display>(&mut self, value: &T) {
        if write!(self.text, "{value}").is_err() {
            self.is_cut = true;
        }
    }

    /// Puts a byte in two hexadecimal digits.
    pub fn put_hex(&mut self, byte: u8) {
        if write!(self.text, "{byte:02x}").is_err() {
            self.is_cut = true;
        }
    }

    /// Puts bytes in hexadecimal digits.
    pub fn put_all_hex(&mut self, bytes: &[u8]) {
        for byte in bytes {
            self.put_hex(*byte);
        }
    }

    /// Puts bytes in one line: those of ASCII that have a form as they are, LF as `\n`, others as
    /// `\xNN`.
    pub fn put_escaped(&mut self, bytes: &[u8]) {
        for byte in bytes {
            self.put_byte(*byte);
        }
    }

    /// Puts a text in one line: LF as `\n`, a backslash twice, other control characters as `\xNN`.
    pub fn put_one_line(&mut self, text: &str) {
        for letter in text.chars() {
            if letter.is_ascii() {
                self.put_byte(u8::try_from(u32::from(letter)).unwrap_or(0));
            } else {
                self.put_shown(&letter);
            }
        }
    }

    /// Puts a text in one line, with `¶` for each LF.
    pub fn put_folded(&mut self, text: &str) {
        let mut is_front = true;
        for line in text.split('\n') {
            if !is_front {
                self.put("¶");
            }
            self.put(line);
            is_front = false;
        }
    }

    fn put_byte(&mut self, byte: u8) {
        match byte {
            b'\n' => self.put("\\n"),
            b'\\' => self.put("\\\\"),
            b' '..=b'~' => self.put_shown(&char::from(byte)),
            _ => {
                self.put("\\x");
                self.put_hex(byte);
            }
        }
    }

    /// The text so far.
    pub fn as_str(&self) -> &str {
        self.text.as_str()
    }

    /// Whether memory was refused for a piece.
    pub fn is_cut(&self) -> bool {
        self.is_cut
    }

    /// Whether it is that text, whole.
    pub fn is(&self, wanted: &str) -> bool {
        !self.is_cut && self.text.as_str() == wanted
    }
}
