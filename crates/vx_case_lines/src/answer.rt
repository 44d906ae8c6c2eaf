//! The text of answers.

use std::alloc::{AllocError, Global};
use std::fmt::{Debug, Display};

/// Takes text without a word about memory: where it runs out some text is left out, and `into_text` says so.
#[derive(Drop)]
pub struct Answer {
    text: String,
    is_short: bool,
}

impl Answer {
    /// An answer without a text.
    pub fn new(alloc: Global) -> Answer {
        Answer {
            text: String::new(alloc),
            is_short: false,
        }
    }

    /// The text behind what stands.
    pub fn push_str(&mut self, text: &str) {
        if self.text.push_str(text).is_err() {
            self.is_short = true;
        }
    }

    /// What `write!` calls.
    pub fn write_fmt<D: Display + Drop>(&mut self, value: D) {
        if self.text.write_fmt(value).is_err() {
            self.is_short = true;
        }
    }

    /// The value's text.
    pub fn push<D: Display + Drop>(&mut self, value: D) {
        self.write_fmt(value);
    }

    /// The value's text for a programmer.
    pub fn push_debug<D: Debug + Drop>(&mut self, value: D) {
        write!(self, "{value:?}");
    }

    /// The bytes as hex text.
    pub fn push_hex(&mut self, bytes: &[u8]) {
        for byte in bytes {
            write!(self, "{byte:02x}");
        }
    }

    /// The value's text, or why there is none.
    pub fn push_given<D: Display + Drop, E: Display + Drop>(&mut self, given: Result<D, E>) {
        match given {
            Ok(value) => self.push(value),
            Err(error) => self.push(error),
        }
    }

    /// A line that says why there is no answer.
    pub fn push_refusal<D: Display + Drop>(&mut self, name: &str, error: D) {
        self.push_str(name);
        self.push_str(": ");
        self.push(error);
        self.push_str("\n");
    }

    /// All of the other behind what stands.
    pub fn push_all(&mut self, other: Answer) {
        self.push_str(other.text.as_str());
        if other.is_short {
            self.is_short = true;
        }
    }

    /// Each line of the other, behind the name.
    pub fn push_lines(&mut self, name: &str, other: Answer) {
        for line in other.text.lines() {
            self.push_line(name, line);
        }
        if other.is_short {
            self.is_short = true;
        }
    }

    fn push_line(&mut self, name: &str, line: &str) {
        self.push_str(name);
        self.push_str(": ");
        self.push_str(line);
        self.push_str("\n");
    }

    /// The text of both, where it is the same.
    pub fn push_agreed(&mut self, one: Answer, other: Answer) {
        if one.text.as_str() != other.text.as_str() {
            self.push_str("the two calls differ: ");
        }
        self.push_all(one);
    }

    /// All that was taken.
    pub fn into_text(self) -> Result<String, AllocError> {
        let Answer { text, is_short } = self;
        if is_short {
            drop(text);
            return Err(AllocError);
        }
        Ok(text)
    }
}
