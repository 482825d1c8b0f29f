//! Texts that are put together, and how a row went by its answers.
use crate::faults::RowError;
use crate::tables::{asked, number};
use std::alloc::Global;
use std::str::from_utf8;

/// A text that is put together part by part. Where memory is wanting, or a part is misspelled, it stays short, and `end` is an
/// error.
#[derive(Drop)]
pub struct Text {
    text: String,
    is_short: bool,
    is_misspelled: bool,
}

impl Text {
    /// An empty text.
    pub fn new(alloc: Global) -> Text {
        Text {
            text: String::new(alloc),
            is_short: false,
            is_misspelled: false,
        }
    }

    /// Adds a part.
    pub fn put(&mut self, part: &str) {
        if self.text.push_str(part).is_err() {
            self.is_short = true;
        }
    }

    /// Adds a letter.
    pub fn put_char(&mut self, letter: char) {
        if self.text.push(letter).is_err() {
            self.is_short = true;
        }
    }

    /// Adds a text that is put together. Where that is not whole, neither is this one.
    pub fn put_text(&mut self, part: &Text) {
        self.put(part.text.as_str());
        self.is_short = self.is_short || part.is_short;
        self.is_misspelled = self.is_misspelled || part.is_misspelled;
    }

    /// Adds bytes that are a text.
    pub fn put_bytes(&mut self, bytes: &[u8]) {
        match from_utf8(bytes) {
            Ok(part) => self.put(part),
            Err(_) => self.is_misspelled = true,
        }
    }

    /// Adds the digits of a number.
    pub fn put_number(&mut self, number: u64) {
        if write!(&mut self.text, "{number}").is_err() {
            self.is_short = true;
        }
    }

    // Adds a part so often.
    fn put_often(&mut self, part: &str, times: u64) {
        for _time in 0..times {
            self.put(part);
        }
    }

    // Adds a part of data: `HH*N` gives so many pairs.
    fn put_part(&mut self, part: &str) {
        let Some((pair, times)) = part.split_once('*') else {
            self.put(part);
            return;
        };
        match number(times) {
            Ok(times) => self.put_often(pair, times),
            Err(_) => self.is_misspelled = true,
        }
    }

    // Adds a word that may be data in parts.
    fn put_word(&mut self, word: &str) {
        if !word.contains('+') {
            self.put(word);
            return;
        }
        for part in word.split('+') {
            self.put_part(part);
        }
    }

    /// Adds words of which the last one may be data in parts, with `+` between them.
    pub fn put_words(&mut self, words: &str) {
        match words.rsplit_once(' ') {
            None => self.put_word(words),
            Some((before, last)) => {
                self.put(before);
                self.put(" ");
                self.put_word(last);
            }
        }
    }

    /// Adds why there is no answer.
    pub fn put_fault(&mut self, fault: &RowError) {
        self.put(fault.text());
    }

    /// Has `end` answer that a line is misspelled.
    pub fn misspell(&mut self) {
        self.is_misspelled = true;
    }

    /// Has `end` answer that memory was wanting.
    pub fn fall_short(&mut self) {
        self.is_short = true;
    }

    /// Whether it is whole: no part was misspelled or left out.
    pub fn is_whole(&self) -> bool {
        !self.is_misspelled && !self.is_short
    }

    /// Whether it is whole, and this text.
    pub fn is(&self, text: &str) -> bool {
        self.is_whole() && self.text.as_str() == text
    }

    /// Whether both are whole, and the same.
    pub fn is_same(&self, other: &Text) -> bool {
        other.is_whole() && self.is(other.text.as_str())
    }

    /// The text; none where it is not whole.
    pub fn as_str(&self) -> &str {
        if self.is_whole() {
            self.text.as_str()
        } else {
            ""
        }
    }

    /// The text.
    pub fn end(self) -> Result<String, RowError> {
        let Text {
            text,
            is_short,
            is_misspelled,
        } = self;
        if is_misspelled {
            return Err(RowError::Misspelled);
        }
        if is_short {
            return Err(RowError::NoMemory);
        }
        Ok(text)
    }
}

// The first line of a row that is answered otherwise, with the answer that came.
fn first_unlike<'a>(row: &'a str, answers: &'a str) -> Option<(&'a str, &'a str)> {
    let mut answers = answers.lines();
    for line in row.lines() {
        if let Some((_, wanted)) = asked(line) {
            let came = answers.next().unwrap_or("");
            if came != wanted {
                return Some((line, came));
            }
        }
    }
    None
}

// `ok`, or what was wanted and what came.
fn told(alloc: Global, difference: Option<(&str, &str)>) -> Result<String, RowError> {
    let mut text = Text::new(alloc);
    match difference {
        None => text.put("ok"),
        Some((wanted, came)) => {
            text.put(wanted);
            text.put(", and not ");
            text.put(came);
        }
    }
    text.end()
}

/// How a row went by the answers to its lines, a line each: `ok`, or the first line that is answered otherwise.
pub fn row_told(alloc: Global, row: &str, answers: &str) -> Result<String, RowError> {
    told(alloc, first_unlike(row, answers))
}
