//! A row: the words of a command, words on the run, and a text.
use nc_types::NoMemory;
use std::alloc::Global;

/// A row, each line of its text with its LF.
#[derive(Drop)]
pub struct Row {
    head: String,
    text: Vec<u8>,
    /// The last LF of the text is left out.
    is_open: bool,
}

impl Row {
    fn new(alloc: Global, head: &str, is_open: bool) -> Result<Row, NoMemory> {
        Ok(Row {
            head: String::from_str(alloc, head)?,
            text: Vec::new(alloc),
            is_open,
        })
    }

    /// The row that a line begins, if it begins one.
    pub fn begun(alloc: Global, line: &str) -> Result<Option<Row>, NoMemory> {
        if let Some(head) = line.strip_prefix("> ") {
            return Ok(Some(Row::new(alloc, head, false)?));
        }
        if let Some(head) = line.strip_prefix(">~ ") {
            return Ok(Some(Row::new(alloc, head, true)?));
        }
        Ok(None)
    }

    /// A line goes behind the text.
    pub fn push(&mut self, line: &str) -> Result<(), NoMemory> {
        self.text.extend_from_slice(line.as_bytes())?;
        self.text.push(b'\n')?;
        Ok(())
    }

    /// The words of the command.
    pub fn words(&self) -> &str {
        let head = self.head.as_str();
        head.split_once("| ").map_or(head, |parts| parts.0)
    }

    /// The words on the run.
    fn outside(&self) -> &str {
        self.head
            .as_str()
            .split_once("| ")
            .map_or("", |parts| parts.1)
    }

    /// Whether this word stands among those on the run.
    pub fn has(&self, word: &str) -> bool {
        self.outside().split_ascii_whitespace().any(|w| w == word)
    }

    /// The number behind this name there.
    pub fn number(&self, name: &str) -> Option<u64> {
        for word in self.outside().split_ascii_whitespace() {
            if let Some(digits) = word.strip_prefix(name) {
                return digits.parse::<u64>().ok();
            }
        }
        None
    }

    /// The text that the command reads.
    fn input(&self) -> &[u8] {
        if self.is_open && !self.text.is_empty() {
            &self.text[..self.text.len() - 1]
        } else {
            &self.text
        }
    }

    /// The same, where the byte before each `%` stands so many times as the row says, if it does.
    pub fn repeated(&self, alloc: Global) -> Result<Vec<u8>, NoMemory> {
        let Some(times) = self.number("times=") else {
            return Ok(Vec::from_slice(alloc, self.input())?);
        };
        let mut text = Vec::new(alloc);
        for byte in self.input() {
            if *byte == b'%' {
                put_again(&mut text, times)?;
            } else {
                text.push(*byte)?;
            }
        }
        Ok(text)
    }
}

/// The last byte of a text stands so many times.
fn put_again(text: &mut Vec<u8>, times: u64) -> Result<(), NoMemory> {
    if let Some(byte) = text.pop() {
        for _ in 0..times {
            text.push(byte)?;
        }
    }
    Ok(())
}
