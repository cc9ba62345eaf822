//! Fields of a refusal, each on a line or in a JSON object.

use std::alloc::{AllocError, Global};

/// Fields of a refusal, as they are written.
#[derive(Drop)]
pub(crate) struct Fields {
    alloc: Global,
    json: bool,
    /// Whether a number was written behind `at`.
    at: bool,
    pub text: String,
}

impl Fields {
    pub fn new(alloc: Global, json: bool) -> Fields {
        Fields {
            alloc,
            json,
            at: false,
            text: String::new(alloc),
        }
    }

    /// Writes a text that has no quotation mark.
    pub fn word(&mut self, name: &str, text: &str) -> Result<(), AllocError> {
        let field = if self.json {
            format!(in self.alloc; ", \"{name}\": \"{text}\"")?
        } else {
            format!(in self.alloc; "\n{name}: {text}")?
        };
        self.text.push_str(field.as_str())
    }

    /// Writes a number, if it is known. Numbers stand on one line.
    pub fn number(&mut self, name: &str, number: Option<u128>) -> Result<(), AllocError> {
        let Some(number) = number else {
            return Ok(());
        };
        let field = if self.json {
            format!(in self.alloc; ", \"{name}\": {number}")?
        } else {
            let before = if self.at { "," } else { "\nat:" };
            format!(in self.alloc; "{before} {name} {number}")?
        };
        self.at = true;
        self.text.push_str(field.as_str())
    }

    /// Writes the first bytes, if there are any, and the line that wrote them.
    pub fn bytes(&mut self, name: &str, bytes: &[u8], line: Option<u64>) -> Result<(), AllocError> {
        if bytes.is_empty() {
            return Ok(());
        }
        let digits = digits_of(self.alloc, bytes)?;
        let digits = digits.as_str();
        match line {
            Some(line) if self.json => {
                self.word(name, digits)?;
                let field = format!(in self.alloc; ", \"{name}_line\": {line}")?;
                self.text.push_str(field.as_str())
            }
            Some(line) => {
                let told = format!(in self.alloc; "{digits}, of line {line}")?;
                self.word(name, told.as_str())
            }
            None => self.word(name, digits),
        }
    }
}

/// How many bytes are shown, at most.
const SHOWN: usize = 16;

/// The first bytes in hexadecimal digits.
fn digits_of(alloc: Global, bytes: &[u8]) -> Result<String, AllocError> {
    let mut digits = String::new(alloc);
    for byte in bytes.iter().take(SHOWN) {
        let (high, low) = (*byte / 16, *byte % 16);
        let two = format!(in alloc; "{high:x}{low:x}")?;
        digits.push_str(two.as_str())?;
    }
    Ok(digits)
}
