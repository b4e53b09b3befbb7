// Bytes of a file, for people.

use std::fmt;

/// How many bytes of a line or of a word are shown.
const MOST_SHOWN: usize = 120;

/// Bytes of a file, the first 120 of them. Those that are no letter or sign of ASCII show as `?`, and behind those that are shown stands `..` where
/// there are more.
#[derive(Clone, Copy, Debug)]
pub struct Letters<'a>(pub &'a [u8]);

/// A byte as it is shown.
fn letter(byte: u8) -> char {
    if (32..127).contains(&byte) {
        char::from(byte)
    } else {
        '?'
    }
}

impl fmt::Display for Letters<'_> {
    fn fmt<W: fmt::Write>(&self, f: &mut fmt::Formatter<W>) -> fmt::Result {
        for byte in &self.0[..self.0.len().min(MOST_SHOWN)] {
            f.write_char(letter(*byte))?;
        }
        if self.0.len() > MOST_SHOWN {
            f.write_str("..")?;
        }
        Ok(())
    }
}
