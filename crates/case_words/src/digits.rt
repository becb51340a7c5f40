//! Bytes as two digits each.

use dso_base::NoMemory;
use std::alloc::Global;

/// The bytes that the digits of a text are. What is no digit is left out.
pub fn bytes_of(alloc: Global, text: &str) -> Result<Vec<u8>, NoMemory> {
    let mut bytes = Vec::new(alloc);
    let mut first = None;
    for letter in text.chars() {
        let Some(digit) = digit_of(letter) else {
            continue;
        };
        first = match first {
            None => Some(digit),
            Some(high) => {
                bytes.push(byte_of(high, digit))?;
                None
            }
        };
    }
    Ok(bytes)
}

/// The value of a digit, None where the letter is none.
fn digit_of(letter: char) -> Option<u8> {
    u8::try_from(letter.to_digit(16)?).ok()
}

/// The byte of two digits.
fn byte_of(high: u8, low: u8) -> u8 {
    (high & 15) << 4 | low & 15
}

/// The digits of bytes.
pub fn digits_of(alloc: Global, bytes: &[u8]) -> Result<String, NoMemory> {
    let mut text = String::new(alloc);
    for byte in bytes {
        text = format!(in alloc; "{text}{byte:02x}")?;
    }
    Ok(text)
}
