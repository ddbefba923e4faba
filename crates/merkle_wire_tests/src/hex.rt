//! Bytes from their hex digits.
use std::alloc::{AllocError, Global};

/// The bytes with these hex digits, two a byte. Blanks are passed over.
pub fn bytes_of(alloc: Global, text: &str) -> Result<Vec<u8>, AllocError> {
    let mut bytes = Vec::new(alloc);
    let mut high: Option<u8> = None;
    for digit in text.as_bytes() {
        if *digit == b' ' {
            continue;
        }
        let value = value_of(*digit);
        match high {
            None => high = Some(value),
            Some(first) => {
                bytes.push(first.wrapping_mul(16).wrapping_add(value))?;
                high = None;
            }
        }
    }
    Ok(bytes)
}

/// The value of a hex digit.
fn value_of(digit: u8) -> u8 {
    if digit < b'a' {
        digit.wrapping_sub(b'0')
    } else {
        digit.wrapping_sub(b'a').wrapping_add(10)
    }
}
