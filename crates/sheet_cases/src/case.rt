// A sheet to run, and how it is read.
use std::alloc::{AllocError, Global};

// A sheet, and how many bytes the output has.
#[derive(Debug, PartialEq, Eq, Drop)]
pub struct Case {
    pub sheet: Vec<u8>,
    pub room: usize,
}

impl Case {
    // The case of a line: a sheet in hexadecimal, or `N:` and a sheet. N is below 65,536.
    pub fn parse(heap: Global, text: &str) -> Result<Option<Case>, AllocError> {
        let (room, digits) = match text.split_once(':') {
            None => (24576, text),
            Some((number, digits)) => {
                let Ok(room) = number.parse::<u16>() else {
                    return Ok(None);
                };
                (usize::from(room), digits)
            }
        };
        let digits = digits.trim();
        // Looked at before memory is taken for the bytes: a line that is no hexadecimal needs none.
        if !digits.bytes().all(|digit| digit.is_ascii_hexdigit()) {
            return Ok(None);
        }
        let mut sheet = vec![in heap; 0; digits.len() / 2]?;
        let decoded = hex::decode_to_slice(digits, sheet.as_mut_slice());
        Ok(decoded.is_ok().then_some(Case { sheet, room }))
    }
}
