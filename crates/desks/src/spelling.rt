// Texts in fixed memory, as they are made for a call to read or put, or as a call must write them.
use drawn::list::front;
use std::fmt;

// Bytes one behind another. There is room for more than any text here has; what finds none is left out.
#[derive(Clone, Copy)]
pub(crate) struct Spelling {
    bytes: [u8; 2048],
    len: usize,
}

impl Spelling {
    pub(crate) fn new() -> Spelling {
        Spelling {
            bytes: [0; 2048],
            len: 0,
        }
    }

    pub(crate) fn push(&mut self, byte: u8) {
        let n = self.len;
        if n < 2048 {
            self.bytes[n] = byte;
            self.len = n + 1;
        }
    }

    pub(crate) fn extend(&mut self, bytes: &[u8]) {
        for byte in bytes {
            self.push(*byte);
        }
    }

    pub(crate) fn as_slice(&self) -> &[u8] {
        front(&self.bytes, self.len)
    }
}

impl fmt::Write for Spelling {
    fn write_str(&mut self, words: &str) -> fmt::Result {
        self.extend(words.as_bytes());
        Ok(())
    }
}
