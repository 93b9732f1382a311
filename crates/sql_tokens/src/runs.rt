//! Counts the bytes of one class at the front of a text.
ghost use Rattle.std.specs.Prelude.{◌≡◌, ◌≤◌, length};
ghost use Rattle.std.specs.List.{prefix_len};
ghost use Rattle.sql_tokens.specs.Pieces.{is_in};

/// A class of bytes: the bytes of words, digits, all bytes except LF, or all bytes except control characters.
#[derive(Clone, Copy, Debug)]
pub enum ByteClass {
    Word,
    Digits,
    NotLineFeed,
    NotControl,
}

impl ByteClass {
    fn has(self, byte: u8) -> bool
        ensures { result ≡ is_in self byte }
    {
        match self {
            ByteClass::Word => byte.is_ascii_alphanumeric() || byte == b'_',
            ByteClass::Digits => byte.is_ascii_digit(),
            ByteClass::NotLineFeed => byte != b'\n',
            ByteClass::NotControl => byte >= b' ',
        }
    }

    /// The number of bytes of this class at the front.
    pub fn len(self, bytes: &[u8]) -> usize
        ensures value { result ≡ prefix_len (is_in self) bytes.now }
        ensures within { result ≤ length bytes.now }
    {
        let mut n = 0;
        'all: while n < bytes.len() && self.has(bytes[n]) {
            n += 1;
        }
        n
    }
}
