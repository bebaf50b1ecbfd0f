//! The reader: the bytes of a file that somebody else holds, and how far they have been read.
ghost use Rattle.std.specs.Prelude.{◌≡◌};
ghost use Rattle.formats.specs.Reading.{ended};
ghost use Rattle.reading.specs.Calls.{TookNumber};

use numbers::read_number;
use refusal::{ByteFault, FieldFault};

/// A file's bytes, lent and never copied, and the place of the next field.
#[derive(Clone, Copy)]
pub struct Reader<'a> {
    pub(crate) bytes: &'a [u8],
    pub(crate) at: usize,
}

impl<'a> Reader<'a> {
    /// A reader at the first byte of a file.
    pub fn new(bytes: &'a [u8]) -> Reader<'a>
        ensures bytes { result.bytes.now ≡ bytes.now }
        ensures start { result.at ≡ 0 }
    {
        Reader { bytes, at: 0 }
    }

    /// The next number; the reader is then behind it. Where there is none, it stays where it is.
    pub fn number(&mut self) -> Result<u32, ByteFault>
        ensures { TookNumber self.old result self.new }
    {
        let (value, next) = read_number(self.bytes, self.at)?;
        self.at = next;
        Ok(value)
    }

    /// Refuses bytes that are left.
    pub fn end(&self) -> Result<(), FieldFault>
        ensures { result ≡ ended self.now.bytes.now self.now.at }
    {
        if self.at == self.bytes.len() {
            Ok(())
        } else {
            Err(FieldFault::TrailingBytes { at: self.at })
        }
    }
}
