//! Writing whole files, whatever they hold.
ghost use Rattle.std.specs.Prelude.{◌≡◌, ℕ, List, length, Ok};
ghost use Rattle.numbers.specs.Number.{encode_all};
ghost use Rattle.formats.specs.Writing.{Written};
ghost use Rattle.writing.specs.Calls.{Puts};

use crate::pen::Pen;
use refusal::{FieldFault, SheetFault};

/// What has a file.
pub(crate) trait Filed {
    // the numbers of the file
    ghost numbers: { Self → List ℕ };

    /// Puts the whole file.
    fn put(&self, pen: &mut Pen)
        requires { pen.old.at ≡ 0 }
        ensures { Puts pen.old (numbers self.now) pen.new };
}

/// How many bytes the file has.
pub(crate) fn size_of<F: Filed>(file: &F) -> usize
    ensures { result ≡ length (encode_all (F.numbers file.now)) }
{
    let mut pen = Pen::new(&mut []);
    file.put(&mut pen);
    pen.size()
}

/// Writes a file into the output and answers how many bytes it has; or refuses, and changes no byte.
pub(crate) fn write_whole<F: Filed>(file: &F, out: &mut [u8]) -> Result<usize, SheetFault>
    ensures { Written (Ok tt) (encode_all (F.numbers file.now)) out.old out.new result }
{
    let needed = size_of(file);
    if out.len() < needed {
        return Err(SheetFault::Field(FieldFault::OutputTooShort { needed }));
    }
    let mut pen = Pen::new(out);
    file.put(&mut pen);
    Ok(needed)
}
