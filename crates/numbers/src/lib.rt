//! Numbers in files: groups of seven bits, lowest first, in shortest form.
#![tactic(auto)]

ghost use Rattle.std.specs.Prelude.{◌≡◌, ◌+◌, ◌<◌, ◌≤◌, length, IfOk};
ghost use Rattle.numbers.specs.Number.{encode, unlawful};
ghost use Rattle.numbers.specs.Calls.{number_at, Wrote};
ghost use Rattle.numbers.specs.Laws.{ReadsBack, OnlySo, BytesTellApart, WritingFrames};

use refusal::ByteFault;

/// A byte from here on says that another follows.
const MORE: u8 = 128;

/// The most bytes that a number has.
const MOST_BYTES: usize = 5;

/// The most that the last of so many bytes can be.
const LAST_MOST: u8 = 15;

/// The number at place `start` of the file, and the place behind it.
pub fn read_number(file: &[u8], start: usize) -> Result<(u32, usize), ByteFault>
    ensures moves { IfOk result (λ x. (start < x.1) × (x.1 ≤ length file.now)) }
    ensures told { result ≡ number_at file.now start }
{
    let ends = ByteFault::Ends { length: file.len() };
    if start > file.len() {
        return Err(ends);
    }
    let mut value: u32 = 0;
    let mut scale: u32 = 1;
    for (i, byte) in file[start..].iter().take(MOST_BYTES).enumerate() {
        if misplaced(i, *byte) {
            return Err(ByteFault::NotShortest { at: start });
        }
        if *byte < MORE {
            return Ok((value + u32::from(*byte) * scale, start + i + 1));
        }
        value += u32::from(*byte - MORE) * scale;
        scale *= 128;
    }
    Err(ends)
}

/// Whether no lawful number has the byte at its place `i`.
fn misplaced(i: usize, byte: u8) -> bool
    ensures { result ≡ unlawful i byte }
{
    (i > 0 && byte == 0) || (i == MOST_BYTES - 1 && byte > LAST_MOST)
}

/// How many bytes a number has.
pub fn number_size(v: u32) -> usize
    ensures long { result ≡ length (encode v) }
    ensures few { result ≤ 5 }
{
    if v < 0x80 {
        1
    } else if v < 0x4000 {
        2
    } else if v < 0x20_0000 {
        3
    } else if v < 0x1000_0000 {
        4
    } else {
        5
    }
}

/// Writes the bytes of `v` from place `at` of the output on, one group after the other; or changes no byte where they do
/// not fit whole. Answers how many bytes they are.
pub fn write_number(out: &mut [u8], at: usize, v: u32) -> usize
    ensures wrote { Wrote out.old at (encode v) out.new }
    ensures size { result ≡ length (encode v) }
    ensures few { result ≤ 5 }
{
    let size = number_size(v);
    if at > out.len() || out.len() - at < size {
        return size;
    }
    let mut rest = v;
    for byte in out[at..at + size - 1].iter_mut() {
        *byte = (rest % 128) as u8 + MORE;
        rest /= 128;
    }
    out[at + size - 1] = rest as u8;
    size
}

/// A number reads back from its bytes, only its bytes read as it, no number's bytes begin another's, and writing changes no
/// other byte.
pub fn number_laws()
    ensures back { ReadsBack }
    ensures only { OnlySo }
    ensures apart { BytesTellApart }
    ensures frames { WritingFrames }
{}
