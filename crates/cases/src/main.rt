//! Runs the jobs that are listed on standard input, a line each in hexadecimal, and prints what each comes to. Then it
//! damages each of them in many ways and counts what the damaged files come to; and it prints what writing refuses.
#![tactic(auto)]

mod refusals;

use crate::refusals::{print_jobs, print_placements};
use jobs::answer;
use reading::{AnyJob, AnyPlacement, Reader, read_job, read_placement};
use refusal::SheetFault;
use std::alloc::{AllocError, Global};
use writing::{write_job, write_placement};

/// Room for every file.
const ROOM: usize = 4096;

/// How many things a file can come to: a placement, counted at 0, or a refusal, counted at its number, 1 to 16.
const NUMBERS: usize = 17;

/// What files came to.
#[derive(Clone, Copy, Default)]
struct Tally {
    /// How many placements there were, and how many refusals of each number.
    came: [u32; NUMBERS],
    /// Answers that are neither one placement file nor the five numbers of one refusal.
    odd: u32,
    /// Jobs and placements that were read and did not write back to the same bytes.
    changed: u32,
}

/// What a hexadecimal digit stands for.
fn digit(byte: u8) -> Option<u8> {
    match byte {
        b'0'..=b'9' => Some(byte - b'0'),
        b'A'..=b'F' => Some(byte - b'A' + 10),
        _ => None,
    }
}

/// The bytes that a line of hexadecimal digits stands for; anything else between them is passed over.
fn bytes_of(heap: Global, line: &str) -> Result<Vec<u8>, AllocError> {
    let digits: Vec<u8> = line.bytes().filter_map(digit).collect(heap)?;
    digits
        .chunks_exact(2)
        .map(|pair| pair.iter().fold(0, |byte, digit| byte << 4 | digit))
        .collect(heap)
}

fn print_bytes(rt: &HostRuntime, bytes: &[u8]) -> anyhow::Result<()> {
    for byte in bytes {
        print!(rt; " {byte:02X}")?;
    }
    Ok(())
}

/// Whether the bytes are the five numbers of a refusal and nothing more; then the refusal's number.
fn refusal_number(bytes: &[u8]) -> Option<usize> {
    let mut reader = Reader::new(bytes);
    let number = reader.number().ok()?;
    for _ in 0..4 {
        let _ = reader.number().ok()?;
    }
    reader.end().ok()?;
    (number > 0).then_some(number as usize)
}

/// Whether a writing into the room has left the file there.
fn wrote(written: Result<usize, SheetFault>, room: &[u8], file: &[u8]) -> bool {
    written.is_ok_and(|size| room.get(..size) == Some(file))
}

/// Whether a placement file reads, and then whether it writes back to the same bytes.
fn placement_stands(heap: Global, file: &[u8]) -> Option<bool> {
    let mut room = [0; ROOM];
    let written = match read_placement(heap, file).ok()? {
        AnyPlacement::One(placement) => write_placement(&placement, &mut room),
        AnyPlacement::Three(placement) => write_placement(&placement, &mut room),
    };
    Some(wrote(written, &room, file))
}

/// Whether a job file, where it reads, writes back to the same bytes.
fn job_stands(heap: Global, file: &[u8]) -> bool {
    let mut room = [0; ROOM];
    let written = match read_job(heap, file) {
        Ok(AnyJob::One(job)) => write_job(&job, &mut room),
        Ok(AnyJob::Three(job)) => write_job(&job, &mut room),
        Err(_) => return true,
    };
    wrote(written, &room, file)
}

impl Tally {
    /// Counts what one file comes to.
    fn count(&mut self, heap: Global, file: &[u8]) -> Result<(), AllocError> {
        if !job_stands(heap, file) {
            self.changed = self.changed.wrapping_add(1);
        }
        self.count_answer(heap, &answer(heap, file)?);
        Ok(())
    }

    /// Counts an answer.
    fn count_answer(&mut self, heap: Global, told: &[u8]) {
        let stands = placement_stands(heap, told);
        if stands == Some(false) {
            self.changed = self.changed.wrapping_add(1);
        }
        let number = stands.map_or_else(|| refusal_number(told), |_| Some(0));
        match number {
            Some(number) if number < NUMBERS => {
                self.came[number] = self.came[number].wrapping_add(1);
            }
            _ => self.odd = self.odd.wrapping_add(1),
        }
    }

    /// Counts what a file comes to that is cut at each place.
    fn cut(&mut self, heap: Global, file: &[u8]) -> Result<(), AllocError> {
        // no iterator of std goes over the fronts of a slice
        for size in 0..file.len() {
            self.count(heap, &file[..size])?;
        }
        Ok(())
    }

    /// Counts what a file comes to with each byte changed to each other.
    fn change(&mut self, heap: Global, file: &[u8]) -> Result<(), AllocError> {
        let mut changed = Vec::from_slice(heap, file)?;
        for (place, was) in file.iter().enumerate() {
            for byte in (0..=u8::MAX).filter(|byte| byte != was) {
                changed[place] = byte;
                self.count(heap, &changed)?;
            }
            changed[place] = *was;
        }
        Ok(())
    }

    /// Counts what a file comes to with one byte more at its end.
    fn lengthen(&mut self, heap: Global, file: &[u8]) -> Result<(), AllocError> {
        for byte in 0..=u8::MAX {
            let mut longer = Vec::from_slice(heap, file)?;
            longer.push(byte)?;
            self.count(heap, &longer)?;
        }
        Ok(())
    }

    /// Prints what was counted.
    fn print(&self, rt: &HostRuntime) -> anyhow::Result<()> {
        let files = self
            .came
            .iter()
            .fold(self.odd, |files, came| files.wrapping_add(*came));
        println!(rt; "# {files} damaged files")?;
        for (number, came) in self.came.iter().enumerate() {
            if number == 0 {
                println!(rt; "placed: {came}")?;
            } else {
                println!(rt; "refused with {number}: {came}")?;
            }
        }
        let Tally { odd, changed, .. } = *self;
        println!(rt; "neither: {odd}")?;
        println!(rt; "not written back to the same bytes: {changed}")?;
        Ok(())
    }
}

fn main(rt: HostRuntime) -> anyhow::Result<()> {
    let heap = rt.alloc();
    let mut tally = Tally::default();
    for line in rt.lines(heap) {
        let line = line?;
        let text = line.as_str();
        if text.starts_with('#') {
            println!(rt; "{text}")?;
            continue;
        }
        let file = bytes_of(heap, text)?;
        print_bytes(&rt, &file)?;
        print!(rt; " =")?;
        print_bytes(&rt, &answer(heap, &file)?)?;
        println!(rt; "")?;
        tally.cut(heap, &file)?;
        tally.change(heap, &file)?;
        tally.lengthen(heap, &file)?;
    }
    tally.print(&rt)?;
    print_jobs(&rt)?;
    print_placements(&rt)
}
