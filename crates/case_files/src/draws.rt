// Raw commands that are drawn by chance, the same for the same seed.
use crate::fault::LineFault;
use std::alloc::Global;

/// Numbers that are drawn by chance, the same for the same seed.
#[derive(Drop)]
pub struct Draws {
    x: u64,
}

impl Draws {
    pub fn new(seed: u64) -> Draws {
        Draws { x: seed }
    }

    /// The next number below `n`.
    pub fn below(&mut self, n: u64) -> u64 {
        self.x = self.x.wrapping_mul(1_103_515_245).wrapping_add(12_345) % 2_147_483_648;
        (self.x / 65_536).checked_rem(n).unwrap_or(0)
    }
}

// Puts one command of number 0 or 1 on 4,096 bytes of data; most of them can be done.
fn push_command(alloc: Global, out: &mut Vec<u8>, draws: &mut Draws) -> Result<(), LineFault> {
    let number = draws.below(2);
    let addr = Some(draws.below(4096));
    let pos = Some(draws.below(5));
    let byte = 10u64.wrapping_add(draws.below(90));
    // The digits of three bytes, of which the second is 61.
    let three = Some(byte.wrapping_mul(10_001).wrapping_add(6100));
    let (word, numbers) = match draws.below(12) {
        0..=3 => ("logwrite", [addr, three, None]),
        4 => ("commit", [None, None, None]),
        5 => ("abort", [None, None, None]),
        6 => ("nested", [pos, None, None]),
        7 => ("partial", [pos, None, None]),
        8 => ("atomic", [addr, Some(byte), None]),
        9 => ("editlog", [pos, Some(1), Some(byte)]),
        10 => ("readlog", [pos, None, None]),
        _ => ("read", [addr, Some(3), None]),
    };
    out.extend_from_slice(format!(in alloc; "{number} {word}")?.as_bytes())?;
    push_numbers(alloc, out, &numbers)
}

// Puts numbers, each behind a space, and the end of the line.
fn push_numbers(
    alloc: Global,
    out: &mut Vec<u8>,
    numbers: &[Option<u64>],
) -> Result<(), LineFault> {
    for number in numbers.iter().flatten() {
        out.extend_from_slice(format!(in alloc; " {number}")?.as_bytes())?;
    }
    out.push(b'\n')?;
    Ok(())
}

/// Puts so many lines behind what is there.
pub fn push_drawn(
    alloc: Global,
    out: &mut Vec<u8>,
    count: u64,
    seed: u64,
) -> Result<(), LineFault> {
    let mut draws = Draws::new(seed);
    for _ in 0..count {
        push_command(alloc, out, &mut draws)?;
    }
    Ok(())
}
