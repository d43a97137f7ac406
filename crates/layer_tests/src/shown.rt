// How octets and blocks are written.
ghost use Rattle.std.specs.Prelude.{◌≤◌, ◌*◌, ◌+◌, length};

use std::fmt;

// Octets in hexadecimal, two digits each.
#[derive(Clone, Copy)]
pub(crate) struct Hex<'a>(pub &'a [u8]);

impl fmt::Display for Hex<'_> {
    fn fmt<W: fmt::Write>(&self, f: &mut fmt::Formatter<W>) -> fmt::Result {
        for octet in self.0 {
            write!(f, "{octet:02x}")?;
        }
        Ok(())
    }
}

// The numbers of blocks: for each run of blocks that are the same how many there are, and the numbers other than 0 with their positions.
#[derive(Clone, Copy)]
pub(crate) struct Blocks<'a>(pub &'a [i32]);

// Returns how many numbers the first blocks have that are the same.
fn run_of(numbers: &[i32]) -> usize
    requires { 64 ≤ length numbers.now }
    ensures some { 64 ≤ result }
    ensures within { result ≤ length numbers.now }
{
    for block in 1..numbers.len() / 64 {
        if numbers[64 * block..64 * block + 64] != numbers[..64] {
            return 64 * block;
        }
    }
    numbers.len() / 64 * 64
}

impl fmt::Display for Blocks<'_> {
    fn fmt<W: fmt::Write>(&self, f: &mut fmt::Formatter<W>) -> fmt::Result {
        let mut numbers = self.0;
        for _ in 0..self.0.len() / 64 {
            if numbers.len() < 64 {
                break;
            }
            let run = run_of(numbers);
            let count = run / 64;
            write!(f, " {count}*")?;
            for position in 0..64 {
                let number = numbers[position];
                if number != 0 {
                    write!(f, " {position}={number}")?;
                }
            }
            let Some(rest) = numbers.get(run..) else {
                break;
            };
            numbers = rest;
        }
        Ok(())
    }
}
