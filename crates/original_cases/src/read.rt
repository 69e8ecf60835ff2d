// Reads cases, 20 decimal numbers to a line, and hands each on.
ghost use Rattle.std.specs.Prelude.{◌≤◌, IfOk, length};

use crate::show;
use std::io;
use std::io::Read;

// What has come in of a case: whole numbers, and the digits of the next.
#[derive(Clone, Copy)]
struct Coming {
    case: [u32; 20],
    whole: usize,
    digits: u32,
}

impl Coming {
    const NOTHING: Coming = Coming {
        case: [0; 20],
        whole: 0,
        digits: 0,
    };

    // 32 bits of it: no number of the list has more.
    fn add_digit(&mut self, byte: u8) {
        let digit = byte as u32 % 16;
        self.digits = self.digits.wrapping_mul(10).wrapping_add(digit);
    }

    // A line has twenty numbers.
    fn end_number(&mut self) {
        if let Some(number) = self.case.get_mut(self.whole) {
            *number = self.digits;
            self.whole += 1;
            self.digits = 0;
        }
    }
}

fn add_byte(rt: &impl Print, coming: &mut Coming, byte: u8) -> io::Result<()> {
    if byte >= b'0' {
        coming.add_digit(byte);
        return Ok(());
    }
    coming.end_number();
    if byte == b'\n' {
        show(rt, coming.case)?;
        coming.whole = 0;
        coming.digits = 0;
    }
    Ok(())
}

// As much as there is, up to all of `bytes`: a read may bring less, but a byte at least until the input ends.
fn read_full(input: &mut impl Read, bytes: &mut [u8]) -> io::Result<usize>
    ensures { IfOk result (λ n. n ≤ length bytes.old) }
{
    let mut read = 0;
    while read < bytes.len() {
        let more = input.read(&mut bytes[read..])?;
        if more == 0 {
            break;
        }
        read += more;
    }
    Ok(read)
}

// A list of up to 400 MB: some bound has to be there, since nothing says that input ends.
pub fn each_case(rt: &(impl Print + Input)) -> io::Result<()> {
    let mut input = rt.reader();
    let mut coming = Coming::NOTHING;
    let mut bytes = [0u8; 4096];
    for _ in 0..100000 {
        let read = read_full(&mut input, &mut bytes)?;
        if read == 0 {
            break;
        }
        for &byte in &bytes[..read] {
            add_byte(rt, &mut coming, byte)?;
        }
    }
    Ok(())
}
