// Judges each string on standard input: 1 where it is UTF-8, else 0, and a newline at the end. The input has the number
// of strings, then for each its length and its bytes; both numbers take four bytes, the lowest first.
#![tactic(auto)]

use std::io;
use std::io::Read;

// The next number; bytes that the input no longer has are 0. The program crates/trials has this function too: each
// program reads a file of its own form, and only by chance are the numbers of both alike.
fn number(input: &mut impl Read) -> io::Result<usize> {
    let mut bytes = [0u8; 4];
    input::filled(input, &mut bytes)?;
    Ok(u32::from_le_bytes(bytes) as usize)
}

// The next string, of so many bytes, at the front of buf; None where buf has no room for it or the input ends within
// it.
fn string<'a>(
    input: &mut impl Read,
    buf: &'a mut [u8],
    size: usize,
) -> io::Result<Option<&'a [u8]>> {
    let Some(room) = buf.get_mut(..size) else {
        return Ok(None);
    };
    let came = input::filled(input, room)?;
    Ok(if came == size { Some(room) } else { None })
}

// The digit of a string; a question mark where there is none.
fn digit(string: Option<&[u8]>) -> u8 {
    match string {
        Some(bytes) if text::utf8(bytes) => b'1',
        Some(_) => b'0',
        None => b'?',
    }
}

// Judges as many strings as there are places for digits, and writes the digits.
fn judged(rt: &impl Print, input: &mut impl Read, digits: &mut [u8]) -> io::Result<()> {
    let mut buf = [0u8; 1024];
    for place in digits.iter_mut() {
        let size = number(input)?;
        *place = digit(string(input, &mut buf, size)?);
    }
    rt.write_all(digits)
}

// All strings, 4096 at a time and then the rest.
fn run(rt: &impl Print, input: &mut impl Read) -> io::Result<()> {
    let mut digits = [0u8; 4096];
    let count = number(input)?;
    for _ in 0..count / 4096 {
        judged(rt, input, &mut digits)?;
    }
    judged(rt, input, &mut digits[..count % 4096])?;
    rt.write_all(b"\n")
}

fn main(rt: HostRuntime) -> io::Result<()> {
    run(&rt, &mut rt.reader())
}
