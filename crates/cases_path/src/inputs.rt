// Cases as text: a line for each, with its name, a colon and the input. The input is written in pieces of three
// characters. A space and two digits are a byte in hex. A letter and two digits are so many routers: R ones that lower
// nothing, S silent ones, B both in turn.
ghost use Rattle.std.specs.Prelude.{◌<◌};

use arrayvec::ArrayVec;
use std::io;

// Bytes for the longest input here.
const ROOM: usize = 400;

const ROUTER: [u8; 6] = *b"\x02\x0f\x00\x00\x00\x00";

const SILENT: [u8; 1] = *b"\x03";

const BOTH: [u8; 7] = *b"\x02\x0f\x00\x00\x00\x00\x03";

fn digit(b: u8) -> u8
    ensures { result < 16 }
{
    match b {
        b'0'..=b'9' => b - b'0',
        b'a'..=b'f' => b - b'a' + 10,
        _ => 0,
    }
}

// Adds the bytes of a piece as often as it tells. What has no room is left out.
fn add(input: &mut ArrayVec<u8, ROOM>, letter: u8, high: u8, low: u8) {
    let byte = [digit(high) * 16 + digit(low)];
    let times = digit(high) * 10 + digit(low);
    let (part, times): (&[u8], u8) = match letter {
        b'R' => (&ROUTER, times),
        b'S' => (&SILENT, times),
        b'B' => (&BOTH, times),
        _ => (&byte, 1),
    };
    for _ in 0..times {
        let _ = input.try_extend_from_slice(part);
    }
}

// The bytes of an input.
fn bytes_of(pieces: &str) -> ArrayVec<u8, ROOM> {
    let mut input = ArrayVec::new();
    for piece in pieces.as_bytes().chunks_exact(3) {
        if let [letter, high, low] = piece {
            add(&mut input, *letter, *high, *low);
        }
    }
    input
}

// Prints the name of each case, and the line that the function gives for its input.
pub fn run(rt: &impl Print, cases: &str) -> io::Result<()> {
    for case in cases.lines() {
        if let Some((name, pieces)) = case.split_once(':') {
            print!(rt; "{name}: {}", plan::line(&bytes_of(pieces)))?;
        }
    }
    Ok(())
}
