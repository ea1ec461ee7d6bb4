// What a path would answer: reads the records of one run from standard input, and writes one line to standard output.
// All that lies between is `plan::line`.
#![tactic(auto)]

ghost use Rattle.std.specs.Prelude.{◌≤◌, length, IfOk};

use std::io;
use std::io::Read;

// Reads until the space is full or the input ends, and answers how many bytes it put in front. The library's own calls
// that read to the end take memory from the heap, so the loop is written out.
fn read_full(rt: &impl Input, space: &mut [u8]) -> io::Result<usize>
    ensures { IfOk result (λ n. n ≤ length space.new) }
{
    let mut reader = rt.reader();
    let mut done = 0;
    while done < space.len() {
        let n = reader.read(&mut space[done..])?;
        if n == 0 {
            break;
        }
        done += n;
    }
    Ok(done)
}

// Reads as many bytes as take part in a line, or all there are, and writes their line.
fn answer(rt: &(impl Input + Print), space: &mut [u8]) -> io::Result<()>
    requires { 395 ≤ length space.old }
{
    let room = plan::enough();
    let n = read_full(rt, &mut space[..room])?;
    print!(rt; "{}", plan::line(&space[..n]))
}

fn main(rt: HostRuntime) -> io::Result<()> {
    let mut space = [0; 512];
    answer(&rt, &mut space)
}
