// cone: judges the sheet on standard input, and prints the verdict on one line.
#![tactic(auto)]

ghost use Rattle.std.specs.Prelude.{◌≤◌, length, IfOk};

use generator::record::Generator;
use sheets::judge_sheet;
use std::io;
use std::io::Read;

// The verdict on this many bytes of a text is the verdict on the whole of it: a lawful sheet has fewer than 281.
const ENOUGH: usize = 512;

// Fills the buffer from the input, up to its end or the input's. Returns how many bytes came.
// A loop over a buffer and its length, not `read_to_end` into a `Vec`: with a heap the program would trust the C library's allocator
// too, and could run out of memory.
fn fill(input: &mut impl Read, buf: &mut [u8]) -> io::Result<usize>
    ensures { IfOk result (λ len. len ≤ length buf.old) }
{
    let mut len = 0;
    while len < buf.len() {
        let count = input.read(&mut buf[len..])?;
        if count == 0 {
            break;
        }
        len += count;
    }
    Ok(len)
}

fn run(rt: &HostRuntime) -> anyhow::Result<()> {
    let mut buf = [0; ENOUGH];
    let len = fill(&mut rt.stdin(), &mut buf)?;
    let mut generator = Generator::fresh();
    match judge_sheet(&buf[0..len], &mut generator) {
        Ok(()) => println!(rt; "accepted")?,
        Err(refusal) => println!(rt; "{refusal}")?,
    }
    Ok(())
}

fn main(rt: HostRuntime) -> anyhow::Result<()> {
    run(&rt)
}
