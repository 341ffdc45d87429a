#![tactic(auto)]

// Reads a plan of duty from standard input, executes it line by line, and prints each line's outcome.
use roster::grid::Grid;
use std::io;
use std::io::{Read, Write};
use text::answer::{MAX_TEXT, OUTPUT_PER_BYTE, answer};

// one byte more than the longest text, so that a longer one is seen to be longer
const MAX_INPUT: u64 = MAX_TEXT as u64 + 1;

fn main(rt: HostRuntime) -> io::Result<()> {
    let heap = rt.alloc();
    let mut input = Vec::new(heap);
    rt.stdin().take(MAX_INPUT).read_to_end(&mut input)?;
    let mut output = vec![in heap; 0u8; MAX_TEXT * OUTPUT_PER_BYTE]?;
    match answer(Grid::new(), &input, &mut output) {
        Ok(written) => rt.stdout().write_all(&output[..written]),
        Err(refusal) => println!(rt; "{refusal}"),
    }
}
