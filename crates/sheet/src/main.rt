// Reads lines `rows columns choice` and prints the picture that each asks for, or why it is refused.
#![tactic(auto)]

use picture::respond::respond;
use picture::text::Lines;
use std::io;
use std::io::{BufWriter, Read, Write};

// What is read of the input.
const MAX_INPUT: u64 = 4096;
// Room for the largest picture: 32 rows make 65 lines, and 32 columns 66 characters with the line end.
const PAGE: usize = 65 * 66;

fn print_answer<W: Write>(out: &mut W, line: &[u8], page: &mut [u8]) -> io::Result<()> {
    match respond(line, page) {
        Ok(n) => out.write_all(&page[..n]),
        Err(refusal) => writeln!(out, "{refusal}"),
    }
}

fn print_answers<W: Write>(out: &mut W, text: &[u8], page: &mut [u8]) -> io::Result<()> {
    for line in Lines::new(text) {
        print_answer(out, line, page)?;
    }
    out.flush()
}

fn main(rt: HostRuntime) -> anyhow::Result<()> {
    let mut input: Vec<u8> = Vec::new(rt.alloc());
    rt.stdin().take(MAX_INPUT).read_to_end(&mut input)?;
    let mut out = BufWriter::new(rt.alloc(), rt.stdout())?;
    let mut page = [0u8; PAGE];
    print_answers(&mut out, &input, &mut page)?;
    Ok(())
}
