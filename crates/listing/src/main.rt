// Prints what each selector of its input lists. A line is `rows columns selector`.
#![tactic(auto)]

mod print;
mod request;
mod selector;

use crate::request::Request;
use std::io;
use std::io::{BufWriter, Read, Write};

// What is read of the input.
const MAX_INPUT: u64 = 65536;

fn print_line<W: Write>(out: &mut W, line: &str) -> io::Result<()> {
    match line.parse::<Request>() {
        Ok(request) => print::entities(out, request),
        Err(unknown) => writeln!(out, "{unknown}"),
    }
}

fn main(rt: HostRuntime) -> anyhow::Result<()> {
    let mut text = String::new(rt.alloc());
    rt.stdin().take(MAX_INPUT).read_to_string(&mut text)?;
    let mut out = BufWriter::new(rt.alloc(), rt.stdout())?;
    for line in text.lines() {
        print_line(&mut out, line)?;
    }
    out.flush()?;
    Ok(())
}
