// The program that is asked why: a pixel's column and row, four bytes each, and then a sheet on standard input; the reason, a line, on standard output.
// Document 02, (v); the work is done in `program`.
// `chart` has the same form: one call, with buffers of other sizes.
#![tactic(auto)]

use std::io;

fn main(rt: HostRuntime) -> io::Result<()> {
    let mut question = [0u8; 16393];
    let mut text = [0u8; 160];
    program::why(
        &mut rt.reader(),
        &mut io::writer(&rt),
        &mut question,
        &mut text,
    )?;
    Ok(())
}
