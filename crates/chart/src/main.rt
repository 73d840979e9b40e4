// The program: a sheet on standard input, its chart on standard output. Document 01, "Program and values"; the work is done in `program`.
// `why` has the same form: one call, with buffers of other sizes.
#![tactic(auto)]

use std::io;

fn main(rt: HostRuntime) -> io::Result<()> {
    let mut sheet = [0u8; 16385];
    let mut text = [0u8; 8704];
    program::chart(
        &mut rt.reader(),
        &mut io::writer(&rt),
        &mut sheet,
        &mut text,
    )?;
    Ok(())
}
