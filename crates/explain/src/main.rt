// The program `explain`: reads one program file from standard input and prints, in plain text, what
// the analysis says of it.
#![tactic(auto)]

use input::read_full;
use std::io;

// A file has at most 16,384 bytes. One byte more is read, so that a longer input is seen to be too
// long and is refused, not cut.
fn main(rt: HostRuntime) -> io::Result<()> {
    let mut file = [0u8; 16385];
    let length = read_full(&mut rt.stdin(), &mut file)?;
    report::report(&mut rt.stdout(), &file[..length])
}
