// The program `replay`: prints the report of each program file that standard input holds. They stand
// there one after another, each behind its length in two bytes, the low one first.
#![tactic(auto)]

use input::read_full;
use std::io::{Read, Result, Write};

// A proved loop has to end, and nothing says that the input does. So the loop counts its turns,
// to a number that no run uses up.
fn main(rt: HostRuntime) -> Result<()> {
    let mut from = rt.stdin();
    let mut out = rt.stdout();
    for _ in 0..u64::MAX {
        if !replay_next(&mut from, &mut out)? {
            break;
        }
    }
    Ok(())
}

// Prints the report of the next file, and answers whether there was one.
fn replay_next<R: Read, W: Write>(from: &mut R, out: &mut W) -> Result<bool> {
    let mut head = [0u8; 2];
    let got = read_full(from, &mut head)?;
    if got < 2 {
        return Ok(false);
    }
    let length = usize::from(u16::from_le_bytes(head));
    let mut file = [0u8; 65536];
    replay_file(from, out, &mut file[..length])?;
    Ok(true)
}

// Reads the bytes of one file, as many as `file` has room for, and prints their report.
fn replay_file<R: Read, W: Write>(from: &mut R, out: &mut W, file: &mut [u8]) -> Result<()> {
    let got = read_full(from, file)?;
    report::report(out, &file[..got])
}
