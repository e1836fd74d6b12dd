// The program `place`: reads one program file from standard input and prints where each of its
// storages lies, or the one line of a refusal.
#![tactic(auto)]

ghost use Rattle.std.specs.Prelude.{IfSome, OnErr, OnOk, take};
ghost use Rattle.std.specs.Io.KnownBytes.{Appends};
ghost use Rattle.report.specs.Printed.{AppendsFront, printed};

use input::read_full;
use std::io::{Read, Result, Write};

fn main(rt: HostRuntime) -> Result<()> {
    place_input(&mut rt.stdin(), &mut rt.stdout())
}

// One byte more is read than a file may have, so that a longer input is refused and not cut.
fn place_input<R: Read, W: Write>(from: &mut R, out: &mut W) -> Result<()>
    ensures whole { OnOk result (IfSome (R.remaining from.old)
        (λ bytes. Appends (W.contents out.old) (W.contents out.new) (printed (take 16385 bytes)))) }
    ensures cut { OnErr result (IfSome (R.remaining from.old)
        (λ bytes. AppendsFront (W.contents out.old) (W.contents out.new) (printed (take 16385 bytes)))) }
{
    let mut file = [0u8; 16385];
    let length = read_full(from, &mut file)?;
    report::place(out, &file[..length])
}
