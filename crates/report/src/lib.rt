// The report: what the analysis and the placer say of one program file, as lines of text for a writer.
// Knows the answers of `records`, `units`, `liveness`, `graph` and `allocator`, and the text of `lines`;
// gives `report`, which writes them all, and `place`, which writes the placing alone.
#![tactic(auto)]

mod functions;
mod numbers;
mod page;
mod placing;
mod record_places;
mod steps;
mod storage_lines;

ghost use Rattle.std.specs.Prelude.{◌≡◌, ◌+◌, ◌≤◌, ◌++◌, OnErr, OnOk};
ghost use Rattle.std.specs.Io.KnownBytes.{Appends};
ghost use Rattle.arrayvec.specs.ArrayVec.{array_vec_len};
ghost use Rattle.report.specs.Printed.{AppendsFront, printed};

use arrayvec::ArrayVec;
use functions::put_functions;
use lines::placing::Setting;
use page::{Page, write_out};
use placing::put_placing;
use std::io::{Result, Write};
use storage_lines::put_graph;

// Writes the whole text of a file, in pieces where it is longer than a page. Behind the answer of
// `check`, an accepted file has the lines of its functions, of its graph and of its placing, and a
// refused one has nothing.
pub fn report<W: Write>(out: &mut W, file: &[u8]) -> Result<()> {
    let mut page = Page::new(out);
    let mut units = [0u32; 512];
    let checked = records::check(file, &mut units);
    page.put_answer(&units, checked);
    if checked.is_ok() {
        put_functions(&mut page, file, &mut units)?;
        put_graph(&mut page, file, &mut units)?;
        page.put_placing(file, &mut units)?;
    }
    page.write_out()
}

// Writes the placing of a file alone, or the one line of its refusal. So what the program `place`
// prints is fixed by the contract of `place` of `allocator`.
pub fn place<W: Write>(out: &mut W, file: &[u8]) -> Result<()>
    ensures whole { OnOk result (Appends (W.contents out.old) (W.contents out.new) (printed file.now)) }
    ensures cut { OnErr result (AppendsFront (W.contents out.old) (W.contents out.new) (printed file.now)) }
{
    let mut page = ArrayVec::<u8, 24000>::new();
    put_placed(&mut page, file);
    write_out(out, &page)
}

// Puts the text of a file's placing.
fn put_placed<const ROOM: usize>(page: &mut ArrayVec<u8, ROOM>, file: &[u8])
    requires { array_vec_len page.old + 24000 ≤ ROOM }
    ensures { page.new.items ≡ page.old.items ++ printed file.now }
{
    let mut units = [0u32; 512];
    put_placing(page, file, &mut units, Setting::Alone);
}
