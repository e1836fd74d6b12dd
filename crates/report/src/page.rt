// The page: a writer in front of another one. What is written to it is kept until the page is full,
// so that a text that can be long goes out in few large writes, from memory of a fixed size.
ghost use Rattle.std.specs.Prelude.{◌≡◌, ◌+◌, ◌≤◌, [], OnErr, OnOk};
ghost use Rattle.std.specs.Io.KnownBytes.{Appends};
ghost use Rattle.arrayvec.specs.ArrayVec.{array_vec_len};
ghost use Rattle.lines.specs.Text.{answer_text};
ghost use Rattle.report.specs.Printed.{AppendsFront, Carries, placing_text};

use crate::placing::put_placing;
use arrayvec::ArrayVec;
use lines::answer::put_answer;
use lines::placing::Setting;
use lines::text::put;
use records::Refusal;
use std::io::{Error, ErrorKind, Result, Write};

// A page is written out where it has less room than that for the next word and the number behind it.
const WORD: usize = 1024;

// Writes a text. It is the loop of `write_all` over again, since that promises nothing of what an
// error leaves. The turns are counted, as there, so that the loop ends.
pub fn write_out<W: Write>(out: &mut W, text: &[u8]) -> Result<()>
    ensures whole { OnOk result (Appends (W.contents out.old) (W.contents out.new) text.now) }
    ensures cut { OnErr result (AppendsFront (W.contents out.old) (W.contents out.new) text.now) }
{
    let mut done = 0;
    'writes: for _ in 0..u64::MAX {
        if done >= text.len() {
            return Ok(());
        }
        match out.write(&text[done..]) {
            Ok(0) => {
                let message = "failed to write whole buffer";
                return Err(Error::new(ErrorKind::WriteZero, message));
            }
            Ok(n) => done += n,
            Err(e) => {
                if e.kind() != ErrorKind::Interrupted {
                    return Err(e);
                }
            }
        }
    }
    Err(Error::from(ErrorKind::TimedOut))
}

#[derive(Drop)]
pub struct Page<W> {
    out: W,
    waiting: ArrayVec<u8, 65536>,
}

impl<W: Write> Page<W> {
    pub fn new(out: W) -> Self
        ensures { result.waiting.items ≡ [] }
    {
        Page {
            out,
            waiting: ArrayVec::new(),
        }
    }

    // Hands on what waits, and the page starts anew.
    pub fn write_out(&mut self) -> Result<()>
        ensures anew { OnOk result (self.new.waiting.items ≡ []) }
        ensures handed { OnOk result (Appends (W.contents self.old.out) (W.contents self.new.out) self.old.waiting.items) }
    {
        write_out(&mut self.out, &self.waiting)?;
        self.waiting.clear();
        Ok(())
    }

    // Where fewer bytes than that are left, the page is written out.
    fn make_room(&mut self, count: usize) -> Result<()>
        requires { count ≤ 65536 }
        ensures room { OnOk result (array_vec_len self.new.waiting + count ≤ 65536) }
        ensures kept { OnOk result (Carries (W.contents self.old.out) self.old.waiting.items (W.contents self.new.out) self.new.waiting.items []) }
    {
        if self.waiting.remaining_capacity() < count {
            self.write_out()?;
        }
        Ok(())
    }

    // The answer of `check` is the first text of a page, which has room for all of it.
    pub fn put_answer(&mut self, units: &[u32; 512], checked: std::result::Result<usize, Refusal>)
        requires { self.old.waiting.items ≡ [] }
        ensures first { self.new.waiting.items ≡ answer_text checked units.now }
        ensures unwritten { self.new.out ≡ self.old.out }
    {
        put_answer(&mut self.waiting, units, checked);
    }

    // A placing has its room before it is put.
    pub fn put_placing(&mut self, file: &[u8], units: &mut [u32; 512]) -> Result<()>
        ensures { OnOk result (Carries (W.contents self.old.out) self.old.waiting.items (W.contents self.new.out) self.new.waiting.items
            (placing_text Setting.InReport file.now units.old)) }
    {
        self.make_room(24000)?;
        put_placing(&mut self.waiting, file, units, Setting::InReport);
        Ok(())
    }
}

// Does a text go on with a number? It then stays on the page of the word in front of it.
fn is_number(text: &[u8]) -> bool {
    matches!(text, [b'0'..=b'9', ..])
}

// Of a text that is longer than the page it takes the first part, as writers may.
impl<W: Write> Write for Page<W> {
    fn write(&mut self, text: &[u8]) -> Result<usize> {
        let count = text.len().min(65536);
        let room = if is_number(text) {
            count
        } else {
            count.max(WORD)
        };
        self.make_room(room)?;
        put(&mut self.waiting, &text[..count]);
        Ok(count)
    }

    fn flush(&mut self) -> Result<()> {
        self.write_out()?;
        self.out.flush()
    }
}
