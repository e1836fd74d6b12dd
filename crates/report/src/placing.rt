// The placing of a file as text: its lines, or the one line of its refusal.
// The contract cites the outcome of `place` of `allocator`, so it says what the text is for every file.
ghost use Rattle.std.specs.Prelude.{◌≡◌, ◌+◌, ◌≤◌, ◌++◌};
ghost use Rattle.arrayvec.specs.ArrayVec.{array_vec_len};
ghost use Rattle.report.specs.Printed.{placing_text};

use allocator::Placing;
use arrayvec::ArrayVec;
use lines::placing::{Setting, put_done, put_refused};

// Places a file and puts its text, which takes at most 24,000 bytes.
pub fn put_placing<const ROOM: usize>(
    page: &mut ArrayVec<u8, ROOM>,
    file: &[u8],
    units: &mut [u32; 512],
    setting: Setting,
)
    requires { array_vec_len page.old + 24000 ≤ ROOM }
    ensures { page.new.items ≡ page.old.items ++ placing_text setting file.now units.old }
{
    let mut live = [0u64; 2048];
    let mut near = [0u64; 1024];
    let mut copies = [0u64; 1024];
    let mut result = [0u8; 2048];
    match allocator::place(file, units, &mut live, &mut near, &mut copies, &mut result) {
        Ok(
            Placing {
                placed,
                slots,
                passes,
            },
        ) => put_done(page, &result, placed, slots, passes, setting),
        Err(refusal) => put_refused(page, refusal, setting),
    }
}
