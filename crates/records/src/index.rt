// The table of functions before any record.
ghost use Rattle.std.specs.Prelude.{◌≡◌, length};
ghost use Rattle.records.specs.Index.{bare};

// What stands in the table where a number has no function: the table is lent as bare numbers, which others read too.
pub const NONE: u16 = 65535;

pub fn blank(table: &mut [u16])
    requires { length table.old ≡ 512 }
    ensures { table.new ≡ bare }
{
    let (places, counts) = table.split_at_mut(256);
    places.fill(NONE);
    counts.fill(0);
}
