// What is noted while the file is read, beside the numbers of the reader.

// The row of the declared storages' ids, this function's blocks, the words of the units, the table of functions, and the unit number of each record
// that names one; the reader's numbers say how much of them is in use. `heads` has the last unit of a bucket and `nexts` the one before a unit, each as its
// number and one, or 0 where there is none. All stands in one struct: of slices that are lent inside a struct in a struct the check forgets what
// they hold. That links lead to lower units is no ghost field: of one unit more it holds only where the notes are those of a state.
#[derive(Drop)]
pub struct Notes<'a> {
    pub ids: [u64; 4],
    pub blocks: [u16; 128],
    pub heads: [u16; 256],
    pub nexts: [u16; 512],
    pub words: &'a mut [u32],
    pub table: &'a mut [u16],
    pub numbers: &'a mut [u16],
}
