// What the analysis tells of two storages.
ghost use Rattle.std.specs.Prelude.{◌≡◌, ◌*◌, ◌<◌, min, max, length};
ghost use Rattle.rows.specs.Row.{member_at};

// Who interferes with whom, a row for each storage; and who was copied into whom, a pair in the smaller id's row.
#[derive(Clone, Copy)]
pub struct Relations<'a> {
    pub graph: &'a [u64],
    pub copies: &'a [u64],
    ghost graph_long: { length graph.now ≡ 1024 },
    ghost copies_long: { length copies.now ≡ 1024 },
}

impl Relations<'_> {
    // Do two storages interfere?
    pub fn interfere(self, i: usize, j: usize) -> bool
        requires { (i < 256) × (j < 256) }
        ensures { result ≡ member_at self.entry.graph.now (i * 4) j }
    {
        rows::has(self.graph, i * 4, j)
    }

    // Were two storages copied into one another?
    pub fn copied(self, i: usize, j: usize) -> bool
        requires { (i < 256) × (j < 256) }
        ensures { result ≡ member_at self.entry.copies.now (min i j * 4) (max i j) }
    {
        rows::has(self.copies, i.min(j) * 4, i.max(j))
    }
}
