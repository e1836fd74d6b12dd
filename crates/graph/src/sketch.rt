// What the steps so far add to the graph, before it is closed.
ghost use Rattle.graph.specs.Walking.{Fresh};

#[derive(Drop)]
pub struct Sketch {
    // Of each storage the row of the units that it meets.
    pub meets: [u64; 2048],
    // Of each storage the row of the storages with a greater id that were copied into it, or it into them.
    pub copies: [u64; 1024],
    // The storages whose address is taken.
    pub addressed: [u64; 4],
}

impl Sketch {
    // A sketch of no step, made where it stays.
    #[inline(always)]
    pub fn new() -> Self
        ensures { Fresh result }
    {
        Sketch {
            meets: [0; 2048],
            copies: [0; 1024],
            addressed: [0; 4],
        }
    }
}
