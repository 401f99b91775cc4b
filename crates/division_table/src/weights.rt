// What the positions weigh.

ghost use Rattle.std.specs.Prelude.{◌<◌, ◌≤◌};
ghost use Rattle.division_table.specs.Promises.{RunWeights};

// The intervals that start at position y of g, and their bound: what lies at each position costs, what leaves it, and what comes into it from y on.
// stays: arrays of 512, of which g count: there is no heap, and with slices of g each list would need a fact of its length.
#[derive(Clone, Copy)]
pub struct Weights<'a> {
    pub cost: &'a [u32; 512],
    pub away: &'a [u32; 512],
    pub into: &'a [u32; 512],
    pub bound: u32,
    pub g: usize,
    pub y: usize,
    ghost sums: { RunWeights g y cost.now away.now into.now },
    ghost below: { (y < g) × (g ≤ 512) },
}
