// What a pass reads of its row, and what a visit weighs.

ghost use Rattle.std.specs.Prelude.{◌<◌, ◌≤◌};
ghost use Rattle.neighbours.specs.Visit.{Listed};

use neighbours::LinkedEdges;
use part_sums::PartSums;

// A row's edges with their widths, its clusters' costs, and the bound of a part.
#[derive(Clone, Copy)]
pub struct Row<'a, 'b> {
    pub edges: LinkedEdges<'a>,
    pub widths: &'b [u32],
    pub costs: &'b [u32; 512],
    pub bound: u32,
    ghost listed: { Listed edges.from.now edges.to.now widths.now },
}

// The sums of the parts and, of the cluster at hand, its part, the lowest part of a successor, one more than the highest of a predecessor and its
// cost; and the bound.
// stays: the count of parts and 0 say that there is no such neighbour, as in `neighbours::Numbers`, whose entries these are.
#[derive(Clone, Copy)]
pub struct Visit<'a> {
    pub sums: &'a PartSums,
    pub own: usize,
    pub low: usize,
    pub high: usize,
    pub cost: u32,
    pub bound: u32,
    ghost inside: { (own < 16) × (sums.now.count ≤ 16) },
}
