// Edges between the positions of an order, and what a division of them may take.

ghost use Rattle.std.specs.Prelude.{◌≤◌, length};
ghost use Rattle.division_table.specs.Promises.{within};
ghost use Rattle.division_table.specs.Fewest.{Before, After};
ghost use Rattle.division_scan.specs.Scan.{Positioned, LinkedBy, Costs};

use graph::LinkTable;

// The edges between clusters, and the lists of those that start at each; `places` has the position of each cluster, and `order` the cluster at each position.
#[derive(Clone, Copy)]
pub struct PlacedEdges<'a> {
    pub places: &'a [u16],
    pub starts: &'a [u16],
    pub ends: &'a [u16],
    pub widths: &'a [u32],
    pub order: &'a [u16],
    pub links: &'a LinkTable,
    ghost positioned: { Positioned places.now starts.now ends.now widths.now (length places.now) },
    ghost linked_by: { LinkedBy order.now places.now starts.now links.now.head links.now.next },
    ghost few: { length places.now ≤ 512 },
}

// What lies at each of g positions costs, what an interval may cost, and how many the positions before each and from each on take at least.
// stays: arrays of 512, of which g count, as in `division_table::Weights`.
#[derive(Clone, Copy)]
pub struct Limits<'a> {
    pub g: usize,
    pub cost: &'a [u32; 512],
    pub bound: u32,
    pub before: &'a [u16; 512],
    pub after: &'a [u16; 512],
    ghost costs: { Costs cost.now g },
    ghost before_each: { Before g (within cost.now bound) before.now },
    ghost from_each: { After g (within cost.now bound) 0 after.now },
}
