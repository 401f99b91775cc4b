// What leaves each position of an order and what comes into it, by the edges of the cluster that lies there: the table of the least cuts, and the
// starts that it gives.
#![tactic(auto)]

ghost use Rattle.std.specs.Prelude.{◌≡◌, ◌<◌, ◌≤◌, length};
ghost use Rattle.folds.specs.Fold.{if_below};
ghost use Rattle.division_table.specs.Promises.{Table, Blank};
ghost use Rattle.division_scan.specs.Scan.{IntoRoom};
ghost use Rattle.division_scan.specs.Placed.{GatheredAt, next_in, starts_in, CutsOf};

use division_table::Weights;

mod edges;

pub use edges::{Limits, PlacedEdges};

// Adds the edges that start at y, those of the cluster that lies there, to what comes into the positions where they end, and answers their width.
fn gather(e: PlacedEdges<'_>, y: usize, into: &mut [u32; 512]) -> u32
    requires y_in_bounds { y < length e.places.now }
    requires into_room { IntoRoom into.old }
    ensures { GatheredAt e.entry y into.old into.new result }
{
    let m = e.starts.len();
    let mut sum: u32 = 0;
    let a = usize::from(e.order[y]);
    let mut j = usize::from(e.links.head[a]);
    while j < m {
        let x = graph::cluster(e.places, e.ends, j);
        let w = e.widths[j];
        into[x] += w;
        sum += w;
        j = usize::from(e.links.next[j]);
    }
    sum
}

// The start that follows y, where j follow it.
fn next_start(e: PlacedEdges<'_>, cut: &[u32], y: usize, j: usize) -> Option<usize>
    requires table { Table (length e.places.now) cut.now }
    requires y_le_g { (y ≤ length e.places.now) × (j < 15) }
    ensures { result ≡ if_below (length e.entry.places.now) (next_in e.entry cut.now j y) }
{
    let g = e.places.len();
    let goal = cut[y * 17 + (j + 1)];
    let mut into = [0u32; 512];
    let mut out: u32 = 0;
    for x in y + 1..g {
        let w = gather(e, x - 1, &mut into);
        out = out + w - into[x - 1];
        if out + cut[x * 17 + j] == goal {
            return Some(x);
        }
    }
    None
}

// Writes the starts that follow position 0, each the next of the one before, or the number of positions.
pub fn follow(e: PlacedEdges<'_>, cut: &[u32], first: &mut [u16])
    requires table { Table (length e.places.now) cut.now }
    requires few { length first.old < 16 }
    ensures { first.new ≡ starts_in e.entry cut.now (length first.old) }
{
    let n = first.len();
    let mut y: usize = 0;
    for (i, start) in first.iter_mut().enumerate() {
        y = next_start(e, cut, y, n - (i + 1)).unwrap_or(e.places.len());
        *start = y as u16;
    }
}

// Fills the table of the least cuts that a division with n starts can have, from the last position down.
pub fn tabulate(
    e: PlacedEdges<'_>,
    limits: Limits<'_>,
    n: usize,
    away: &mut [u32; 512],
    cut: &mut [u32],
)
    requires g_bound { (limits.g ≡ length e.places.now) × (n ≤ 16) }
    requires table { Table limits.g cut.old }
    requires blank { Blank limits.g cut.old }
    ensures { CutsOf e.entry limits.entry n away.new cut.new }
{
    let mut into = [0u32; 512];
    let mut rest: u32 = 0;
    for y in (0..limits.g).rev() {
        away[y] = gather(e, y, &mut into);
        rest += limits.cost[y];
        let w = Weights {
            cost: limits.cost,
            away,
            into: &into,
            bound: limits.bound,
            g: limits.g,
            y,
        };
        let before = usize::from(limits.before[y]);
        let after = usize::from(limits.after[y]);
        division_table::sweep(w, n, before, after, rest, cut);
    }
}
