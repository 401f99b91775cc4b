// One round's choice of pairs: clusters in topological order, each takes the widest successor that the rules and the bound allow.
#![tactic(auto)]

ghost use Rattle.std.specs.Prelude.{◌≡◌, ℕ, ◌<◌, take};
ghost use Rattle.folds.specs.Fold.{over, zeros, when};
ghost use Rattle.graph.specs.Graph.{graph_of, identity};
ghost use Rattle.graph.specs.Lent.{arcs_in};
ghost use Rattle.graph.specs.Coarse.{Narrow};
ghost use Rattle.topology.specs.Order.{InOrder};
ghost use Rattle.topology.specs.Level.{levels_of};
ghost use Rattle.matching.specs.Promises.{RoundReady, ClusterCosts, Paired, Stepped, Matched};

use matching_scan::{Pairing, Scan, Taken};

// Makes u and v a pair.
fn join(scan: Scan<'_, '_>, u: usize, v: usize, pairs: &mut Pairing)
    requires { (u < 512) × (v < 512) }
    ensures { Paired (arcs_in scan.entry.links.edges) scan.entry.levels.now u v pairs.old.mates pairs.old.tos pairs.old.blocked pairs.new.mates pairs.new.tos pairs.new.blocked }
{
    matching_scan::block(scan.links, scan.levels, u, &mut pairs.blocked);
    pairs.mates[u] = v as u16;
    pairs.mates[v] = u as u16;
    pairs.tos[v] = 1;
}

// Visits u: pairs it with the successor that makes the widest offer, where there is one. Answers whether it did.
fn visit(scan: Scan<'_, '_>, u: usize, pairs: &mut Pairing) -> bool
    requires { (u < 512) × Narrow scan.widths.now }
    ensures { Stepped (arcs_in scan.entry.links.edges) scan.entry.links.edges.starts.now scan.entry.links.edges.ends.now scan.entry.widths.now scan.entry.levels.now scan.entry.costs.now scan.entry.bound u pairs.old.mates pairs.old.tos pairs.old.blocked pairs.new.mates pairs.new.tos pairs.new.blocked (when result 1) }
{
    if usize::from(pairs.mates[u]) != u {
        return false;
    }
    if matching_scan::stops(scan.links, scan.levels, &pairs.tos, u) {
        return false;
    }
    let total = matching_scan::total(scan.links, scan.widths, u);
    let taken = Taken {
        mates: &pairs.mates,
        blocked: &pairs.blocked,
    };
    let Some(best) = scan.choose(taken, u, total) else {
        return false;
    };
    join(scan, u, best.to, pairs);
    true
}

// One round on g clusters, which are visited in topological order, by their levels: the mate of each cluster, its own number
// where it has none, and how many pairs there are.
pub fn round(scan: Scan<'_, '_>, order: &[u16], g: usize) -> ([u16; 512], usize)
    requires round_ready { RoundReady (graph_of (take g scan.costs.now) scan.links.edges.starts.now scan.links.edges.ends.now scan.widths.now) (identity g) g }
    requires cluster_costs { ClusterCosts g scan.costs.now × Narrow scan.widths.now }
    requires in_order { InOrder (arcs_in scan.links.edges) g order.now }
    requires levels_value { scan.levels.now ≡ over (levels_of (arcs_in scan.links.edges) g) (zeros 512) }
    ensures { Matched (graph_of (take g scan.entry.costs.now) scan.entry.links.edges.starts.now scan.entry.links.edges.ends.now scan.entry.widths.now) scan.entry.bound (identity g) result.0 result.1 }
{
    let mut mates = [0; 512];
    graph::number_entries(&mut mates);
    let mut pairs = Pairing {
        mates,
        tos: [0; 512],
        blocked: [0; 512],
    };
    let mut count: usize = 0;
    for u in &order[..g] {
        count += usize::from(visit(scan, usize::from(*u), &mut pairs));
    }
    (pairs.mates, count)
}
