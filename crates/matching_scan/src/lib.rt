// Loops over the edges of a cluster: the width that leaves it, what its successors offer it, what a pair that begins at it blocks.
#![tactic(auto)]

ghost use Rattle.std.specs.Prelude.{◌≡◌, ◌||◌, eqb, ℕ, ◌+◌, ◌<◌, ◌≤◌, length, get_or};
ghost use Rattle.topology.specs.Level.{next_in};
ghost use Rattle.folds.specs.Fold.{sum_to, any_to, most_cost};
ghost use Rattle.graph.specs.Graph.{joining};
ghost use Rattle.graph.specs.Coarse.{Narrow};
ghost use Rattle.graph.specs.Lent.{arcs_in};
ghost use Rattle.matching_scan.specs.State.{leaves, Single, halts, halts_at, offer_in, offer_of, Chosen, Wins, Better, blocked_of, Blocking};

use graph::EdgeLinks;

// What a round goes by: the edges in lists, no two from one to the same, with their widths; the level and the cost of each cluster; the bound on a joint cost.
#[derive(Clone, Copy)]
pub struct Scan<'a, 'b> {
    pub links: EdgeLinks<'a, 'b>,
    pub widths: &'a [u32],
    pub levels: &'a [u16; 512],
    pub costs: &'a [u32; 512],
    pub bound: u32,
    ghost measured: { length widths.now ≡ length links.edges.starts.now },
    ghost single: { Single (joining links.edges.starts.now links.edges.ends.now) },
    ghost light: { (c : ℕ) → get_or costs.now c 0 ≤ most_cost },
}

// The pairs so far, by cluster: its mate, or its own number; whether it is the end of a pair; whether rule 2 keeps it from becoming one.
// stays: a cluster with no mate is its own, so that `contraction` names a cluster and its mate with no case for none.
// stays: a list for each: the mates alone are handed on to `contraction`, and a scan is lent the lists that it reads.
// stays: bytes: public calls (`stops`, `block`, `choose`) are lent such marks, where any number above 0 is one, and a `bool` would ask more of their callers.
#[derive(Clone, Copy)]
pub struct Pairing {
    pub mates: [u16; 512],
    pub tos: [u8; 512],
    pub blocked: [u8; 512],
}

// The clusters that make no offer, as the pairs so far have it: those with a mate, and those that rule 2 blocks.
#[derive(Clone, Copy)]
pub struct Taken<'a> {
    pub mates: &'a [u16; 512],
    pub blocked: &'a [u8; 512],
}

// Whether v lies on the level after u's.
fn is_next(levels: &[u16; 512], u: usize, v: usize) -> bool
    requires { (u < 512) × (v < 512) }
    ensures { result ≡ next_in levels.now u v }
{
    usize::from(levels[v]) == usize::from(levels[u]) + 1
}

// Blocks b where it lies on the level after u's.
fn mark_next(levels: &[u16; 512], u: usize, b: usize, blocked: &mut [u8; 512])
    requires { (u < 512) × (b < 512) }
    ensures { blocked.new ≡ blocked_of levels.now u b blocked.old }
{
    if b != u && is_next(levels, u, b) {
        blocked[b] = 1;
    }
}

// The width of all edges that leave u.
// stays: a walk along links counts no index; why no iterator, here and below, stands at `graph::EdgeLinks`.
pub fn total(links: EdgeLinks<'_, '_>, widths: &[u32], u: usize) -> u32
    requires { (u < 512) × (length widths.now ≡ length links.edges.starts.now) × Narrow widths.now }
    ensures { result ≡ sum_to (length links.entry.edges.starts.now) (leaves (arcs_in links.entry.edges) widths.now u) }
{
    let m = links.edges.starts.len();
    let mut sum: u32 = 0;
    let mut j = links.first(u);
    while j < m {
        sum += widths[j];
        j = links.after(j);
    }
    sum
}

// Whether edge j of u goes to the end of a pair, on the next level.
fn halts_at(
    links: EdgeLinks<'_, '_>,
    levels: &[u16; 512],
    tos: &[u8; 512],
    u: usize,
    j: usize,
) -> bool
    requires { (u < 512) × (j < length links.edges.starts.now) }
    ensures { result ≡ halts (arcs_in links.entry.edges) levels.now tos.now u j }
{
    let b = graph::end_at(links.edges.ends, j);
    b != u && tos[b] != 0 && is_next(levels, u, b)
}

// Whether some edge of u goes to the end of a pair, on the next level: then no pair may begin at u.
pub fn stops(links: EdgeLinks<'_, '_>, levels: &[u16; 512], tos: &[u8; 512], u: usize) -> bool
    requires { u < 512 }
    ensures { result ≡ any_to (length links.entry.edges.starts.now) (halts_at (arcs_in links.entry.edges) levels.now tos.now u) }
{
    let m = links.edges.starts.len();
    let mut j = links.first(u);
    while j < m {
        if halts_at(links, levels, tos, u, j) {
            return true;
        }
        j = links.after(j);
    }
    false
}

// Blocks what the edges of u go to on the level after u's.
pub fn block(links: EdgeLinks<'_, '_>, levels: &[u16; 512], u: usize, blocked: &mut [u8; 512])
    requires { u < 512 }
    ensures { Blocking (arcs_in links.entry.edges) levels.now u (length links.entry.edges.starts.now) blocked.old blocked.new }
{
    let m = links.edges.starts.len();
    let mut j = links.first(u);
    while j < m {
        let b = graph::end_at(links.edges.ends, j);
        mark_next(levels, u, b, blocked);
        j = links.after(j);
    }
}

// A width, 0 where there is none, and the cluster that offers it.
#[derive(Clone, Copy)]
pub struct Best {
    pub width: u32,
    pub to: usize,
}

impl Best {
    // Whether an offer of w by b is wider than the best, or as wide and that of a lower cluster.
    fn loses(self, w: u32, b: usize) -> bool
        ensures { Wins self.width self.to w b result }
    {
        self.width < w || (w == self.width && b < self.to)
    }

    // The better of two offers.
    fn or(self, w: u32, b: usize) -> Best
        ensures { Better self.width self.to w b result.width result.to }
    {
        if self.loses(w, b) {
            Best { width: w, to: b }
        } else {
            self
        }
    }
}

impl Scan<'_, '_> {
    // Whether u and its successor b keep rule 1: b lies on the next level, or all that leaves u goes to b.
    fn is_near(self, u: usize, b: usize, w: u32, total: u32) -> bool
        requires { (u < 512) × (b < 512) }
        ensures { result ≡ (next_in self.entry.levels.now u b || eqb w total) }
    {
        is_next(self.levels, u, b) || w == total
    }

    // The width w that b offers to u, 0 where u may not take b.
    // stays: 0 is the least width, so that the running best compares offers as numbers, with no case for none.
    fn offer(self, taken: Taken<'_>, u: usize, b: usize, w: u32, total: u32) -> u32
        requires { (u < 512) × (b < 512) }
        ensures { result ≡ offer_in self.entry.levels.now taken.entry.mates.now taken.entry.blocked.now self.entry.costs.now self.entry.bound u b w total }
    {
        if usize::from(taken.mates[b]) != b {
            return 0;
        }
        if taken.blocked[b] != 0 {
            return 0;
        }
        if self.costs[u] + self.costs[b] > self.bound {
            return 0;
        }
        if self.is_near(u, b, w, total) { w } else { 0 }
    }

    // The better of the best offer and that of b over an edge of the width w: where not even all of w would win, the offer is not worked.
    fn improve(self, best: Best, taken: Taken<'_>, u: usize, b: usize, w: u32, total: u32) -> Best
        requires { (u < 512) × (b < 512) }
        ensures { Better best.width best.to (offer_in self.entry.levels.now taken.entry.mates.now taken.entry.blocked.now self.entry.costs.now self.entry.bound u b w total) b result.width result.to }
    {
        if best.loses(w, b) {
            best.or(self.offer(taken, u, b, w, total), b)
        } else {
            best
        }
    }

    // The widest offer to u, of the lowest cluster that makes it, where one is above 0.
    pub fn choose(self, taken: Taken<'_>, u: usize, total: u32) -> Option<Best>
        requires u_bound { u < 512 }
        requires total_value { total ≡ sum_to (length self.links.edges.starts.now) (leaves (arcs_in self.links.edges) self.widths.now u) }
        ensures { Chosen (arcs_in self.entry.links.edges) (offer_of (arcs_in self.entry.links.edges) self.entry.widths.now self.entry.levels.now taken.entry.mates.now taken.entry.blocked.now self.entry.costs.now self.entry.bound u) u result }
    {
        let m = self.links.edges.starts.len();
        let mut best = Best { width: 0, to: 512 };
        let mut j = self.links.first(u);
        while j < m {
            let b = graph::end_at(self.links.edges.ends, j);
            best = self.improve(best, taken, u, b, self.widths[j], total);
            j = self.links.after(j);
        }
        if best.width == 0 { None } else { Some(best) }
    }
}
