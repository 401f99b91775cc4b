// The lists and costs of a row, carried to the next one.
#![tactic(auto)]

ghost use Rattle.std.specs.Prelude.{◌≡◌, ℕ, ◌+◌, ◌<◌, ◌≤◌, ◌++◌, length, get_or, take, drop};
ghost use Rattle.folds.specs.Fold.{sum_to, put, part, most_cost};
ghost use Rattle.graph.specs.Graph.{arcs};
ghost use Rattle.joined_edges.specs.Joining.{Written};
ghost use Rattle.row_lists.specs.Carry.{Between, Maps, First, Next, Merged};

use graph::{Lists, RowStore, StoredRows};
use joined_edges::{Joined, RowEdges};

// The new number, one of `after`, of each of the `before` clusters of a row.
// stays: `before` beside the array, for which a slice of its front would do: `Maps`, `Next`, `Merged` and `Renamed` speak of the array, and each would need a law of its front.
#[derive(Clone, Copy)]
pub struct Renaming<'a> {
    pub map: &'a [u16; 512],
    pub before: usize,
    pub after: usize,
    ghost maps: { Maps map.now before after },
}

// Writes src into dst, from a on.
// stays: a loop, since std's `copy_from_slice` needs `memmove`, which the archive for C would have to be given.
pub fn copy<T: Copy>(src: &[T], dst: &mut [T], a: usize)
    requires { a + length src.now ≤ length dst.old }
    ensures { dst.new ≡ take a dst.old ++ (src.now ++ drop (a + length src.now) dst.old) }
{
    for i in 0..src.len() {
        dst[a + i] = src[i];
    }
}

// Numbers of 16 bits, in the front of dst.
fn widen(src: &[u16], dst: &mut [u32])
    requires { length src.now ≤ length dst.old }
    ensures after { dst.new ≡ put dst.old 0 src.now }
    ensures narrow { (i : ℕ) → get_or src.now i 0 ≤ 65535 }
{
    for (i, x) in src.iter().enumerate() {
        dst[i] = u32::from(*x);
    }
}

// The lists of the vertices' own row, in front of all others.
pub fn first(lists: Lists<'_>, store: &mut RowStore<'_>)
    requires starts_len_bound { (length lists.starts.now ≤ 1024) × (length lists.ends.now ≡ length lists.starts.now) × (length lists.widths.now ≡ length lists.starts.now) }
    requires starts_in_bounds { (length lists.starts.now ≤ length store.old.froms.now) × (length lists.starts.now ≤ length store.old.tos.now) × (length lists.starts.now ≤ length store.old.wides.now) }
    ensures first { First lists.entry.starts.now lists.entry.ends.now lists.entry.widths.now store.old.froms.now store.old.tos.now store.old.wides.now store.old.sizes store.new.froms.now store.new.tos.now store.new.wides.now store.new.sizes }
    ensures orders { store.new.orders.now ≡ store.old.orders.now }
    ensures narrow { (j : ℕ) → get_or lists.entry.widths.now j 0 ≤ 65535 }
{
    let m = lists.starts.len();
    copy(lists.starts, store.froms, 0);
    copy(lists.ends, store.tos, 0);
    widen(lists.widths, store.wides);
    store.sizes[0] = m as u16;
}

// The vertices' own costs.
pub fn weigh(costs: &[u16], weights: &mut [u32; 512])
    requires { length costs.now ≤ 512 }
    ensures weighed { (length weights.new ≡ 512) × ((c : ℕ) → get_or weights.new c 0 ≡ get_or costs.now c 0) }
    ensures light { (c : ℕ) → get_or costs.now c 0 ≤ 65535 }
{
    *weights = [0; 512];
    widen(costs, weights);
}

// Joins the edges at a, `size` of them, by the new numbers of their clusters.
fn join_part<'x>(
    names: Renaming<'x>,
    a: usize,
    size: usize,
    store: StoredRows<'x>,
    joined: &mut Joined,
)
    requires between { Between names.before (part store.froms.now a size) (part store.tos.now a size) (part store.wides.now a size) }
    requires size_bound { (a + size ≤ length store.froms.now) × (a + size ≤ length store.tos.now) × (a + size ≤ length store.wides.now) }
    ensures { Written (arcs (take names.entry.before names.entry.map.now) (part store.entry.froms.now a size) (part store.entry.tos.now a size)) (part store.entry.wides.now a size) names.entry.after names.entry.after joined.new.count joined.new.froms joined.new.tos joined.new.widths }
{
    let e = a + size;
    let map = names.map;
    let edges = RowEdges {
        row: &map[..names.before],
        starts: &store.froms[a..e],
        ends: &store.tos[a..e],
        widths: &store.wides[a..e],
    };
    joined_edges::join_edges(edges, names.after, joined);
}

// Joins the edges at a, `size` of them, by the new numbers of their clusters, into the lists from b on. Answers how many there are.
pub fn carry(
    names: Renaming<'_>,
    a: usize,
    size: usize,
    b: usize,
    store: &mut RowStore<'_>,
) -> usize
    requires between { Between names.before (part store.old.froms.now a size) (part store.old.tos.now a size) (part store.old.wides.now a size) }
    requires size_bound { (a + size ≤ b) × (b + size ≤ length store.old.froms.now) × (b + size ≤ length store.old.tos.now) × (b + size ≤ length store.old.wides.now) }
    ensures next { Next names.entry.map.now names.entry.before names.entry.after a size b store.old.froms.now store.old.tos.now store.old.wides.now store.new.froms.now store.new.tos.now store.new.wides.now result }
    ensures sizes { store.new.sizes ≡ store.old.sizes }
    ensures orders { store.new.orders.now ≡ store.old.orders.now }
{
    let mut joined = Joined {
        froms: [0; 1024],
        tos: [0; 1024],
        widths: [0; 1024],
        count: 0,
    };
    join_part(names, a, size, store.view(), &mut joined);
    let count = joined.count;
    copy(&joined.froms[..count], store.froms, b);
    copy(&joined.tos[..count], store.tos, b);
    copy(&joined.widths[..count], store.wides, b);
    count
}

// The costs of the clusters that the old ones become.
pub fn merge(names: Renaming<'_>, weights: &mut [u32; 512])
    requires { sum_to names.before (λ c. get_or weights.old c 0) ≤ most_cost }
    ensures { Merged names.entry.map.now weights.old names.entry.before weights.new }
{
    let old = *weights;
    *weights = [0; 512];
    for c in 0..names.before {
        let d = usize::from(names.map[c]);
        weights[d] += old[c];
    }
}
