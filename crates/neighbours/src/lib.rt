// What a visit of a cluster needs, by its own edges in a rung's lists: the parts that they lead to, and their width to each. The parts are
// kept from one visit to the next, with a mark for each cluster.
#![tactic(auto)]

ghost use Rattle.std.specs.Prelude.{◌≡◌, ℕ, ◌+◌, ◌&&◌, ◌<◌, ◌≤◌, min, max, length, get_or, leb};
ghost use Rattle.folds.specs.Fold.{pick, turns, Read};
ghost use Rattle.graph.specs.Links.{Linked, Ended};
ghost use Rattle.neighbours.specs.Visit.{Placed, Listed, Indexed, fold_by, low_next, high_before, SumsRoom, Added, Pulled};
ghost use Rattle.neighbours.specs.declared.Mark.TheVariants.{Closed, Right, Stale};
ghost use Rattle.neighbours.specs.Known.{mark_by, open_to, Known, Swept, Opened, Fresh, Staled, Roused};

use graph::{EdgeLists, LinkTable};

// The mark of a cluster: no candidate is open to it; what is known of it is right; a neighbour's move may have changed it.
#[derive(Clone, Copy, PartialEq, Eq)]
#[repr(u8)]
pub enum Mark {
    Closed,
    Right,
    Stale,
}

// The mark for a byte: 0, 2, or any other.
impl From<u8> for Mark {
    ghost from_gives = { λ byte mark. mark ≡ mark_by byte };

    // stays: a `match` on a byte: this is where one becomes a mark.
    fn from(byte: u8) -> Mark
        ensures { result ≡ mark_by byte }
    {
        match byte {
            0 => Mark::Closed,
            2 => Mark::Stale,
            _ => Mark::Right,
        }
    }
}

// The part of each cluster.
#[derive(Drop)]
pub struct PartTable {
    pub parts: [u16; 512],
    ghost placed: { Placed parts },
}

// What is kept of each cluster: the lowest part of a successor, one more than the highest of a predecessor, and its mark.
// stays: the count of parts and 0 say that there is none: as bounds they are right as they stand (`own < low`, `high <= own`), where an Option would be
// tested first.
// stays: a list for each: a move is lent the first two to read and the marks to write (`rouse`).
// stays: that they are right (`Known`) is a clause, since it speaks of the edges and of the table too, which a move writes between two writes of these.
#[derive(Drop)]
pub struct Numbers {
    pub low: [u16; 512],
    pub high: [u16; 512],
    pub marks: [Mark; 512],
}

// A row's edges, and their lists by the cluster that they leave and by the one that they enter.
#[derive(Clone, Copy)]
pub struct LinkedEdges<'a> {
    pub from: &'a [u16],
    pub to: &'a [u16],
    pub out: &'a LinkTable,
    pub into: &'a LinkTable,
    ghost ended: { Ended from.now to.now },
    ghost indexed: { Indexed from.now to.now out.now.head out.now.next into.now.head into.now.next },
}

// The same edges seen one way: each from its near end to its far one, and their lists by the near end.
#[derive(Clone, Copy)]
struct Side<'a> {
    near: &'a [u16],
    far: &'a [u16],
    links: &'a LinkTable,
    ghost ended: { Ended near.now far.now },
    ghost linked: { Linked (λ i. get_or near.now i 0) (length near.now) links.now.head links.now.next },
}

impl<'a> LinkedEdges<'a> {
    // The edges as those out of their near ends.
    fn leaving(&self) -> Side<'a>
        ensures { (result.near.now ≡ self.now.from.now) × (result.far.now ≡ self.now.to.now) × (result.links.now ≡ self.now.out.now) }
    {
        Side {
            near: self.from,
            far: self.to,
            links: self.out,
        }
    }

    // The edges as those into their near ends.
    fn entering(&self) -> Side<'a>
        ensures { (result.near.now ≡ self.now.to.now) × (result.far.now ≡ self.now.from.now) × (result.links.now ≡ self.now.into.now) }
    {
        Side {
            near: self.to,
            far: self.from,
            links: self.into,
        }
    }
}

impl PartTable {
    // The part of cluster c.
    pub fn part_at(&self, c: usize) -> usize
        requires { c < 512 }
        ensures { Read self.now.parts c 16 result }
    {
        usize::from(self.parts[c])
    }
}

// For every cluster the lowest part of a successor, or k, and one more than the highest of a predecessor, or 0.
fn sweep(edges: EdgeLists<'_>, table: &PartTable, k: usize, numbers: &mut Numbers)
    requires { k ≤ 16 }
    ensures { Swept edges.entry.starts.now edges.entry.ends.now table.now.parts k (length edges.entry.starts.now) numbers.new.low numbers.new.high }
{
    numbers.low = [k as u16; 512];
    numbers.high = [0u16; 512];
    for j in 0..edges.starts.len() {
        let a = graph::end_at(edges.starts, j);
        let b = graph::end_at(edges.ends, j);
        numbers.low[a] = numbers.low[a].min(table.parts[b]);
        numbers.high[b] = numbers.high[b].max(table.parts[a] + 1);
    }
}

// Whether a candidate is open to a cluster of part own, by its two numbers.
#[tactic(auto, unfolding(crate::specs::Known::open_to))]
fn is_open(own: u16, low: u16, high: u16, k: u16) -> bool
    ensures { result ≡ open_to own low high k }
{
    (own < low && own + 1 < k) || (0 < own && high <= own)
}

// The mark of a cluster by its two numbers: `Right` where a candidate is open, else `Closed`.
fn mark_of(own: u16, low: u16, high: u16, k: u16) -> Mark
    ensures { result ≡ pick (open_to own low high k) Right Closed }
{
    if is_open(own, low, high, k) {
        Mark::Right
    } else {
        Mark::Closed
    }
}

// Marks the clusters below g, and the rest as if an end of their edges had moved.
fn mark_open(table: &PartTable, k: usize, g: usize, numbers: &mut Numbers)
    requires { (k ≤ 16) × (g ≤ 512) }
    ensures opened { Opened table.now.parts numbers.old.low numbers.old.high k g numbers.new.marks }
    ensures same { (numbers.new.low ≡ numbers.old.low) × (numbers.new.high ≡ numbers.old.high) }
{
    numbers.marks = [Mark::Stale; 512];
    for c in 0..g {
        numbers.marks[c] = mark_of(table.parts[c], numbers.low[c], numbers.high[c], k as u16);
    }
}

// What is known before the first visit, by one sweep over the edges.
pub fn survey(edges: EdgeLists<'_>, table: &PartTable, k: usize, g: usize, numbers: &mut Numbers)
    requires { (k ≤ 16) × (g ≤ 512) }
    ensures { Known edges.entry.starts.now edges.entry.ends.now table.now.parts k numbers.new.low numbers.new.high numbers.new.marks }
{
    sweep(edges, table, k, numbers);
    mark_open(table, k, g, numbers);
}

// Folds the parts at the far ends of the edges whose near end is h.
fn fold_far<F: Fn(u16, u16) -> u16>(
    side: Side<'_>,
    table: &PartTable,
    h: usize,
    start: u16,
    step: F,
) -> u16
    ghost op: { ℕ → ℕ → ℕ }
    requires h_bound { h < 512 }
    requires callable { (s p : ℕ) → s < 65536 → p < 16 → F.pre step s p }
    requires gives { (s p r : ℕ) → s < 65536 → p < 16 → F.post step s p r → r ≡ op s p }
    ensures { result ≡ turns (length side.entry.near.now) (fold_by op side.entry.near.now side.entry.far.now table.now.parts h) start }
{
    let m = side.near.len();
    let mut value = start;
    let mut j = usize::from(side.links.head[h]);
    while j < m {
        let i = j;
        j = usize::from(side.links.next[i]);
        let c = graph::end_at(side.far, i);
        value = step(value, table.parts[c]);
    }
    value
}

// Makes the two numbers of h right again, where a neighbour's move may have changed them.
pub fn refresh(
    edges: &LinkedEdges<'_>,
    table: &PartTable,
    h: usize,
    k: usize,
    numbers: &mut Numbers,
)
    requires h_bound { (h < 512) × (k ≤ 16) }
    requires known { Known edges.now.from.now edges.now.to.now table.now.parts k numbers.old.low numbers.old.high numbers.old.marks }
    ensures { Fresh edges.now.from.now edges.now.to.now table.now.parts k h numbers.new.low numbers.new.high numbers.new.marks }
{
    if numbers.marks[h] != Mark::Stale {
        return;
    }
    let out = edges.leaving();
    let back = edges.entering();
    numbers.low[h] = fold_far(out, table, h, k as u16, |low: u16, part: u16| low.min(part));
    numbers.high[h] = fold_far(back, table, h, 0, |high: u16, part: u16| high.max(part + 1));
    numbers.marks[h] = Mark::Right;
}

// Adds the width to each part at the far ends of the edges whose near end is h.
fn add_widths(side: Side<'_>, widths: &[u32], table: &PartTable, h: usize, toward: &mut [u32; 16])
    requires listed { Listed side.near.now side.far.now widths.now }
    requires h_bound { h < 512 }
    requires sums_room { SumsRoom toward.old }
    ensures { Added side.entry.near.now side.entry.far.now widths.now table.now.parts h (length side.entry.near.now) toward.old toward.new }
{
    let m = side.near.len();
    let mut j = usize::from(side.links.head[h]);
    while j < m {
        let i = j;
        j = usize::from(side.links.next[i]);
        let p = table.part_at(graph::end_at(side.far, i));
        toward[p] += widths[i];
    }
}

// The width between h and each part.
pub fn pulls(
    edges: &LinkedEdges<'_>,
    widths: &[u32],
    table: &PartTable,
    h: usize,
    toward: &mut [u32; 16],
)
    requires listed { Listed edges.now.from.now edges.now.to.now widths.now }
    requires h_bound { h < 512 }
    ensures { Pulled edges.now.from.now edges.now.to.now widths.now table.now.parts h toward.new }
{
    *toward = [0u32; 16];
    let out = edges.leaving();
    add_widths(out, widths, table, h, toward);
    let back = edges.entering();
    add_widths(back, widths, table, h, toward);
}

// The mark of a cluster after a neighbour has moved: stale where its number is one from first to last.
fn restaled(mark: Mark, number: u16, first: u16, last: u16) -> Mark
    ensures { result ≡ pick (leb first number && leb number last) Stale mark }
{
    if first <= number && number <= last {
        Mark::Stale
    } else {
        mark
    }
}

// Marks the clusters at the far ends of the edges whose near end is h, where their number is one from first to last.
fn mark_far(
    side: Side<'_>,
    h: usize,
    numbers: &[u16; 512],
    first: u16,
    last: u16,
    marks: &mut [Mark; 512],
)
    requires { h < 512 }
    ensures { Staled side.entry.near.now side.entry.far.now numbers.now first last h (length side.entry.near.now) marks.old marks.new }
{
    let m = side.near.len();
    let mut j = usize::from(side.links.head[h]);
    while j < m {
        let i = j;
        j = usize::from(side.links.next[i]);
        let c = graph::end_at(side.far, i);
        marks[c] = restaled(marks[c], numbers[c], first, last);
    }
}

// Marks the clusters whose numbers a move of h from part own to part t can change: those at the far ends of its edges, but where the number is beyond
// both parts, so that another neighbour gives it.
pub fn rouse(
    edges: &LinkedEdges<'_>,
    h: usize,
    own: u16,
    t: u16,
    low: &[u16; 512],
    high: &[u16; 512],
    marks: &mut [Mark; 512],
)
    requires h_bound { h < 512 }
    requires own_bound { (own < 16) × (t < 16) }
    ensures { Roused edges.now.from.now edges.now.to.now h own t low.now high.now marks.old marks.new }
{
    let out = edges.leaving();
    let last = (own + 1).max(t);
    mark_far(out, h, high, 0, last, marks);
    let back = edges.entering();
    let first = own.min(t + 1);
    mark_far(back, h, low, first, 16, marks);
}
