// The record of part sums: made of a table, asked whether a move is allowed, and moved.
#![tactic(auto)]

ghost use Rattle.std.specs.Prelude.{◌≡◌, ◌<◌, ◌≤◌};
ghost use Rattle.graph.specs.Totals.{Keyed};
ghost use Rattle.part_sums.specs.Sums.{SumsOf, size_allowed, sums_allow, sums_even, EvenFound, Shifts, Shifted};

// The cost of each of up to 16 parts, and how many parts there are.
// stays: fixed memory (document 01: sums go by value, 16 to each struct), so the count stands beside the array.
// stays: that they are at most 16 is no ghost field, since `of_table` would then ask it of its callers.
#[derive(Clone, Copy)]
pub struct PartSums {
    pub sums: [u32; 16],
    pub count: usize,
}

impl PartSums {
    // The sums of a table of k parts.
    pub fn of_table(costs: &[u16], parts: &[u16], k: usize) -> PartSums
        requires { Keyed parts.now costs.now 16 }
        ensures { SumsOf costs.now parts.now k result }
    {
        let mut sums = [0u32; 16];
        graph::sum_costs(parts, costs, &mut sums);
        PartSums { sums, count: k }
    }

    // Whether a cost may leave a part for one that has then the new size: the old part is not emptied, and the new one stays within the bound.
    #[tactic(auto, unfolding(crate::specs::Sums::size_allowed))]
    pub fn allows(self, from: usize, cost: u32, size: u64, bound: u32) -> bool
        requires { from < 16 }
        ensures { result ≡ size_allowed self from cost size bound }
    {
        cost < self.sums[from] && size <= u64::from(bound)
    }

    // Whether a cost may go from one part to another, whose size is then its sum with that cost.
    pub fn lets(self, from: usize, to: usize, cost: u32, bound: u32) -> bool
        requires { (from < 16) × (to < 16) }
        ensures { result ≡ sums_allow self from to cost bound }
    {
        let size = u64::from(self.sums[to]) + u64::from(cost);
        self.allows(from, cost, size, bound)
    }

    // Whether the larger of two parts' sums falls by a cost that goes from one to the other.
    pub fn evens(self, from: usize, to: usize, cost: u32) -> bool
        requires { (from < 16) × (to < 16) }
        ensures { result ≡ sums_even self from to cost }
    {
        let size = u64::from(self.sums[to]) + u64::from(cost);
        size < u64::from(self.sums[from])
    }

    // The first part from `first` on and before `end` with which a cost evens its own out.
    pub fn first_even(self, own: usize, cost: u32, first: usize, end: usize) -> Option<usize>
        requires { (own < 16) × (end ≤ 16) }
        ensures { EvenFound self own cost first end result }
    {
        if self.sums[own] <= cost {
            return None;
        }
        let rest = self.sums[own] - cost;
        for t in first..end {
            if self.sums[t] < rest {
                return Some(t);
            }
        }
        None
    }

    // The record after a cost has gone from one part to another.
    pub fn moved(self, from: usize, to: usize, cost: u32) -> PartSums
        requires { Shifts self from to cost }
        ensures { Shifted self from to cost result }
    {
        let mut after = self;
        let old = after.sums[from];
        let new = after.sums[to];
        after.sums[from] = old - cost;
        after.sums[to] = new + cost;
        after
    }
}
