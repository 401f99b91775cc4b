// Classes of clusters, guessed along the links of their edges.
#![tactic(auto)]

ghost use Rattle.std.specs.Prelude.{◌≡◌, ◌<◌, ◌≤◌, length};
ghost use Rattle.graph.specs.Links.{Named};

use graph::LinkTable;

// Where the guess of classes stands: at a cluster, or at 512 between two walks. `top` was come back from last, of those that have no class yet, and
// `tried` clusters were taken to start from. `ahead` has the edge that each cluster is at; `up` the cluster from which each was come to, and once the walk
// has gone back from it the one below it on the list from `top` on. `class` has the lowest number that each can go back to until it has its class.
// stays: 512 for no cluster: nothing is promised of these numbers, so that each is tested against 512 anyway before it is an index.
// stays: 0 (not come to yet), a number (odd once lower was seen) or a class (above 6,144) in one u16: a class is above all numbers, so that `lower` needs no cases.
// stays: a list for each: `ahead` begins as a copy of the lists' heads, and `class` is handed on by itself.
#[derive(Clone, Copy)]
struct Walks {
    at: u16,
    top: u16,
    tried: usize,
    ahead: [u16; 513],
    up: [u16; 512],
    class: [u16; 512],
}

// stays: a length that the type says: nothing else is promised of a guess, and `.ci/contracts` asks each function for a promise.
impl Walks {
    // Lets u see what b sees, where that is lower, with 1 added: a number of its own is even. At 512 there is none.
    fn lower(&mut self, u: usize, b: usize)
        requires { b < 512 }
        ensures { length self.new.class ≡ 512 }
    {
        if u >= 512 {
            return;
        }
        self.class[u] = self.class[u].min(self.class[b] | 1);
    }

    // Comes to b in step i. For the first time it gets a number, which grows from step to step; else the one before sees what b has seen.
    fn arrive(&mut self, b: usize, i: usize)
        requires { (b < 512) × (i < 2048) }
        ensures { length self.new.class ≡ 512 }
    {
        if self.class[b] != 0 {
            self.lower(usize::from(self.at), b);
            return;
        }
        self.up[b] = self.at;
        self.class[b] = 2 * i as u16 + 2;
        self.at = b as u16;
    }

    // Gives x to those on the list from `top` on that saw nothing below `low`: it then begins with the first of the others, or 512.
    fn close(&mut self, low: u16, x: u16)
        ensures { length self.new.class ≡ 512 }
    {
        for _ in 0..512 {
            let v = usize::from(self.top);
            if v >= 512 {
                return;
            }
            if self.class[v] < low {
                return;
            }
            self.class[v] = x;
            self.top = self.up[v];
        }
    }

    // Goes back from u in step i. If u saw nothing below its own number, it and what waits above it are a class, lower than all before and higher than any
    // number; else it waits.
    fn retreat(&mut self, u: usize, i: usize)
        requires { (u < 512) × (i < 2048) }
        ensures { length self.new.class ≡ 512 }
    {
        let low = self.class[u];
        self.at = self.up[u];
        if low % 2 == 1 {
            self.up[u] = self.top;
            self.lower(usize::from(self.at), u);
            self.top = u as u16;
            return;
        }
        let x = 8192 - i as u16;
        self.class[u] = x;
        self.close(low, x);
    }

    // Step i of the guess: along the next edge, back, or on to the next walk.
    fn step(&mut self, ends: &[u16], links: &LinkTable, g: usize, i: usize)
        requires named { Named ends.now }
        requires g_bound { (g ≤ 512) × (i < 2048) }
        ensures { length self.new.class ≡ 512 }
    {
        let u = usize::from(self.at);
        if u >= 512 {
            let v = self.tried;
            if v >= g {
                return;
            }
            self.tried = v + 1;
            self.arrive(v, i);
            return;
        }
        let j = usize::from(self.ahead[u]);
        if j >= ends.len() {
            self.retreat(u, i);
            return;
        }
        self.ahead[u] = links.next[j];
        self.arrive(graph::end_at(ends, j), i);
    }
}

// Guesses a class for each of g clusters, such that those of one cycle share it and no edge goes to a lower one, by walks along the edges, in which each
// cluster sees the lowest number that it can go back to; `class` has that number until it has the class. Whoever uses the guess tries it, so that nothing
// need be known of it.
pub fn guess(ends: &[u16], links: &LinkTable, g: usize) -> [u16; 512]
    requires named { Named ends.now }
    requires g_bound { g ≤ 512 }
    ensures { length result ≡ 512 }
{
    let mut walks = Walks {
        at: 512,
        top: 512,
        tried: 0,
        ahead: links.head,
        up: [0; 512],
        class: [0; 512],
    };
    let n = ends.len() + 2 * g;
    for i in 0..n {
        walks.step(ends, links, g, i);
    }
    walks.class
}
