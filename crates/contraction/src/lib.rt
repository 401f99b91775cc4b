// Joining clusters in pairs: the rules, the next row, and the law that no cycle comes of it.
#![tactic(auto)]

ghost use Rattle.std.specs.Prelude.{◌<◌};
ghost use Rattle.contraction.specs.Next.{joined_row};
ghost use Rattle.contraction.specs.Promises.{mate_in, Mated, Short, NamesGiven, Joined, Renamed};

// Gives c and its mate the next number, where c has none. Answers how many numbers there are.
// stays: 0 for none: `next_row` reads a name that is given by then, and with an `Option` would need a case that cannot be.
fn name(mates: &[u16; 512], c: usize, count: usize, names: &mut [u16; 512]) -> usize
    requires mated { Mated mates.now × (c < 512) }
    requires count_bound { count < 512 }
    ensures { NamesGiven mates.now c count names.old names.new result }
{
    if names[c] != 0 {
        return count;
    }
    let x = count + 1;
    let d = usize::from(mates[c]);
    names[c] = x as u16;
    names[d] = x as u16;
    x
}

// The row that joining each cluster with its mate leaves, numbered in the order of lowest vertices, and the new number of each cluster.
// Answers how many clusters it has.
pub fn next_row(
    row: &[u16],
    mates: &[u16; 512],
    map: &mut [u16; 512],
    out: &mut [u16; 512],
) -> usize
    requires short { Short row.now × Mated mates.now }
    ensures joined { Joined row.now (mate_in mates.now) out.old out.new result }
    ensures renamed { Renamed row.now (joined_row row.now (mate_in mates.now)) map.new }
{
    *map = [0; 512];
    let mut names = [0; 512];
    let mut count: usize = 0;
    for (v, x) in row.iter().enumerate() {
        let c = usize::from(*x);
        count = name(mates, c, count, &mut names);
        let x = names[c] - 1;
        out[v] = x;
        map[c] = x;
    }
    count
}
