// Why a table is refused.
use crate::cycles::write_cycle;
use crate::graphs::{KitReason, WRONG_LENGTH};
use graph::{Lists, Problem};
use std::fmt;
use validity::{Cause, Refusal};

// The refusals of inspection.
#[derive(Clone, Copy)]
pub struct TableReason<'a> {
    pub kit: Problem<'a>,
    pub parts: &'a [u16],
    pub refusal: Refusal,
}

impl fmt::Display for TableReason<'_> {
    fn fmt<W: fmt::Write>(&self, f: &mut fmt::Formatter<W>) -> fmt::Result {
        let TableReason {
            kit,
            parts,
            refusal,
        } = *self;
        let Problem { lists, k, bound } = kit;
        let place = refusal.place;
        match refusal.cause {
            Cause::Room => {
                let entries = parts.len();
                let n = lists.costs.len();
                write!(
                    f,
                    "the table has {entries} entries, but the kit has {n} blocks"
                )
            }
            Cause::Entry => write_entry(f, parts, place, k),
            Cause::Empty => write!(f, "stage {place} has no block"),
            Cause::Over => {
                let cost = cost_of(lists.costs, parts, place);
                write!(
                    f,
                    "stage {place} has a cost of {cost}, above the limit {bound}"
                )
            }
            Cause::PartCycle => write_part_cycle(f, lists, parts, place),
            _ => f.write(KitReason { kit, refusal }),
        }
    }
}

fn write_entry<W: fmt::Write>(
    f: &mut fmt::Formatter<W>,
    parts: &[u16],
    v: usize,
    k: usize,
) -> fmt::Result {
    let Some(part) = parts.get(v) else {
        return f.write_str(WRONG_LENGTH);
    };
    let line = v.saturating_add(2);
    write!(
        f,
        "in the table block {v} (line {line}) has stage {part}, but stages are numbered from 0 and the stage count is {k}"
    )
}

fn write_part_cycle<W: fmt::Write>(
    f: &mut fmt::Formatter<W>,
    lists: Lists<'_>,
    parts: &[u16],
    part: usize,
) -> fmt::Result {
    let Ok(through) = u16::try_from(part) else {
        return f.write_str(WRONG_LENGTH);
    };
    f.write_str("the stages form a loop: stage ")?;
    let part_of = |v: u16| parts.get(usize::from(v)).copied();
    write_cycle(f, through, lists, part_of)
}

fn cost_of(costs: &[u16], parts: &[u16], part: usize) -> usize {
    let own = costs
        .iter()
        .zip(parts)
        .filter(|(_, p)| usize::from(**p) == part);
    own.fold(
        0,
        |sum: usize, (cost, _)| sum.saturating_add(usize::from(*cost)),
    )
}

// The cut found is not the one that a saved table states.
#[derive(Clone, Copy)]
pub struct CutsDiffer {
    pub found: u32,
    pub saved: u32,
}

impl fmt::Display for CutsDiffer {
    fn fmt<W: fmt::Write>(&self, f: &mut fmt::Formatter<W>) -> fmt::Result {
        write!(
            f,
            "the table's split line says cut {}, but the cut found is {}",
            self.saved, self.found
        )
    }
}
