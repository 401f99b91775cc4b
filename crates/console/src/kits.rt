// A kit read from its text.
use graph::{Lists, Problem};
use validity::Refusal;

// The first n entries of a list, or all of them.
pub fn front<T>(list: &[T], n: usize) -> &[T] {
    &list[..n.min(list.len())]
}

// Room for the lists of any kit.
// stays: lists of full length, since there is no heap, and side by side, as `kit_text::read_kit` is lent them.
#[derive(Clone, Copy)]
pub struct KitSpace {
    costs: [u16; 512],
    starts: [u16; 1024],
    ends: [u16; 1024],
    widths: [u16; 1024],
}

impl KitSpace {
    pub fn new() -> KitSpace {
        KitSpace {
            costs: [0; 512],
            starts: [0; 1024],
            ends: [0; 1024],
            widths: [0; 1024],
        }
    }

    // A text's kit, with its lists at their own lengths.
    pub fn read(&mut self, text: &[u8]) -> Result<Problem<'_>, Refusal> {
        let figures = kit_text::read_kit(
            text,
            &mut self.costs,
            &mut self.starts,
            &mut self.ends,
            &mut self.widths,
        )?;
        Ok(Problem {
            lists: Lists {
                costs: front(&self.costs, figures.blocks),
                starts: front(&self.starts, figures.wires),
                ends: front(&self.ends, figures.wires),
                widths: front(&self.widths, figures.wires),
            },
            k: figures.stages as usize,
            bound: figures.limit,
        })
    }
}
