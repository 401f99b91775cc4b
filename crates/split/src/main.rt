// The program `split`: a kit text on standard input, its split or a refusal on standard output, reasons on standard error.
#![tactic(auto)]

use console::input::SPACE;
use console::kits::{KitSpace, front};
use console::{Console, Plain};
use graph::Problem;
use partition::Summary;
use reasons::graphs::KitReason;

fn say_split(console: Console<'_>, summary: Summary, parts: &[u16]) {
    let mut buf = [0u8; 16384];
    let Summary {
        cut,
        rounds,
        rung,
        moves,
    } = summary;
    let written = answer_text::write_split(&mut buf, cut as usize, rounds, rung, moves, parts);
    console.answer(written, &buf);
}

fn split(console: Console<'_>, kit: Problem<'_>) {
    let mut table = [0u16; 512];
    let mut rows = [0u16; 4608];
    match partition::split(kit, &mut table, &mut rows) {
        Ok(summary) => say_split(console, summary, front(&table, kit.lists.costs.len())),
        Err(refusal) => console.refuse(refusal, KitReason { kit, refusal }),
    }
}

fn run(console: Console<'_>, text: &[u8]) {
    let mut space = KitSpace::new();
    if let Some(kit) = console.kit_of(&mut space, text) {
        split(console, kit);
    }
}

fn main(rt: HostRuntime) {
    let console = Console::of(&rt, b"split");
    if console::has_argument(&rt, 1) {
        console.say(
            b"usage: split < KITFILE\nReads a kit text on standard input. Prints the cut, the rounds kept (rungs), the rung that was cut (cutat) and the moves that lowered\nthe cut (moves; those that only even out stages are not counted), then each block's stage.\n",
        );
        return;
    }
    let mut space = [0u8; SPACE];
    match console::input::read_all(&mut rt.stdin(), &mut space) {
        Ok(text) => run(console, text),
        Err(why) => console.fail(b"standard input cannot be read", Plain(why)),
    }
}
