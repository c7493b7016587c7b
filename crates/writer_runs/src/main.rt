// Runs of the writer: a scene of 128 blocks and one of 129, a buffer that is a byte short, both at once, each refusal before those behind it, and a flap
// that is present and one that is not. What must be written was worked out from the rules, not run: a comment says why.
#![tactic(auto)]

use base::Refusal;
use std::io;
use tables::Tables;
use window::{View, Window};

// One state: registered, of friction 0.6, without boxes.
const RECORDS: [u32; 20] = [
    1,
    0x3f19_999a,
    0,
    0,
    0,
    0,
    0,
    0,
    0,
    0,
    0,
    0,
    0,
    0,
    0,
    0,
    0,
    0,
    0,
    0,
];

// State 0 everywhere, and no column loaded: for 129 blocks. The first 15,360 are for 128, and without the last there is a word too few.
type Cells = [u32; 15488];

// What is handed over: a body of no model of its own in the air of state 0, at this x, of this width, with a flap of 0.25 or without.
#[derive(Clone, Copy)]
struct Scene<'a> {
    records: &'a [u32],
    view: View<'a>,
    x: f64,
    width: f64,
    flap: bool,
}

impl Scene<'_> {
    fn write(self, out: &mut [u8]) -> Result<usize, Refusal> {
        let tables = Tables {
            records: self.records,
            shapes: &[],
        };
        let numbers = [
            self.x, 1.25, 0.5, 0.25, 0.0, 0.0, self.width, 1.0, 0.0, 0.5, 0.5, 0.5, 0.25, 0.0, 0.5,
            0.5, 0.5, 0.5, 0.5,
        ];
        let words = [0, 3, 0, 0, u32::from(self.flap), 0, 0];
        writer::write_scene(tables, self.view, &numbers, &words, 7, out)
    }

    // The call: its refusal and how many bytes it wrote, and what the buffer's first and last byte are then.
    fn say(self, rt: &impl Print, name: &str, out: &mut [u8]) -> io::Result<()> {
        let answer = self.write(out);
        let told = runs::told(&answer);
        let bytes = answer.unwrap_or(0);
        let first = out.first().copied().unwrap_or(0);
        let last = out.last().copied().unwrap_or(0);
        println!(rt; "{name}: refused {told}, bytes {bytes}, first {first}, last {last}")
    }
}

fn window_of(x: u32, y: u32, z: u32) -> Window {
    window::window_of(0, 0, 0, x, y, z, 0, 63, 0)
}

// ---- room: 16 x 59 x 16 are 15,104 cells and 256 columns, 15,360 words, which fill 125 blocks; with the body's, the records' and the window's block that
// is 128. 11 x 63 x 22 are 15,246 cells and 242 columns: 15,488 words fill 126 blocks, so 129 in all.

fn of_128(cells: &Cells) -> Scene<'_> {
    Scene {
        records: &RECORDS,
        view: View {
            words: &cells[..15360],
            window: window_of(16, 59, 16),
        },
        x: 0.5,
        width: 1.0,
        flap: false,
    }
}

fn of_129(cells: &Cells) -> Scene<'_> {
    Scene {
        records: &RECORDS,
        view: View {
            words: cells,
            window: window_of(11, 63, 22),
        },
        x: 0.5,
        width: 1.0,
        flap: false,
    }
}

// 83 is the mark's first byte.
fn write_rooms(rt: &impl Print, cells: &Cells) -> io::Result<()> {
    let few = of_128(cells);
    let many = of_129(cells);
    few.say(rt, "128 blocks, and a byte more", &mut [170; 65537])?;
    few.say(rt, "128 blocks, a byte short", &mut [170; 65535])?;
    many.say(rt, "129 blocks", &mut [170; 66048])?;
    many.say(rt, "129 blocks, a byte short", &mut [170; 66047])
}

// ---- what comes first: 129 blocks, no buffer, and then what the name says besides

// A table of one word, which is no state, a window of a word too few, a width of 0, and a place beyond the limit.
fn write_wrong(rt: &impl Print, cells: &Cells) -> io::Result<()> {
    let sound = Scene {
        x: 33554432.0,
        ..of_129(cells)
    };
    let place = Scene {
        x: 33554433.0,
        ..sound
    };
    let width = Scene {
        width: 0.0,
        ..place
    };
    let window = Scene {
        view: View {
            words: &cells[..15487],
            ..width.view
        },
        ..width
    };
    let tables = Scene {
        records: &[0],
        ..window
    };
    tables.say(rt, "tables, window, width and place", &mut [])?;
    window.say(rt, "window, width and place", &mut [])?;
    width.say(rt, "width and place", &mut [])?;
    place.say(rt, "place", &mut [])?;
    sound.say(rt, "none of these", &mut [])
}

// ---- the flap: 0.25 has the bits 3fd0000000000000, whose highest byte stands at 4 * (3 + 25) + 3 of the first block

fn write_flap(rt: &impl Print, name: &str, scene: Scene<'_>) -> io::Result<()> {
    let mut out = [170; 66048];
    scene.say(rt, name, &mut out)?;
    println!(rt; "its highest byte: {}", out[115])
}

fn main(rt: HostRuntime) -> io::Result<()> {
    let cells = [0; 15488];
    write_rooms(&rt, &cells)?;
    write_wrong(&rt, &cells)?;
    let without = of_128(&cells);
    let with = Scene {
        flap: true,
        ..without
    };
    write_flap(&rt, "with a flap", with)?;
    write_flap(&rt, "without one", without)
}
