// Runs of the window: what the check answers at its limits and just beyond them, and what the look-up answers at the window's rim, at the world's
// ends, in columns that are not loaded, where a step can ask, and at the ends of i32. What must be written was worked out from the rules, not run; what
// a case is stands beside it. The sky and the void read 7 throughout.
#![tactic(auto)]

use std::io;
use window::{Pos, Sizes, View, Window};

// Three numbers of a place, of sizes, and the world's lowest and highest cell.
type Place = (i32, i32, i32);

type Size = (u32, u32, u32);

type Ends = (i32, i32);

fn pos((x, y, z): Place) -> Pos {
    Pos { x, y, z }
}

// A window at this place in a world with these ends.
fn window_in(origin: Place, (x, y, z): Size, (lowest, highest): Ends) -> Window {
    Window {
        origin: pos(origin),
        sizes: Sizes { x, y, z },
        lowest,
        highest,
        air: 7,
    }
}

fn check(rt: &impl Print, what: &str, case: u8, view: View<'_>) -> io::Result<()> {
    let answer = window_check::check_window(view);
    runs::say(rt, what, case, runs::told(&answer))
}

fn look(rt: &impl Print, what: &str, case: u8, view: View<'_>, p: Pos) -> io::Result<()> {
    match view.look(p) {
        Ok(Some(state)) => runs::say(rt, what, case, state),
        Ok(None) => runs::say(rt, what, case, "unloaded"),
        Err(_) => runs::say(rt, what, case, "outside"),
    }
}

// ---- the check: 2, or 0. Behind the 262,144 cells of 64 x 64 x 64 stand 4,096 columns.

// How many words are lent, and the sizes. From the fifth on as many as the sizes say, so that a size is the cause: 65 x 64 x 64 cells and 65 x 64
// columns are 270,400.
const SIZES: [(usize, Size); 8] = [
    (266240, (64, 64, 64)),
    (266239, (64, 64, 64)), // a word short
    (266241, (64, 64, 64)), // a word too many
    (262144, (64, 64, 64)), // no columns
    (270400, (65, 64, 64)),
    (270336, (64, 65, 64)),
    (270400, (64, 64, 65)),
    (0, (65536, 65536, 1)),
];

// The same of words that are all 1.
const FEW: [(usize, Size); 2] = [(1, (1, 0, 1)), (2, (1, 1, 1))];

fn check_sizes(
    rt: &impl Print,
    first: u8,
    words: &[u32],
    cases: &[(usize, Size)],
) -> io::Result<()> {
    for (case, &(count, sizes)) in (first..).zip(cases) {
        let view = View {
            words: runs::first(words, count),
            window: window_in((0, 0, 0), sizes, (0, 63)),
        };
        check(rt, "sizes", case, view)?;
    }
    Ok(())
}

// Two by three by four cells, and eight columns.
const CUBOID: Size = (2, 3, 4);

const ORIGINS: [Place; 5] = [
    (33554432, 33554432, 33554432), // 2^25
    (33554433, 0, 0), // x above 2^25
    (-33554432, -33554432, -33554432), // -2^25
    (0, -33554433, 0), // y below -2^25
    (0, 0, -2147483648), // z at -2^31
];

// Heights are of size at most 2^25, and the lowest is not over the highest. Nothing asks that the window lies in the world.
const HEIGHTS: [Ends; 9] = [
    (-33554432, 33554432), // -2^25 and 2^25
    (5, 5), // one layer of world
    (100, 200), // a world above the window
    (6, 5), // lowest over highest
    (-33554433, 0), // lowest below -2^25
    (0, 33554433), // highest above 2^25
    (33554433, 33554433), // both above 2^25
    (-2147483648, 0), // lowest at -2^31
    (0, 2147483647), // highest at 2^31 - 1
];

fn check_places(rt: &impl Print, words: &[u32]) -> io::Result<()> {
    let words = runs::first(words, 32);
    for (case, origin) in (1..).zip(ORIGINS) {
        let window = window_in(origin, CUBOID, (-33554432, 33554432));
        check(rt, "origin", case, View { words, window })?;
    }
    for (case, heights) in (1..).zip(HEIGHTS) {
        let window = window_in((0, 0, 0), CUBOID, heights);
        check(rt, "heights", case, View { words, window })?;
    }
    Ok(())
}

// A column's word is 0 or 1; a cell's is any number. The last cell, and the first, the fourth and the last column.
const WORDS: [(u32, u32, u32, u32); 6] = [
    (1, 0, 0, 0), // columns that are not loaded
    (1, 2, 1, 1), // a column word 2, the first
    (1, 1, 1, 2), // a column word 2, the last
    (1, 1, 4294967295, 1), // a column word 2^32 - 1
    (2, 1, 1, 1), // a cell 2, the last
    (4294967295, 1, 1, 1), // a cell 2^32 - 1
];

fn check_words(rt: &impl Print, words: &[u32]) -> io::Result<()> {
    let window = window_in((0, 0, 0), CUBOID, (0, 2));
    for (case, (cell, first, fourth, last)) in (1..).zip(WORDS) {
        let mut words = [1; 32];
        words[23] = cell;
        words[24] = first;
        words[27] = fourth;
        words[31] = last;
        let words = &words;
        check(rt, "words", case, View { words, window })?;
    }
    // a column short, and a column too many
    for (case, count) in (1..).zip([31, 33]) {
        let words = runs::first(words, count);
        check(rt, "columns", case, View { words, window })?;
    }
    Ok(())
}

// ---- the look-up

// In a window of 64 x 64 x 64 cells in a world that reaches 32 further at both ends; main marks the cells that are asked for by a number of their
// own. 2^32 - 1 marks nothing: it is a number as another. On x and z the column is outside. On y the column is loaded: outside the window's height,
// up to the world's ends, and air beyond them.
const LOOKS: [Place; 17] = [
    (-32, -32, -32), // the first cell
    (-31, -32, -32), // one on along x
    (-32, -31, -32), // one on along y
    (-32, -32, -31), // one on along z
    (31, 31, 31), // the last cell
    (-30, -32, -32), // 2^32 - 1
    (-29, -32, -32), // 2^32 - 2
    (-33, 0, 0), // below on x
    (0, -33, 0), // below on y
    (0, 0, -33), // below on z
    (32, 0, 0), // beyond on x
    (0, 32, 0), // beyond on y
    (0, 0, 32), // beyond on z
    (0, -64, 0), // the world's lowest cell
    (0, -65, 0), // below the lowest
    (0, 63, 0), // the world's highest cell
    (0, 64, 0), // above the highest
];

fn look_around(rt: &impl Print, words: &[u32]) -> io::Result<()> {
    let window = window_in((-32, -32, -32), (64, 64, 64), (-64, 63));
    for (case, p) in (1..).zip(LOOKS) {
        look(rt, "look", case, View { words, window }, pos(p))?;
    }
    Ok(())
}

// Two by three by two cells at 10, 4, 20, numbered 100 + place, and four columns, of which the one at x 11, z 20 is not loaded: behind the cells the
// columns stand as x 10 z 20, x 11 z 20, x 10 z 21, x 11 z 21.
const SMALL: [u32; 16] = [
    100, 101, 102, 103, 104, 105, 106, 107, 108, 109, 110, 111, 1, 0, 1, 1,
];

// The world's ends, and the cell that is asked for.
const SMALL_LOOKS: [(Ends, Place); 28] = [
    // The world ends inside the window: what the window holds above and below is not read. The middle layer is places 4 to 7.
    ((5, 5), (10, 4, 20)), // below it
    ((5, 5), (10, 5, 20)), // in it
    ((5, 5), (10, 6, 20)), // above it
    // The world ends with the window.
    ((4, 6), (10, 3, 21)), // cut at both ends, below
    ((4, 6), (10, 4, 21)), // cut at both ends, the lowest
    ((4, 6), (10, 6, 21)), // cut at both ends, the highest
    ((4, 6), (10, 7, 21)), // cut at both ends, above
    ((4, 10), (11, 3, 21)), // cut at the lower end, below
    ((4, 10), (11, 7, 21)), // cut at the lower end, above
    ((0, 6), (11, 3, 21)), // cut at the upper end, below
    ((0, 6), (11, 7, 21)), // cut at the upper end, above
    // The world lies above the window: every cell of it is void, and every cell of the world lies outside its height.
    ((100, 200), (10, 5, 20)), // in the window
    ((100, 200), (10, 99, 20)), // below the world's lowest
    ((100, 200), (10, 100, 20)), // its lowest
    ((100, 200), (10, 200, 20)), // its highest
    ((100, 200), (10, 201, 20)), // above its highest
    // A column that is not loaded is so at every height, in the window's and out of it, in the world and beyond its ends.
    ((5, 5), (11, 5, 20)), // in the window
    ((5, 5), (11, 4, 20)), // in the window and below the world
    ((0, 10), (11, 8, 20)), // out of the window's height
    ((0, 10), (11, 11, 20)), // above the world
    ((0, 10), (11, -2147483648, 20)), // at the end of i32
    ((5, 5), (10, 5, 21)), // x and z the other way round
    // A column outside is outside at every height too.
    ((5, 5), (9, 5, 20)), // below on x
    ((5, 5), (12, 5, 20)), // beyond on x
    ((5, 5), (10, 5, 19)), // below on z
    ((5, 5), (10, 5, 22)), // beyond on z
    ((5, 5), (12, 6, 20)), // above the world
    ((5, 5), (10, -2147483648, 22)), // below the world
];

fn look_small(rt: &impl Print) -> io::Result<()> {
    for (case, (ends, p)) in (1..).zip(SMALL_LOOKS) {
        let view = View {
            words: &SMALL,
            window: window_in((10, 4, 20), (2, 3, 2), ends),
        };
        look(rt, "small", case, view, pos(p))?;
    }
    Ok(())
}

// Three by one by two cells, where rows and columns differ in length: the one column that is not loaded is x 1, z 1, the fifth.
const ROW: [u32; 12] = [20, 21, 22, 23, 24, 25, 1, 1, 1, 1, 0, 1];

const ROW_LOOKS: [Place; 5] = [(1, 0, 0), (2, 0, 0), (0, 0, 1), (1, 0, 1), (2, 0, 1)];

fn look_row(rt: &impl Print) -> io::Result<()> {
    let view = View {
        words: &ROW,
        window: window_in((0, 0, 0), (3, 1, 2), (0, 0)),
    };
    for (case, p) in (1..).zip(ROW_LOOKS) {
        look(rt, "row", case, view, pos(p))?;
    }
    Ok(())
}

// The world's ends are 2^25 away. Heights beyond them are air in the window's columns; on x and z there is no such end.
const FAR_LOOKS: [Place; 7] = [
    (33554495, -33554369, 33554495), // the last cell
    (33554688, -33554432, 33554432), // 2^25 + 256 on x
    (33554432, 33554432, 33554432), // 2^25 on y
    (33554432, 33554688, 33554432), // 2^25 + 256 on y
    (33554432, -33554688, 33554432), // -2^25 - 256 on y
    (33554432, 2147483647, 33554432), // 2^31 - 1 on y
    (-2147483648, 2147483647, -2147483648), // the ends of i32
];

fn look_far(rt: &impl Print, words: &[u32]) -> io::Result<()> {
    let origin = (33554432, -33554432, 33554432);
    let window = window_in(origin, (64, 64, 64), (-33554432, 33554432));
    for (case, p) in (1..).zip(FAR_LOOKS) {
        look(rt, "far", case, View { words, window }, pos(p))?;
    }
    Ok(())
}

// Windows that no check lets through: what was not lent is outside, and so is a cell whose column's word was not.
fn look_loose(
    rt: &impl Print,
    first: u8,
    words: &[u32],
    window: Window,
    places: &[Place],
) -> io::Result<()> {
    for (case, &p) in (first..).zip(places) {
        look(rt, "unchecked", case, View { words, window }, pos(p))?;
    }
    Ok(())
}

fn look_unchecked(rt: &impl Print, words: &[u32]) -> io::Result<()> {
    let p = (-2147483648, -2147483648, -2147483648);
    let most = (4294967295, 4294967295, 4294967295);
    let all = window_in(p, most, (-2147483648, 2147483647));
    let ends = [p, (2147483646, 2147483646, 2147483646)]; // all of i32, the first cell and the last
    look_loose(rt, 1, words, all, &ends)?;
    look_loose(rt, 3, words, window_in(p, (0, 0, 0), (0, 0)), &[p])?; // no size
    let whole = window_in((0, 0, 0), (64, 64, 64), (0, 63));
    let cut = runs::first(words, 266239);
    let corner = [(63, 63, 63), (62, 63, 63)]; // a cell without its column's word, and the column beside it
    look_loose(rt, 4, cut, whole, &corner)?;
    let flat = window_in((0, 0, 0), (1, 0, 1), (0, 0));
    let heights = [(0, 0, 0), (0, 1, 0)]; // no height, in the world and above it
    look_loose(rt, 6, &[1], flat, &heights)?;
    // From 2^32 columns on none has a word, lent or not: 2^32 - 65536 columns, and 2^32, the first.
    let long = window_in((0, 0, 0), (65536, 0, 65535), (0, 0));
    look_loose(rt, 8, &[1], long, &[(0, 1, 0)])?;
    let longer = window_in((0, 0, 0), (65536, 0, 65536), (0, 0));
    look_loose(rt, 9, &[1], longer, &[(0, 1, 0)])
}

fn run(rt: &impl Print, words: &[u32]) -> io::Result<()> {
    check_sizes(rt, 1, words, &SIZES)?;
    check_sizes(rt, 9, &[1, 1], &FEW)?;
    check_places(rt, words)?;
    check_words(rt, words)?;
    look_around(rt, words)?;
    look_small(rt)?;
    look_row(rt)?;
    look_far(rt, words)?;
    look_unchecked(rt, words)
}

// Every word is 1, so that every column is loaded, but for the marked cells of 64 x 64 x 64.
fn main(rt: HostRuntime) -> io::Result<()> {
    let mut words = [1u32; 270400];
    words[0] = 10;
    words[1] = 11;
    words[2] = 4294967295;
    words[3] = 4294967294;
    words[64] = 12;
    words[4096] = 13;
    words[262143] = 14;
    run(&rt, &words)
}
