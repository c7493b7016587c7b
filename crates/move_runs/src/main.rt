// Collection and the move through a window, run: a list at its cap and one box beyond it, windows that lack one asked cell or column, columns that are
// not loaded, and bodies beyond the world's ends. One line for each case: the refusal, then the number of boxes, or whether the move went as it must;
// what the case is stands beside it. What must be written was worked out from the rules, not run: a comment says why.
#![tactic(auto)]

use boxes::{Aabb, Vec3};
use std::io;
use sweeps::{MoveResult, Request};
use tables::Tables;
use window::{View, Window};

// States: 0 air, 1 a cell of 16 small boxes, 2 a post that reaches half a block above its cell, 3 and 4 a fence off and on to the north, 5 a cube,
// 6 to 13 a wall: 6 and 1 for north, 2 for south, 4 for its post. 14 is as air, but raises the post of a wall below it; 15 is not registered.
const RECORDS: [u32; 320] = [
    1, 0x3f19999a, 0, 0, 0, 0, 0, 0, 0, 0, 0, 0, 0, 0, 0, 0, 0, 0, 0, 0, 3, 0x3f19999a, 0, 0, 0, 0,
    0, 0, 16, 0, 0, 0, 0, 0, 0, 0, 0, 0, 0, 0, 3, 0x3f19999a, 0, 0, 0, 0, 0, 16, 1, 0, 0, 0, 0, 0,
    0, 0, 0, 0, 0, 0, 3, 0x3f19999a, 0, 0, 1, 0, 0, 16, 1, 3, 4, 3, 3, 3, 3, 3, 3, 3, 3, 0, 3,
    0x3f19999a, 0, 0, 1, 0, 0, 16, 3, 3, 4, 4, 4, 4, 4, 4, 4, 4, 4, 0, 3, 0x3f19999a, 0, 0, 0, 0,
    0, 21, 1, 0, 0, 0, 0, 0, 0, 0, 0, 0, 0, 15, 3, 0x3f19999a, 0, 0, 4, 0, 0, 16, 0, 6, 7, 6, 6, 6,
    8, 6, 6, 6, 10, 0, 3, 0x3f19999a, 0, 0, 4, 0, 0, 17, 2, 6, 7, 7, 7, 7, 9, 7, 7, 7, 11, 0, 3,
    0x3f19999a, 0, 0, 4, 0, 0, 19, 1, 8, 9, 8, 8, 6, 8, 8, 8, 8, 12, 0, 3, 0x3f19999a, 0, 0, 4, 0,
    0, 17, 3, 8, 9, 9, 9, 7, 9, 9, 9, 9, 13, 0, 3, 0x3f19999a, 0, 0, 4, 0, 0, 16, 1, 10, 11, 10,
    10, 10, 12, 10, 10, 6, 10, 0, 3, 0x3f19999a, 0, 0, 4, 0, 0, 16, 3, 10, 11, 11, 11, 11, 13, 11,
    11, 7, 11, 0, 3, 0x3f19999a, 0, 0, 4, 0, 0, 19, 2, 12, 13, 12, 12, 10, 12, 12, 12, 8, 12, 0, 3,
    0x3f19999a, 0, 0, 4, 0, 0, 16, 4, 12, 13, 13, 13, 11, 13, 13, 13, 9, 13, 0, 1, 0x3f19999a, 0,
    0, 0, 0, 1, 0, 0, 0, 0, 0, 0, 0, 0, 0, 0, 0, 0, 0, 0, 0, 0, 0, 0, 0, 0, 0, 0, 0, 0, 0, 0, 0, 0,
    0, 0, 0, 0, 0,
];

// The 16 small boxes in a row along x; a post, the two halves of its arm to the north, its arm to the south, and the post again, so that the boxes of
// each wall follow one another; a cube.
const SHAPES: [f32; 132] = [
    0.0, 0.25, 0.25, 0.0625, 0.5, 0.5, 0.0625, 0.25, 0.25, 0.125, 0.5, 0.5, 0.125, 0.25, 0.25,
    0.1875, 0.5, 0.5, 0.1875, 0.25, 0.25, 0.25, 0.5, 0.5, 0.25, 0.25, 0.25, 0.3125, 0.5, 0.5,
    0.3125, 0.25, 0.25, 0.375, 0.5, 0.5, 0.375, 0.25, 0.25, 0.4375, 0.5, 0.5, 0.4375, 0.25, 0.25,
    0.5, 0.5, 0.5, 0.5, 0.25, 0.25, 0.5625, 0.5, 0.5, 0.5625, 0.25, 0.25, 0.625, 0.5, 0.5, 0.625,
    0.25, 0.25, 0.6875, 0.5, 0.5, 0.6875, 0.25, 0.25, 0.75, 0.5, 0.5, 0.75, 0.25, 0.25, 0.8125,
    0.5, 0.5, 0.8125, 0.25, 0.25, 0.875, 0.5, 0.5, 0.875, 0.25, 0.25, 0.9375, 0.5, 0.5, 0.9375,
    0.25, 0.25, 1.0, 0.5, 0.5, 0.25, 0.0, 0.25, 0.75, 1.5, 0.75, 0.25, 0.0, 0.0, 0.75, 0.75, 0.25,
    0.25, 0.75, 0.0, 0.75, 1.5, 0.25, 0.25, 0.0, 0.75, 0.75, 1.5, 1.0, 0.25, 0.0, 0.25, 0.75, 1.5,
    0.75, 0.0, 0.0, 0.0, 1.0, 1.0, 1.0,
];

const TABLES: Tables<'static> = Tables {
    records: &RECORDS,
    shapes: &SHAPES,
};

// ---- what is run

// An area from the corner of the world's first cell on.
fn area(x: f64, y: f64, z: f64) -> Aabb {
    Aabb::new(Vec3::new(0.0, 0.0, 0.0), Vec3::new(x, y, z))
}

// A body half a block wide in the middle of the column at x 0, z 0, between two heights.
fn body(low: f64, high: f64) -> Aabb {
    Aabb::new(Vec3::new(0.25, low, 0.25), Vec3::new(0.75, high, 0.75))
}

// Three numbers of a place, of sizes, and the world's lowest and highest cell.
type Place = (i32, i32, i32);

type Size = (u32, u32, u32);

type Ends = (i32, i32);

// Ends far beyond any window here.
const FAR: Ends = (-64, 63);

// A window in a world with these ends, of air 0.
fn window_in((x, y, z): Place, (sx, sy, sz): Size, (lowest, highest): Ends) -> Window {
    window::window_of(x, y, z, sx, sy, sz, lowest, highest, 0)
}

fn collect_under(
    rt: &impl Print,
    cap: u32,
    case: u8,
    view: View<'_>,
    area: Aabb,
) -> io::Result<()> {
    let answer = moves::collect_block_boxes(TABLES, view, area, cap);
    let refusal = runs::told(&answer);
    let boxes = match &answer {
        Ok(list) => list.count,
        Err(_) => 0,
    };
    runs::say(
        rt,
        "collect",
        case,
        format_args!("refusal {refusal}, boxes {boxes}"),
    )
}

fn collect(rt: &impl Print, case: u8, view: View<'_>, area: Aabb) -> io::Result<()> {
    collect_under(rt, 128, case, view, area)
}

fn hits(rt: &impl Print, case: u8, view: View<'_>, area: Aabb) -> io::Result<()> {
    let answer = moves::collides_with_blocks(TABLES, view, area);
    let refusal = runs::told(&answer);
    let hit = if answer.unwrap_or(false) {
        "hit"
    } else {
        "no hit"
    };
    runs::say(rt, "hit", case, format_args!("refusal {refusal}, {hit}"))
}

// ---- the list's cap, and the window's rim. Behind the cells of each window stands a word for each of its columns.

// Two layers of four by two cells, the lower one below the area; its cell at x 3, z 1 holds `below`, and the upper layer 16 boxes a cell.
fn layers(below: u32) -> [u32; 24] {
    [
        0, 0, 0, 0, 0, 0, 0, below, 1, 1, 1, 1, 1, 1, 1, 1, 1, 1, 1, 1, 1, 1, 1, 1,
    ]
}

fn caps(rt: &impl Print) -> io::Result<()> {
    let window = window_in((0, -1, 0), (4, 2, 2), FAR);
    let area = area(3.97, 0.9, 1.9);
    let full = View {
        words: &layers(0),
        window,
    };
    let more = View {
        words: &layers(2),
        window,
    };
    collect(rt, 1, full, area)?; // 128 boxes
    collect(rt, 2, more, area)?; // 129 boxes
    hits(rt, 1, more, area)?; // a hit meets no 6
    collect_under(rt, 0, 30, more, area)?; // 129 boxes under a cap of 0, which is 512
    collect_under(rt, 129, 31, more, area)?; // and under one of 129
    collect_under(rt, 127, 32, full, area)?; // 128 boxes under one of 127
    collect_under(rt, 512, 33, full, area)?;
    collect_under(rt, 513, 34, full, area) // no cap
}

// Sixteen cells of air in eight loaded columns.
const EMPTY: [u32; 24] = [
    0, 0, 0, 0, 0, 0, 0, 0, 0, 0, 0, 0, 0, 0, 0, 0, 1, 1, 1, 1, 1, 1, 1, 1,
];

// A window of four by two by two such cells.
fn empty(origin: Place, ends: Ends) -> View<'static> {
    View {
        words: &EMPTY,
        window: window_in(origin, (4, 2, 2), ends),
    }
}

// The area asks for x 0 to 3, y -1 and 0, z 0 and 1. The world goes on below the window: a layer that was not shipped is outside, and no air.
fn rims(rt: &impl Print) -> io::Result<()> {
    let area = area(3.9, 0.9, 1.9);
    collect(rt, 3, empty((0, -1, 0), FAR), area)?; // every asked cell
    collect(rt, 4, empty((0, 0, 0), FAR), area)?; // the layer below is outside
    collect(rt, 5, empty((-1, -1, 0), FAR), area)?; // the last x is outside
    collect(rt, 6, empty((0, -1, -1), FAR), area)?; // the last z is outside
    hits(rt, 2, empty((0, 0, 0), FAR), area)?; // no hit before a cell outside
    collect(rt, 7, empty((0, 0, 0), (0, 63)), area) // the layer below is below the world
}

// ---- fences and walls at x 0, y 0, z 0, by the cells beside them: the post is a box, the arm to the south one, and that to the north two

// A fence alone in its cell: its window lacks the cell to the north, or holds the four cells beside it, which are asked for. Where the column to the
// north, that at x 0, z -1, is not loaded, the fence joins it, whatever its cells hold. That to the east, alike, is no north.
fn fences(rt: &impl Print) -> io::Result<()> {
    let area = area(0.9, 0.9, 0.9);
    let fence = |words| View {
        words,
        window: window_in((-1, -1, -1), (3, 2, 3), FAR),
    };
    let whole = [
        0, 0, 0, 0, 0, 0, 0, 0, 0, 0, 0, 0, 0, 3, 0, 0, 0, 0, 1, 1, 1, 1, 1, 1, 1, 1, 1,
    ];
    collect(rt, 8, fence(&whole), area)?; // a fence and its neighbours
    let short = View {
        words: &[0, 0, 0, 0, 0, 0, 0, 3, 0, 0, 0, 0, 1, 1, 1, 1, 1, 1],
        window: window_in((-1, -1, 0), (3, 2, 2), FAR),
    };
    collect(rt, 9, short, area)?; // the cell north of a fence is outside
    let north = [
        0, 0, 0, 0, 0, 0, 0, 0, 0, 0, 0, 0, 0, 3, 0, 0, 0, 0, 1, 0, 1, 1, 1, 1, 1, 1, 1,
    ];
    collect(rt, 10, fence(&north), area)?; // a fence, unloaded north
    let east = [
        0, 0, 0, 0, 0, 0, 0, 0, 0, 0, 0, 0, 0, 3, 0, 0, 0, 0, 1, 1, 1, 1, 1, 0, 1, 1, 1,
    ];
    collect(rt, 11, fence(&east), area)?; // a fence, unloaded east
    let marked = [
        0, 0, 0, 0, 0, 0, 0, 0, 0, 0, 4294967295, 0, 0, 3, 0, 0, 0, 0, 1, 1, 1, 1, 1, 1, 1, 1, 1,
    ];
    collect(rt, 12, fence(&marked), area) // a fence, 2^32 - 1 north, which is not registered
}

// One layer of three by three cells, the world's highest: a fence in the middle. A body above it asks for it, since it reaches half a block up, and
// for layers that no window need hold.
fn fences_at_highest(rt: &impl Print) -> io::Result<()> {
    let view = View {
        words: &[0, 5, 0, 0, 3, 0, 0, 0, 0, 1, 1, 1, 1, 1, 1, 1, 1, 1],
        window: window_in((-1, 0, -1), (3, 1, 3), (-64, 0)),
    };
    collect(rt, 13, view, body(1.25, 2.0))?; // over a fence at the highest cell
    hits(rt, 3, view, body(1.5, 2.0))?; // over a fence at the highest cell, no overlap
    collect(rt, 14, view, body(0.25, 0.75)) // in a fence at the highest cell, the layer below outside
}

// A wall: the cell above it, the words of the columns to its north and its east, and the world's highest cell.
const WALLS: [(u32, u32, u32, i32); 5] = [
    (0, 1, 1, 63), // air north
    (0, 0, 1, 63), // unloaded north
    (0, 0, 0, 63), // unloaded north and east
    (14, 0, 1, 1), // unloaded north, raised from above
    (14, 0, 1, 0), // at the highest cell, unloaded north
];

// Three by three cells from y -1 up: a wall in the middle of y 0 between a column to the north and a cube to the south. Joined north and south it has
// two arms, and a post where the cell above raises it; otherwise it has its post. At the highest cell the air state is above it, whatever the window
// holds there.
fn walls(rt: &impl Print) -> io::Result<()> {
    for (case, (above, north, east, highest)) in (15..).zip(WALLS) {
        let words = [
            0, 0, 0, 0, 0, 0, 0, 0, 0, 0, 0, 0, 0, 6, 0, 0, 5, 0, 0, 0, 0, 0, above, 0, 0, 0, 0, 1,
            north, 1, 1, 1, east, 1, 1, 1,
        ];
        let view = View {
            words: &words,
            window: window_in((-1, -1, -1), (3, 3, 3), (-64, highest)),
        };
        collect(rt, case, view, area(0.9, 0.9, 0.9))?;
    }
    Ok(())
}

// The world's highest cell, and the air state.
const LOW_WALLS: [(i32, u32); 3] = [
    (0, 0), // under the sky
    (0, 14), // under a sky that raises it
    (1, 0), // the cell above outside
];

// Its window holds y 0 alone, and the layer below is below the world.
fn low_walls(rt: &impl Print) -> io::Result<()> {
    for (case, (highest, air)) in (20..).zip(LOW_WALLS) {
        let view = View {
            words: &[0, 0, 0, 0, 6, 0, 0, 5, 0, 1, 0, 1, 1, 1, 1, 1, 1, 1],
            window: window_in((-1, 0, -1), (3, 1, 3), (0, highest)).with_air(air),
        };
        collect(rt, case, view, area(0.9, 0.9, 0.9))?;
    }
    Ok(())
}

// ---- moves

// The world's highest cell, the step height, and the way along x.
const STEPS: [(i32, f64, f64); 5] = [
    (63, 0.0, 1.0), // a free move
    (63, 4.5, 1.0), // a step height above 4
    (63, 0.0, 128.5), // a delta above 128
    (63, 0.75, 1.0), // a step that sweeps a cell outside
    (0, 0.75, 1.0), // a step that sweeps the sky
];

fn steps(rt: &impl Print) -> io::Result<()> {
    for (case, (highest, step, x)) in (1..).zip(STEPS) {
        let request = Request {
            aabb: area(0.5, 0.5, 0.5),
            delta: Vec3::new(x, 0.0, 0.0),
            step,
            on_ground: false,
        };
        let answer = moves::move_aabb(TABLES, empty((0, -1, 0), (-64, highest)), request, 0);
        let refusal = runs::told(&answer);
        let came_to = MoveResult::handed(request.aabb, answer);
        let went = if came_to.moved.x == x {
            "went all the way"
        } else {
            "stayed"
        };
        runs::say(rt, "step", case, format_args!("refusal {refusal}, {went}"))?;
    }
    Ok(())
}

// A move of `delta` that must come to `moved`; one that is refused goes nowhere.
fn goes(
    rt: &impl Print,
    case: u8,
    view: View<'_>,
    aabb: Aabb,
    delta: Vec3,
    moved: Vec3,
) -> io::Result<()> {
    let request = Request {
        aabb,
        delta,
        step: 0.0,
        on_ground: false,
    };
    let answer = moves::move_aabb(TABLES, view, request, 0);
    let refusal = runs::told(&answer);
    let came_to = MoveResult::handed(aabb, answer);
    let far = if came_to.moved == moved {
        ", went as far as it must"
    } else {
        ""
    };
    let ground = if came_to.on_ground { ", ground" } else { "" };
    runs::say(
        rt,
        "move",
        case,
        format_args!("refusal {refusal}{far}{ground}"),
    )
}

// One cube is all of the world and of the window: its lowest and highest cell are y 0. From 5 above a body falls 4, to the cube's top; from 5 below it
// rises 5, to its base; away from it nothing stops a body.
const BEYOND_ENDS: [(i32, (f64, f64), f64, f64); 6] = [
    (0, (5.0, 6.0), -10.0, -4.0), // a fall from above the highest
    (0, (1.0, 2.75), -0.5, 0.0), // at rest on the highest
    (0, (1.0, 2.75), 128.0, 128.0), // up from the highest
    (0, (-6.0, -5.0), 10.0, 5.0), // a rise from below the lowest
    (0, (-6.0, -5.0), -10.0, -10.0), // a fall from below the lowest
    (10, (5.0, 6.0), -10.0, 0.0), // a fall from a layer that was not shipped
];

fn beyond_ends(rt: &impl Print) -> io::Result<()> {
    for (case, (highest, (low, high), delta, moved)) in (1..).zip(BEYOND_ENDS) {
        let view = View {
            words: &[5, 1],
            window: window_in((0, 0, 0), (1, 1, 1), (0, highest)),
        };
        let delta = Vec3::new(0.0, delta, 0.0);
        goes(
            rt,
            case,
            view,
            body(low, high),
            delta,
            Vec3::new(0.0, moved, 0.0),
        )?;
    }
    Ok(())
}

// Three columns along x.
fn columns(words: &[u32; 6], origin: Place, ends: Ends) -> View<'_> {
    View {
        words,
        window: window_in(origin, (3, 1, 1), ends),
    }
}

// The middle column is not loaded: it is solid at every height, so that a body 0.25 from it goes 0.25. Where none is loaded, a body that fills the
// height of a cell meets the one cube in that cell.
fn beside_unloaded(rt: &impl Print) -> io::Result<()> {
    let view = columns(&[0, 0, 0, 1, 0, 1], (0, 0, 0), (0, 0));
    let delta = Vec3::new(2.0, 0.0, 0.0);
    let stopped = Vec3::new(0.25, 0.0, 0.0);
    goes(rt, 7, view, body(50.0, 51.0), delta, stopped)?; // an unloaded column above the highest
    goes(rt, 8, view, body(-50.5, -49.5), delta, stopped)?; // an unloaded column below the lowest
    let none = columns(&[0, 0, 0, 0, 0, 0], (0, 0, 0), (0, 100));
    collect(rt, 23, none, body(50.0, 51.0)) // in an unloaded column, out of the window's height
}

// Where the window begins, and how far a body goes along x.
const BESIDE_MISSING: [(Place, f64); 4] = [
    ((0, 0, 0), 2.0), // every asked column
    ((-1, 0, 0), 0.0), // the last column is outside
    ((1, 0, 0), 0.0), // the first column is outside
    ((0, 0, 1), 0.0), // no row is inside
];

// A move of 2 from x 0.25 to 0.75 asks for the columns 0, 1 and 2, also where all of their cells lie above the world.
fn beside_missing(rt: &impl Print) -> io::Result<()> {
    for (case, (origin, moved)) in (9..).zip(BESIDE_MISSING) {
        let view = columns(&[0, 0, 0, 1, 1, 1], origin, (0, 0));
        let delta = Vec3::new(2.0, 0.0, 0.0);
        goes(
            rt,
            case,
            view,
            body(50.0, 51.0),
            delta,
            Vec3::new(moved, 0.0, 0.0),
        )?;
    }
    Ok(())
}

// ---- the air state: what the sky reads, and 3 where it has no registered record, behind 2 and before 4

// The word of the one column, the air state, and how far the area goes on x. Above the highest the area asks for y 4 and 5: of cubes it meets the one
// at 5, of posts both, since that at 4 reaches half a block up. An area that is wider than 16 is 4.
const SKIES: [(u32, u32, f64); 9] = [
    (1, 0, 0.75), // a sky of air
    (1, 5, 0.75), // a sky of cubes
    (1, 2, 0.75), // a sky of posts
    (1, 15, 0.75), // an air state that is not registered
    (1, 16, 0.75), // an air state beyond the records
    (1, 4294967295, 0.75), // an air state 2^32 - 1
    (2, 16, 0.75), // no such air state, and a column word 2
    (1, 16, 16.5), // no such air state, and an area too wide
    (1, 0, 16.5), // an area too wide
];

fn skies(rt: &impl Print) -> io::Result<()> {
    for (case, (column, air, x)) in (24..).zip(SKIES) {
        let view = View {
            words: &[0, column],
            window: window_in((0, 0, 0), (1, 1, 1), (0, 0)).with_air(air),
        };
        let area = Aabb::new(Vec3::new(0.25, 5.0, 0.25), Vec3::new(x, 5.5, 0.75));
        collect(rt, case, view, area)?;
    }
    Ok(())
}

fn main(rt: HostRuntime) -> io::Result<()> {
    caps(&rt)?;
    rims(&rt)?;
    fences(&rt)?;
    fences_at_highest(&rt)?;
    walls(&rt)?;
    low_walls(&rt)?;
    steps(&rt)?;
    beyond_ends(&rt)?;
    beside_unloaded(&rt)?;
    beside_missing(&rt)?;
    skies(&rt)
}
