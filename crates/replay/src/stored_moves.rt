// The move over a list: `movelist box6 delta3 step ground n box6*n`, under the cap of 128 that the original's answers were made with.
use crate::spelling::{Line, VectorBits};
use boxes::{Aabb, Vec3};
use std::io;
use sweeps::{BoxList, MoveResult, ROOM, Request};

// The box whose six numbers begin at the k-th word.
fn aabb(line: Line<'_>, k: usize) -> Aabb {
    let [x0, y0, z0, x1, y1, z1] = line.floats::<6>(k);
    Aabb::new(Vec3::new(x0, y0, z0), Vec3::new(x1, y1, z1))
}

// The list with its count as the line has it, also where that is above its room.
fn list(line: Line<'_>) -> BoxList {
    let mut list = BoxList::new();
    list.count = line.number(12) as usize;
    for i in 0..list.count.min(ROOM) {
        list.boxes[i] = aabb(line, 13 + i * 6);
    }
    list
}

// Behind a refusal stands what a refused move comes to: the box as it was, moved by nothing.
pub(crate) fn run(rt: &impl Print, line: Line<'_>) -> io::Result<()> {
    let [x, y, z, step] = line.floats::<4>(7);
    let request = Request {
        aabb: aabb(line, 1),
        delta: Vec3::new(x, y, z),
        step,
        on_ground: line.flag(11),
    };
    let answer = list_moves::move_over_list(128, list(line), request);
    if let Err(refusal) = answer {
        print!(rt; "{refusal} ")?;
    }
    let moved = MoveResult::handed(request.aabb, answer);
    let min = VectorBits(moved.aabb.min);
    let max = VectorBits(moved.aabb.max);
    let way = VectorBits(moved.moved);
    let on_ground = u8::from(moved.on_ground);
    print!(rt; "box {min} {max} moved {way} ground {on_ground}")
}
