// Face cover: `cover n box6*n`, of at most 16 boxes.
use crate::spelling::Line;
use std::io;

pub(crate) fn run(rt: &impl Print, line: Line<'_>) -> io::Result<()> {
    let boxes = line.singles::<96>(2);
    let count = line.number(1) as usize % 17 * 6;
    print!(rt; "{}", cover::full_faces(boxes.get(..count).unwrap_or(&[])))
}
