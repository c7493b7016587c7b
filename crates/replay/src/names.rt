// Identifiers: `ident ID wall fence`, and `post ID wall fence hanging torch wallpost open direction`, where 255 is absent.
use crate::spelling::Line;
use idents::{Post, Properties};
use std::io;

pub(crate) fn ident(rt: &impl Print, line: Line<'_>) -> io::Result<()> {
    let connects = idents::connects_as(line.word(1), line.flag(2), line.flag(3));
    print!(rt; "{}", idents::connects_number(connects))
}

pub(crate) fn post(rt: &impl Print, line: Line<'_>) -> io::Result<()> {
    let properties = Properties {
        wall_north: line.flag(2),
        fence_north: line.flag(3),
        hanging: line.number(4),
        torch: line.number(5),
        wall_post: line.number(6),
        open: line.number(7),
        direction: line.number(8),
    };
    match idents::wall_post(line.word(1), properties) {
        Post::BadDirection => print!(rt; "panics"),
        post => print!(rt; "{}", idents::post_number(post)),
    }
}
