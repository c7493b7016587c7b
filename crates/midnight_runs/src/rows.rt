// The rows that the runs hand over: bodies by their number, each a change of case A.

// Case A, with a fresh fall record.
const CASE: [f64; 21] = [
    0.5, 1.25, 0.5, 0.25, 0.0, 0.0, 1.0, 1.0, 0.0, 0.5, 0.5, 0.5, 0.0, 0.0, 0.6, 0.0, 0.0, 0.8,
    0.5, 0.0, 0.0,
];

// Case A with its feet here, and of this width and height.
fn sized(x: f64, y: f64, z: f64, size: f64) -> [f64; 21] {
    let mut row = CASE;
    row[0] = x;
    row[1] = y;
    row[2] = z;
    row[6] = size;
    row[7] = size;
    row
}

fn numbers_of(body: usize) -> [f64; 21] {
    let mut row = CASE;
    match body {
        2 | 3 | 5 | 7 => row[4] = 65.0,
        6 => row[19] = -1.0,
        8 => row[0] = 5.5,
        9 => return sized(2.0, 1.5, 2.0, 2.0), // among small boxes
        10 => return sized(1.5, 1.25, 1.5, 0.25), // in water
        _ => {}
    }
    row
}

// The window that a body names.
fn window_of(body: usize) -> u32 {
    match body {
        1 => 1,
        2 => 6,
        3 => 2,
        4 => 3,
        9 => 4,
        10 => 5,
        _ => 0,
    }
}

// 3 other, 0 item; 4 is no model.
fn model_of(body: usize) -> u32 {
    match body {
        5 => 4,
        10 => 0,
        _ => 3,
    }
}

// The body in a row: as it comes, or the last of 13 first.
fn body_in(row: usize, back: bool) -> usize {
    if back && row <= 12 { 12 - row } else { row }
}

pub(crate) fn numbers(row: usize, back: bool) -> [f64; 21] {
    numbers_of(body_in(row, back))
}

// An older caller's nine words.
pub(crate) fn words(row: usize, back: bool) -> [u32; 9] {
    let body = body_in(row, back);
    [window_of(body), 0, 0, 0, model_of(body), 0, 0, 0, 0]
}

// The same with a cap behind them: 128.
pub(crate) fn capped_words(row: usize, back: bool) -> [u32; 10] {
    let body = body_in(row, back);
    [window_of(body), 0, 0, 0, model_of(body), 0, 0, 0, 0, 128]
}
