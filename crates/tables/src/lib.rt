// The lent tables: records of 20 words, boxes of six numbers, and look-ups into both.
#![tactic(auto)]

ghost use Rattle.std.specs.Prelude.{◌≡◌, from_bits, slice_index};
ghost use Rattle.std.specs.Float.{binary32};
ghost use Rattle.tables.specs.Tables.{word_at, is_registered, head_of, head_at, blocks_motion, friction_at, kind_of, liquid_of, liquid_at, boxes_at, state_boxes, float_at, shape_box_of, box_at};
ghost use Rattle.tables.specs.Kinds.{kind_read};

use base::Refusal;

/// A kind of liquid, in the order of word 2's numbers.
#[derive(Clone, Copy, Debug, PartialEq, Eq)]
pub enum LiquidKind {
    None,
    Water,
    Lava,
}

impl TryFrom<u32> for LiquidKind {
    type Error = Refusal;

    ghost try_from_gives = { λ number read. read ≡ kind_read number };

    #[tactic(auto, using(base::proofs::Cases::cases), unfolding(crate::specs::Kinds::kind_read, base::specs::Choose::choose))]
    fn try_from(number: u32) -> Result<LiquidKind, Refusal> {
        match number {
            0 => Ok(LiquidKind::None),
            1 => Ok(LiquidKind::Water),
            2 => Ok(LiquidKind::Lava),
            _ => Err(Refusal::Tables),
        }
    }
}

/// The liquid of a state: depth 0 to 7, or 8 to 15 where it is falling; 0 where there is none.
#[derive(Clone, Copy)]
pub struct LiquidState {
    pub kind: LiquidKind,
    pub depth: u32,
}

/// What a record tells of itself before its neighbours are asked: what it connects as (0 nothing), and its boxes.
#[derive(Clone, Copy)]
pub struct Head {
    pub registered: bool,
    pub kind: u32,
    pub first: u32,
    pub count: u32,
}

/// A box of a shape, in its block's coordinates.
#[derive(Clone, Copy)]
pub struct ShapeBox {
    pub x0: f64,
    pub y0: f64,
    pub z0: f64,
    pub x1: f64,
    pub y1: f64,
    pub z1: f64,
}

/// The tables that a host lends: records of 20 words, and boxes of six numbers.
#[derive(Clone, Copy)]
pub struct Tables<'a> {
    pub records: &'a [u32],
    pub shapes: &'a [f32],
}

impl<'a> Tables<'a> {
    /// Word k of a state's record: 0 where there is none, and from k = 20 on, where the next record begins.
    pub fn word(self, state: u32, k: u32) -> u32
        ensures { result ≡ word_at self.entry.records.now state k }
    {
        word(self.records, state, k)
    }

    #[tactic(auto, unfolding(crate::specs::Tables::is_registered))]
    pub fn is_registered(self, state: u32) -> bool
        ensures { result ≡ is_registered self.entry.records.now state }
    {
        self.word(state, 0) % 2 == 1
    }

    #[tactic(auto, unfolding(crate::specs::Tables::blocks_motion))]
    pub fn blocks_motion(self, state: u32) -> bool
        ensures { result ≡ blocks_motion self.entry.records.now state }
    {
        self.word(state, 0) / 2 % 2 == 1
    }

    /// Words 0, 4, 7 and 8 of a state's record. One test says that they are all there.
    pub fn head(self, state: u32) -> Head
        ensures { result ≡ head_at self.entry.records.now state }
    {
        let records = self.records;
        let i = state as usize * 20;
        if i + 8 < records.len() {
            return head_of(records[i], records[i + 4], records[i + 7], records[i + 8]);
        }
        head_of(
            self.word(state, 0),
            self.word(state, 4),
            self.word(state, 7),
            self.word(state, 8),
        )
    }

    /// A state's friction: 0.0 where there is no record, a NaN where its bits are a NaN's.
    #[tactic(auto, unfolding(crate::specs::Tables::friction_at))]
    pub fn friction(self, state: u32) -> f64
        ensures { result ≡ friction_at self.entry.records.now state }
    {
        std::num::f32_to_f64_with_nan(single_of(self.word(state, 1)))
    }

    /// The liquid of a state; an unknown state, or one that is no liquid, has none.
    #[tactic(auto, using(base::proofs::Cases::cases), unfolding(crate::specs::Tables::liquid_at, base::specs::Choose::choose))]
    pub fn liquid(self, state: u32) -> LiquidState
        ensures { result ≡ liquid_at self.entry.records.now state }
    {
        if self.is_registered(state) {
            liquid_of(self.word(state, 2), self.word(state, 3))
        } else {
            LiquidState {
                kind: LiquidKind::None,
                depth: 0,
            }
        }
    }

    /// The part of the shapes that is `count` boxes from box `first` on: nothing where it is not there whole.
    pub fn part(self, first: u32, count: u32) -> &'a [f32]
        ensures { result.now ≡ boxes_at self.entry.shapes.now first count }
    {
        boxes_at(self.shapes, first, count)
    }

    /// The boxes of a state, as a part of the lent shapes.
    pub fn boxes(self, state: u32) -> &'a [f32]
        ensures { result.now ≡ state_boxes self.entry.records.now self.entry.shapes.now state }
    {
        let count = self.word(state, 8);
        self.part(self.word(state, 7), count)
    }
}

/// The part of the shapes that is `count` boxes from box `first` on: nothing where it is not there whole.
pub fn boxes_at(shapes: &[f32], first: u32, count: u32) -> &[f32]
    ensures { result.now ≡ boxes_at shapes.now first count }
{
    if count == 0 {
        return &shapes[0..0];
    }
    let start = first as usize * 6;
    let end = start + count as usize * 6;
    if end <= shapes.len() {
        &shapes[start..end]
    } else {
        &shapes[0..0]
    }
}

/// The boxes of a state, as a part of the lent shapes: it holds on to these alone, so that the records may be let go before it.
pub fn state_boxes<'a>(records: &[u32], shapes: &'a [f32], state: u32) -> &'a [f32]
    ensures { result.now ≡ state_boxes records.now shapes.now state }
{
    let count = word(records, state, 8);
    boxes_at(shapes, word(records, state, 7), count)
}

/// Word k of record `state`: 0 where there is none, and from k = 20 on, where the next record begins.
#[tactic(auto, using(base::proofs::Cases::cases), unfolding(base::specs::Choose::choose))]
pub fn word(records: &[u32], state: u32, k: u32) -> u32
    ensures { result ≡ word_at records.now state k }
{
    if k < 20 {
        word_or_zero(records, state as usize * 20 + k as usize)
    } else {
        0
    }
}

// The word at place i: 0 where there is none.
fn word_or_zero(records: &[u32], i: usize) -> u32
    ensures { result ≡ slice_index records.now i }
{
    if i < records.len() { records[i] } else { 0 }
}

fn head_of(flags: u32, kind: u32, first: u32, count: u32) -> Head
    ensures { result ≡ head_of flags kind first count }
{
    Head {
        registered: flags % 2 == 1,
        kind,
        first,
        count,
    }
}

/// The f32 with these bits. Above the infinity's, with the sign's bit off, they are a NaN's.
pub fn single_of(bits: u32) -> f32
    ensures { result ≡ from_bits binary32 bits }
{
    if bits % 0x8000_0000 <= 0x7f80_0000 {
        return f32::from_bits(bits);
    }
    0.0 / 0.0
}

#[tactic(auto, using(base::proofs::Cases::cases), unfolding(crate::specs::Tables::liquid_of, crate::specs::Tables::kind_of, crate::specs::Kinds::kind_read, base::specs::Choose::choose))]
fn liquid_of(number: u32, depth: u32) -> LiquidState
    ensures { result ≡ liquid_of number depth }
{
    match LiquidKind::try_from(number) {
        Ok(LiquidKind::None) | Err(_) => LiquidState {
            kind: LiquidKind::None,
            depth: 0,
        },
        Ok(kind) => LiquidState { kind, depth },
    }
}

/// Number i of a shape: 0.0 where there is none.
pub fn float_at(shape: &[f32], i: usize) -> f64
    ensures { result ≡ float_at shape.now i }
{
    if i < shape.len() {
        return std::num::f32_to_f64_with_nan(shape[i]);
    }
    0.0
}

// A box of these numbers. Where each min is at or below its max no number is a NaN, and a plain cast serves.
fn box_of(x0: f32, y0: f32, z0: f32, x1: f32, y1: f32, z1: f32) -> ShapeBox
    ensures { result ≡ shape_box_of x0 y0 z0 x1 y1 z1 }
{
    if x0 <= x1 {
        if y0 <= y1 {
            if z0 <= z1 {
                return ShapeBox {
                    x0: x0 as f64,
                    y0: y0 as f64,
                    z0: z0 as f64,
                    x1: x1 as f64,
                    y1: y1 as f64,
                    z1: z1 as f64,
                };
            }
        }
    }
    ShapeBox {
        x0: std::num::f32_to_f64_with_nan(x0),
        y0: std::num::f32_to_f64_with_nan(y0),
        z0: std::num::f32_to_f64_with_nan(z0),
        x1: std::num::f32_to_f64_with_nan(x1),
        y1: std::num::f32_to_f64_with_nan(y1),
        z1: std::num::f32_to_f64_with_nan(z1),
    }
}

// A box whose numbers are not all there.
fn cut_box(shape: &[f32], k: u32) -> ShapeBox
    ensures { result ≡ box_at shape.now k }
{
    let i = k as usize * 6;
    ShapeBox {
        x0: float_at(shape, i),
        y0: float_at(shape, i + 1),
        z0: float_at(shape, i + 2),
        x1: float_at(shape, i + 3),
        y1: float_at(shape, i + 4),
        z1: float_at(shape, i + 5),
    }
}

/// Box k of a shape. One test says that all its numbers are there.
pub fn box_at(shape: &[f32], k: u32) -> ShapeBox
    ensures { result ≡ box_at shape.now k }
{
    let i = k as usize * 6;
    if i + 5 < shape.len() {
        return box_of(
            shape[i],
            shape[i + 1],
            shape[i + 2],
            shape[i + 3],
            shape[i + 4],
            shape[i + 5],
        );
    }
    cut_box(shape, k)
}
