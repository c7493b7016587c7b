// Bodies: what a body, its motion and the rules are, the numbers that a host hands in for them, and the limits on those. numbers.rt reads them
// out of lent numbers, and limits.rt has what is refused.
#![tactic(auto)]

ghost use Rattle.std.specs.Prelude.{◌≡◌};
ghost use Rattle.bodies.specs.Cases.{model_read, stage_read, ground_read};
ghost use Rattle.bodies.specs.Body.{model_of, stage_of, friction_of, is_yes, yes_number, flap_of, body_of, motion_of, with_cap, is_item, is_living, is_falling_block};

use base::Refusal;
use boxes::Vec3;

mod limits;
mod numbers;

pub use limits::{check_numbers, is_position, rules_fit};
pub use numbers::{
    body_from, check_body, lengths_fit, motion_from, number_at, rules_from, vec_from,
};

// Motion rules that are no parameters.
#[derive(Clone, Copy, Debug, PartialEq, Eq)]
pub enum Model {
    Item,
    Living,
    FallingBlock,
    Other,
}

// When gravity comes, beside the move and the drag.
#[derive(Clone, Copy, Debug, PartialEq, Eq)]
pub enum Stage {
    BeforeMove,
    AfterMove,
    AfterDrag,
}

// Extra friction on the ground: none, or that of the block below.
#[derive(Clone, Copy, Debug, PartialEq, Eq)]
pub enum Ground {
    None,
    Block,
}

/// A body. `offset` is the network offset, `vertical` and `horizontal` are the drags, `step` is the step height, and `flap` a living body's wing flap
/// drag.
#[derive(Clone, Copy)]
pub struct Body {
    pub width: f64,
    pub height: f64,
    pub offset: f64,
    pub gravity: f64,
    pub vertical: f64,
    pub horizontal: f64,
    pub step: f64,
    pub flap: Option<f64>,
    pub model: Model,
    pub stage: Stage,
    pub friction: Ground,
}

// A body as a host hands it in: model, stage and friction by number, `flaps` 1 where the flap is present.
#[derive(Clone, Copy)]
pub struct BodyNumbers {
    pub width: f64,
    pub height: f64,
    pub offset: f64,
    pub gravity: f64,
    pub vertical: f64,
    pub horizontal: f64,
    pub step: f64,
    pub flap: f64,
    pub flaps: u32,
    pub model: u32,
    pub stage: u32,
    pub friction: u32,
}

// What holds for every body: a living body's default friction and sample depth, gravity and drags in liquids, the air state, and
// how many boxes a move may collect, 0 for as many as its list has room for.
#[derive(Clone, Copy)]
pub struct Rules {
    pub friction: f64,
    pub depth: f64,
    pub gravity: f64,
    pub water: f64,
    pub lava: f64,
    pub air: u32,
    pub cap: u32,
}

#[derive(Clone, Copy)]
pub struct Motion {
    pub feet: Vec3,
    pub velocity: Vec3,
    pub on_ground: bool,
}

// A motion as a host hands it in: ground 1 or 0.
#[derive(Clone, Copy)]
pub struct MotionNumbers {
    pub feet: Vec3,
    pub velocity: Vec3,
    pub on_ground: u32,
}

impl TryFrom<u32> for Model {
    type Error = Refusal;

    ghost try_from_gives = { λ number read. read ≡ model_read number };

    #[tactic(auto, using(base::proofs::Cases::cases), unfolding(crate::specs::Cases::model_read, base::specs::Choose::choose))]
    fn try_from(number: u32) -> Result<Model, Refusal> {
        match number {
            0 => Ok(Model::Item),
            1 => Ok(Model::Living),
            2 => Ok(Model::FallingBlock),
            3 => Ok(Model::Other),
            _ => Err(Refusal::Number),
        }
    }
}

impl TryFrom<u32> for Stage {
    type Error = Refusal;

    ghost try_from_gives = { λ number read. read ≡ stage_read number };

    #[tactic(auto, using(base::proofs::Cases::cases), unfolding(crate::specs::Cases::stage_read, base::specs::Choose::choose))]
    fn try_from(number: u32) -> Result<Stage, Refusal> {
        match number {
            0 => Ok(Stage::BeforeMove),
            1 => Ok(Stage::AfterMove),
            2 => Ok(Stage::AfterDrag),
            _ => Err(Refusal::Number),
        }
    }
}

impl TryFrom<u32> for Ground {
    type Error = Refusal;

    ghost try_from_gives = { λ number read. read ≡ ground_read number };

    #[tactic(auto, using(base::proofs::Cases::cases), unfolding(crate::specs::Cases::ground_read, base::specs::Choose::choose))]
    fn try_from(number: u32) -> Result<Ground, Refusal> {
        match number {
            0 => Ok(Ground::None),
            1 => Ok(Ground::Block),
            _ => Err(Refusal::Number),
        }
    }
}

impl Model {
    pub fn is_item(self) -> bool
        ensures { result ≡ is_item self }
    {
        matches!(self, Model::Item)
    }

    pub fn is_living(self) -> bool
        ensures { result ≡ is_living self }
    {
        matches!(self, Model::Living)
    }

    pub fn is_falling_block(self) -> bool
        ensures { result ≡ is_falling_block self }
    {
        matches!(self, Model::FallingBlock)
    }
}

impl Rules {
    /// The same rules with this cap.
    pub fn with_cap(self, cap: u32) -> Rules
        ensures { result ≡ with_cap self cap }
    {
        Rules { cap, ..self }
    }
}

#[tactic(auto, using(base::proofs::Cases::cases), unfolding(crate::specs::Body::model_of, crate::specs::Cases::model_read, base::specs::Choose::choose))]
fn model_of(number: u32) -> Model
    ensures { result ≡ model_of number }
{
    Model::try_from(number).unwrap_or(Model::Other)
}

#[tactic(auto, using(base::proofs::Cases::cases), unfolding(crate::specs::Body::stage_of, crate::specs::Cases::stage_read, base::specs::Choose::choose))]
fn stage_of(number: u32) -> Stage
    ensures { result ≡ stage_of number }
{
    Stage::try_from(number).unwrap_or(Stage::AfterDrag)
}

#[tactic(auto, using(base::proofs::Cases::cases), unfolding(crate::specs::Body::friction_of, crate::specs::Cases::ground_read, base::specs::Choose::choose))]
fn friction_of(number: u32) -> Ground
    ensures { result ≡ friction_of number }
{
    Ground::try_from(number).unwrap_or(Ground::None)
}

#[tactic(auto, unfolding(crate::specs::Body::is_yes))]
fn is_yes(number: u32) -> bool
    ensures { result ≡ is_yes number }
{
    number == 1
}

/// 1 for yes, 0 for no.
#[tactic(auto, using(base::proofs::Cases::cases), unfolding(crate::specs::Body::yes_number, base::specs::Choose::choose))]
pub fn yes_number(b: bool) -> u32
    ensures { result ≡ yes_number b }
{
    if b { 1 } else { 0 }
}

#[tactic(auto, using(base::proofs::Cases::cases), unfolding(crate::specs::Body::flap_of, base::specs::Choose::choose))]
fn flap_of(present: u32, drag: f64) -> Option<f64>
    ensures { result ≡ flap_of present drag }
{
    is_yes(present).then_some(drag)
}

/// The body that a host's numbers mean.
#[tactic(auto, unfolding(crate::specs::Body::body_of))]
pub fn body_of(b: BodyNumbers) -> Body
    ensures { result ≡ body_of b }
{
    Body {
        width: b.width,
        height: b.height,
        offset: b.offset,
        gravity: b.gravity,
        vertical: b.vertical,
        horizontal: b.horizontal,
        step: b.step,
        flap: flap_of(b.flaps, b.flap),
        model: model_of(b.model),
        stage: stage_of(b.stage),
        friction: friction_of(b.friction),
    }
}

/// The motion that a host's numbers mean.
#[tactic(auto, unfolding(crate::specs::Body::motion_of))]
pub fn motion_of(m: MotionNumbers) -> Motion
    ensures { result ≡ motion_of m }
{
    Motion {
        feet: m.feet,
        velocity: m.velocity,
        on_ground: is_yes(m.on_ground),
    }
}
