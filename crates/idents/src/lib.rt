// Module 3, identifiers: what a block connects as, and whether it raises the post of a wall below it, from the bytes of its identifier and
// its properties. A host that fills tables asks these once for a state.
#![tactic(auto)]

ghost use Rattle.std.specs.Prelude.{◌≡◌};
ghost use Rattle.idents.specs.Connects.{connects_number, connects_as};
ghost use Rattle.idents.specs.Posts.{post_number, raised, facing, is_wooden_trapdoor, wall_post_of};

use suffixes::{contains, ends_with, equals};

#[derive(Clone, Copy, Debug, PartialEq, Eq)]
pub enum Connects {
    Nothing,
    Fence,
    NetherBrickFence,
    Thin,
    Wall,
}

#[derive(Clone, Copy, Debug, PartialEq, Eq)]
pub enum Post {
    Never,
    Always,
    North,
    East,
    South,
    West,
    // A trapdoor's direction is none of the four: the Rust panics.
    BadDirection,
}

// A state's properties as the wall post rule reads them: the presence of the two north properties, and values, 255 where a property is absent.
// A torch's facing is 1 for top and 0 for another. They stay the numbers that the definitions and the hosts have.
#[derive(Clone, Copy, Debug, PartialEq, Eq)]
pub struct Properties {
    pub wall_north: bool,
    pub fence_north: bool,
    pub hanging: u32,
    pub torch: u32,
    pub wall_post: u32,
    pub open: u32,
    pub direction: u32,
}

#[tactic(auto, using(base::proofs::Cases::cases), unfolding(crate::specs::Connects::connects_as, crate::specs::Connects::family, base::specs::Choose::choose))]
pub fn connects_as(id: &[u8], has_wall_north: bool, has_fence_north: bool) -> Connects
    ensures { connects_number result ≡ connects_as id.now has_wall_north has_fence_north }
{
    if has_wall_north {
        Connects::Wall
    } else if !has_fence_north {
        Connects::Nothing
    } else if ends_with(id, b"_fence") {
        if equals(id, b"minecraft:nether_brick_fence") {
            Connects::NetherBrickFence
        } else {
            Connects::Fence
        }
    } else if ends_with(id, b"glass_pane") || ends_with(id, b"_bars") {
        Connects::Thin
    } else {
        Connects::Nothing
    }
}

// Document 01's number of what a block connects as: word 4.
pub fn connects_number(c: Connects) -> u32
    ensures { result ≡ connects_number c }
{
    match c {
        Connects::Nothing => 0,
        Connects::Fence => 1,
        Connects::NetherBrickFence => 2,
        Connects::Thin => 3,
        Connects::Wall => 4,
    }
}

#[tactic(auto, using(base::proofs::Cases::cases), unfolding(crate::specs::Posts::is_wooden_trapdoor))]
fn is_wooden_trapdoor(id: &[u8]) -> bool
    ensures { result ≡ is_wooden_trapdoor id.now }
{
    ends_with(id, b"trapdoor")
        && !equals(id, b"minecraft:iron_trapdoor")
        && !contains(id, b"copper")
}

#[tactic(auto, using(base::proofs::Cases::cases), unfolding(crate::specs::Posts::facing, base::specs::Choose::choose))]
fn facing_side(direction: u32) -> Post
    ensures { result ≡ facing direction }
{
    match direction {
        0 => Post::East,
        1 => Post::West,
        2 => Post::South,
        3 => Post::North,
        _ => Post::BadDirection,
    }
}

#[tactic(auto, using(base::proofs::Cases::cases), unfolding(base::specs::Choose::choose))]
fn raised_if(raises: bool) -> Post
    ensures { result ≡ raised raises }
{
    if raises { Post::Always } else { Post::Never }
}

// The wall post rule. Of the rules that apply the first decides: lantern, standing sign, torch, wall, open wooden trapdoor.
#[tactic(auto, using(base::proofs::Cases::cases), unfolding(crate::specs::Posts::wall_post_of, crate::specs::Posts::post_rule, base::specs::Choose::choose))]
pub fn wall_post(id: &[u8], p: Properties) -> Post
    ensures { post_number result ≡ wall_post_of id.now p }
{
    if ends_with(id, b"lantern") {
        raised_if(p.hanging == 0)
    } else if ends_with(id, b"standing_sign") {
        Post::Always
    } else if p.torch != 255 {
        raised_if(p.torch == 1)
    } else if connects_as(id, p.wall_north, p.fence_north) == Connects::Wall {
        raised_if(p.wall_post == 1)
    } else if is_wooden_trapdoor(id) && p.open == 1 {
        facing_side(p.direction)
    } else {
        Post::Never
    }
}

// Document 01's number of a wall post rule: word 6, or 255 where the Rust panics.
pub fn post_number(p: Post) -> u32
    ensures { result ≡ post_number p }
{
    match p {
        Post::Never => 0,
        Post::Always => 1,
        Post::North => 2,
        Post::East => 3,
        Post::South => 4,
        Post::West => 5,
        Post::BadDirection => 255,
    }
}
