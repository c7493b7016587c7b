// Whether so many blocks are a scene, and a buffer of this size has room for them.
#![tactic(auto)]

ghost use Rattle.std.specs.Prelude.{◌≡◌};
ghost use Rattle.base.specs.Refusals.{verdict};
ghost use Rattle.scene_room.specs.Room.{room_for};

use base::Refusal;

/// First that a scene has so many blocks, else `TooManyBlocks`; then that a buffer of so many bytes has room for them, else `Room`.
#[tactic(auto, using(base::proofs::Cases::cases), unfolding(crate::specs::Room::room_for, base::specs::Choose::choose))]
pub fn check_room(blocks: usize, size: usize) -> Result<(), Refusal>
    ensures { verdict result ≡ room_for blocks size }
{
    if blocks > 128 {
        return Err(Refusal::TooManyBlocks);
    }
    if blocks * 512 > size {
        return Err(Refusal::Room);
    }
    Ok(())
}
