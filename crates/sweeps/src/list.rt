// The capped list: one record, room for 512 boxes and a count. It is built by value; a loop that fills it does so in place, since
// a call that takes and hands back a list copies it.
ghost use Rattle.std.specs.Prelude.{◌≡◌, min};
ghost use Rattle.sweeps.specs.Lists.{room, is_cap, cap_of, list_of, empty_list};

use crate::{BoxList, ROOM};
use boxes::{Aabb, vectors};

// How many boxes of a list count: a count above the room counts as the room.
pub fn counted(count: usize) -> usize
    ensures { result ≡ min count room }
{
    count.min(ROOM)
}

// Whether a cap is no 3.
#[tactic(auto, unfolding(crate::specs::Lists::is_cap))]
pub fn is_cap(cap: u32) -> bool
    ensures { result ≡ is_cap cap }
{
    cap as usize <= ROOM
}

// The cap in force: 0 stands for the room.
#[tactic(auto, using(base::proofs::Cases::cases), unfolding(crate::specs::Lists::cap_of, base::specs::Choose::choose))]
pub fn cap_of(cap: u32) -> usize
    ensures { result ≡ cap_of cap }
{
    if cap == 0 {
        return ROOM;
    }
    counted(cap as usize)
}

impl BoxList {
    #[tactic(auto, unfolding(crate::specs::Lists::empty_list))]
    pub fn new() -> BoxList
        ensures { result ≡ empty_list }
    {
        let b = Aabb::new(vectors::zero(), vectors::zero());
        BoxList {
            boxes: [b; ROOM],
            count: 0,
        }
    }

    // The boxes that count.
    pub fn as_slice(&self) -> &[Aabb]
        ensures { result.now ≡ list_of self.now }
    {
        &self.boxes[..counted(self.count)]
    }
}
