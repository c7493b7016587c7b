// Transitions and posts.
ghost use Rattle.std.specs.Prelude.{◌≡◌, ◌<◌};
ghost use Rattle.palette.specs.Links.{fence_link, link};

use palette_states::{bit_at, bit_of, index_of, kind_of};
use turns::turn;

// Link k of a fence or pane: its bit set or cleared; its posts are its own index.
#[tactic(auto, using(base::proofs::Cases::cases), unfolding(crate::specs::Links::fence_link, base::specs::Choose::choose))]
fn fence_link(state: u32, k: u32) -> u32
    requires { state < 212 }
    ensures { result ≡ fence_link state k }
{
    if k >= 8 {
        return state;
    }
    let bit = bit_of(k / 2);
    let set = bit_at(index_of(state), k / 2) != 0;
    let on = k % 2 == 1;
    match (set, on) {
        (false, true) => state + bit,
        (true, false) => state - bit,
        _ => state,
    }
}

// Link k of a state: word 9 + k.
#[tactic(auto, using(base::proofs::Cases::cases), unfolding(crate::specs::Links::link, base::specs::Choose::choose))]
pub(crate) fn link_of(state: u32, k: u32) -> u32
    requires { state < 212 }
    ensures { result ≡ link state k }
{
    match kind_of(state) {
        0 => 0,
        4 => turn(index_of(state), k),
        _ => fence_link(state, k),
    }
}
