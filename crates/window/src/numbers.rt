// A window from plain numbers, in the one order in which they are handed over: whoever lends a window, by call or by file, makes it here.
ghost use Rattle.std.specs.Prelude.{◌≡◌};
ghost use Rattle.window.specs.Numbers.{window_of, with_air};

use crate::{Pos, Sizes, Window};

pub fn window_of(
    ox: i32,
    oy: i32,
    oz: i32,
    sx: u32,
    sy: u32,
    sz: u32,
    lowest: i32,
    highest: i32,
    air: u32,
) -> Window
    ensures { result ≡ window_of ox oy oz sx sy sz lowest highest air }
{
    Window {
        origin: Pos {
            x: ox,
            y: oy,
            z: oz,
        },
        sizes: Sizes {
            x: sx,
            y: sy,
            z: sz,
        },
        lowest,
        highest,
        air,
    }
}

impl Window {
    /// The same window under another air state.
    pub fn with_air(self, air: u32) -> Window
        ensures { result ≡ with_air self air }
    {
        Window { air, ..self }
    }
}
