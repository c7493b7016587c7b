// The classroom palette for a host in another language: its records and its boxes, each into a buffer that the host lends.
#![tactic(auto)]

ghost use Rattle.std.specs.Prelude.{◌≡◌};
ghost use Rattle.palette_boxes.specs.Fill.{fill_refusal, filled};
ghost use Rattle.palette_boxes.specs.Shapes.{shape_numbers, palette_shapes};
ghost use Rattle.palette.specs.Palette.{record_words, palette_records};

// The 4,240 words of the 212 records; it returns 0, or 11 where there is not the room, and then it writes nothing.
#[unsafe(no_mangle)]
pub extern "C" fn boltjuniper_palette_records(out: &mut [u32]) -> u32
    ensures value { result ≡ fill_refusal record_words out.old }
    ensures out_after { out.new ≡ filled record_words out.old palette_records }
{
    base::code(palette::fill_records(out))
}

// The 3,948 numbers of the 658 boxes; likewise.
#[unsafe(no_mangle)]
pub extern "C" fn boltjuniper_palette_boxes(out: &mut [f32]) -> u32
    ensures value { result ≡ fill_refusal shape_numbers out.old }
    ensures out_after { out.new ≡ filled shape_numbers out.old palette_shapes }
{
    base::code(palette_boxes::fill_shapes(out))
}
