// What is printed of the minute of a log file.
ghost use Rattle.std.specs.Prelude.{◌≡◌, length};
ghost use Rattle.text.specs.Cursor.{Put};
ghost use Rattle.minute_told.specs.Printed.{minute_text};
ghost use Rattle.logged.specs.Logged.{minute_in};

use crate::run::run_log;

// Room for the feet of every log.
fn feet_room() -> [f64; 11520]
    ensures { length result ≡ 11520 }
{
    [0.0; 11520]
}

/// What `oneminute` prints for a file, as far as there is room for it, and how many bytes that is: 215,050 hold every answer.
pub fn answer(file: &[u8], out: &mut [u8]) -> usize
    ensures { Put out.old 0 (minute_text (minute_in file.now)) out.new result }
{
    let mut feet = feet_room();
    let m = run_log(file, &mut feet);
    minute_told::put_text(out, &feet, m.ticks, m.ended)
}
