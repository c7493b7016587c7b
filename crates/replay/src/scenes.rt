// The scene files of data/, by number: each with what `onetick` prints of it, its lines joined by `; `, and behind them the case of its sample; then
// with what `rewrite` does. From 1000 to 1999 they are scenes of the layout without heights and columns, converted (tools/convert): not each has a
// likeness, so a number without a file is passed over, and of none is the case among the original's answers. From 2000 on they are of both marks, and from
// 3000 on of a cap. The stored answers have a line for each that must be there.
use crate::cases::Case;
use std::rt::Files;
use std::{fs, io, str};

fn digit(n: u32) -> u8 {
    b'0' + (n % 10) as u8
}

// The name of the file of data/ with this number and ending.
fn name(n: u32, ending: [u8; 3]) -> [u8; 8] {
    let [a, b, c] = ending;
    [
        digit(n / 1000),
        digit(n / 100),
        digit(n / 10),
        digit(n),
        b'.',
        a,
        b,
        c,
    ]
}

// The file of data/ with this number and ending, as far as the room goes; nothing where there is none. A room of 65,537 bytes holds the longest file
// and one byte more.
pub(crate) fn read<'a>(
    rt: &impl Files,
    n: u32,
    ending: [u8; 3],
    room: &'a mut [u8],
) -> io::Result<Option<&'a [u8]>> {
    let name = name(n, ending);
    let Ok(path) = str::from_utf8(&name) else {
        return Ok(None);
    };
    let Ok(mut file) = fs::open(rt, path) else {
        return Ok(None);
    };
    let size = reading::read_full(&mut file, room)?;
    Ok(Some(&room[..size]))
}

// The lines of an answer, joined.
pub(crate) fn put_joined(rt: &impl Print, text: &[u8]) -> io::Result<()> {
    for (i, line) in str::from_utf8(text).unwrap_or("").lines().enumerate() {
        if i > 0 {
            rt.print("; ")?;
        }
        rt.print(line)?;
    }
    Ok(())
}

pub(crate) fn put_lines(rt: &impl Print, file: &[u8]) -> io::Result<()> {
    let mut out = [0; 160];
    let count = scene::answer(file, &mut out);
    put_joined(rt, out.get(..count).unwrap_or(&[]))
}

// Behind the lines of a tick that is not refused stands its case, but of a converted scene.
fn put_answer(rt: &impl Print, n: u32, file: &[u8]) -> io::Result<()> {
    put_lines(rt, file)?;
    if (1000..2000).contains(&n) {
        return Ok(());
    }
    match scene::tick_of(file) {
        Ok(tick) => print!(rt; "; friction {}", Case(tick.support)),
        Err(_) => Ok(()),
    }
}

// The file as the writer makes it of its contents: the same file; or, where it had the old mark, one of the new mark, with its tick; or a refusal.
fn put_rewritten(rt: &impl Print, file: &[u8]) -> io::Result<()> {
    let mut out = [0; 65537];
    match scene_anew::rewrite(file, &mut out) {
        Ok(bytes) => {
            let anew = out.get(..bytes).unwrap_or(&[]);
            if anew == file {
                return print!(rt; "same");
            }
            if anew.starts_with(b"SCN2") {
                print!(rt; "new mark, ")?;
                return put_lines(rt, anew);
            }
            print!(rt; "another file")
        }
        Err(refusal) => print!(rt; "{refusal}"),
    }
}

fn run(rt: &(impl Files + Print), n: u32) -> io::Result<()> {
    let mut room = [0; 65537];
    let Some(file) = read(rt, n, *b"scn", &mut room)? else {
        return Ok(());
    };
    print!(rt; "{n:04} ")?;
    put_answer(rt, n, file)?;
    print!(rt; "\nrewrite {n:04} ")?;
    put_rewritten(rt, file)?;
    println!(rt;)
}

pub(crate) fn run_all(rt: &(impl Files + Print)) -> io::Result<()> {
    for n in 0..3204 {
        run(rt, n)?;
    }
    Ok(())
}
