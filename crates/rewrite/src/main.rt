// The scene on standard input, as the writer makes it of its contents, on standard output; or `refused N`. Nothing that matters is here;
// `scene_anew::rewrite` has the contract, and crates/rounds shows that a file which passes 8 and 1 to 4 comes out as it went in, or, where it had the old mark,
// with the same numbers under the new one.
#![tactic(auto)]

use std::io;

fn main(rt: HostRuntime) -> io::Result<()> {
    // A scene has at most 65,536 bytes: a longer file fills the room, and one of that length is no scene.
    let mut file = [0; 65537];
    let n = reading::read_full(&mut rt.reader(), &mut file)?;
    let mut out = [0; 65537];
    match scene_anew::rewrite(&file[..n], &mut out) {
        Ok(bytes) => rt.write_all(out.get(..bytes).unwrap_or(&[])),
        Err(refusal) => println!(rt; "{refusal}"),
    }
}
