// One tick of the scene on standard input: four lines, or `refused N`. Nothing that matters is here; `scene::answer` has the contract.
#![tactic(auto)]

use std::io;

fn main(rt: HostRuntime) -> io::Result<()> {
    // A scene has at most 65,536 bytes: a longer file fills the room, and one of that length is no scene.
    let mut file = [0; 65537];
    let n = reading::read_full(&mut rt.reader(), &mut file)?;
    // An answer has at most 160.
    let mut out = [0; 160];
    let m = scene::answer(&file[..n], &mut out);
    rt.write_all(&out[..m])
}
