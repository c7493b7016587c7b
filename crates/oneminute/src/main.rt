// The minute of the log on standard input: a line of feet for each tick, and `refused N` where one ends it. Nothing that matters is here;
// `logged::answer` has the contract.
#![tactic(auto)]

use std::io;

fn main(rt: HostRuntime) -> io::Result<()> {
    // A log has at most 65,536 bytes: a longer file fills the room, and one of that length is no log.
    let mut file = [0; 65537];
    let n = reading::read_full(&mut rt.reader(), &mut file)?;
    // Room for every answer.
    let mut out = [0; 215050];
    let m = logged::answer(&file[..n], &mut out);
    rt.write_all(&out[..m])
}
