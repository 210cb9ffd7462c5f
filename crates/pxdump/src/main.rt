// Lists the PXGF stream on standard input, with why bytes were skipped and what each chunk shows.
#![tactic(auto)]

use std::io;

fn main(rt: HostRuntime) -> io::Result<()> {
    let mut bytes = [0u8; lister::STREAM_ROOM];
    let n = input::filled(&mut rt.reader(), &mut bytes)?;
    show::dump(&rt, &bytes[..n])
}
