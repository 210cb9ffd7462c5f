// Lists the PXGF stream on standard input.
#![tactic(auto)]

ghost use Rattle.std.specs.Prelude.{◌≡◌, length};
ghost use Rattle.lister.specs.Listed.{longest};

use std::io;

fn main(rt: HostRuntime) -> io::Result<()> {
    let mut bytes = [0u8; lister::STREAM_ROOM];
    let n = input::filled(&mut rt.reader(), &mut bytes)?;
    list(&rt, &bytes[..n])
}

// Room for the listing of any stream.
fn room() -> [u8; lister::ROOM]
    ensures { longest ≡ length result }
{
    [0; lister::ROOM]
}

// Writes the listing to standard output.
#[tactic(auto, using(crate::proofs::Within::within))]
fn list(rt: &impl Print, s: &[u8]) -> io::Result<()> {
    let mut out = room();
    if let Ok(n) = lister::lay(s, &mut out) {
        rt.write_all(&out[..n])?;
    }
    Ok(())
}
