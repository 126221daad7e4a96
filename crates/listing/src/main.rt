// Reads an input text from standard input and prints its listing.
#![tactic(auto)]

ghost use Rattle.std.specs.Prelude.{◌≤◌, IfOk, length};

use std::io;
use std::io::Read;

// Reads until the buffer is full or the input ends, and answers how many bytes it put at the front.
fn read_full<R: Read>(from: &mut R, buf: &mut [u8]) -> io::Result<usize>
    ensures { IfOk result (λ n. n ≤ length buf.new) }
{
    let mut done = 0;
    // no `for`: each read says how much it brought
    while done < buf.len() {
        let n = from.read(&mut buf[done..])?;
        if n == 0 {
            break;
        }
        done += n;
    }
    Ok(done)
}

fn main(rt: HostRuntime) -> io::Result<()> {
    // One byte more than the longest well-formed text: what is longer is malformed whatever follows, so nothing more is read.
    let mut input = [0u8; 1845];
    let n = read_full(&mut rt.stdin(), &mut input)?;
    let mut out = [0u8; 600000];
    let m = sheet::listing(&input[..n], &mut out);
    rt.write_all(&out[..m])
}
