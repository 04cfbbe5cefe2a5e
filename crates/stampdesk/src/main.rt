// stampdesk: standard input through the desk to standard output. The last of 65,537 bytes only tells that the input is too long. Where a
// read fails nothing is written: every output of the program starts with its header.
#![tactic(auto)]

ghost use Rattle.std.specs.Prelude.{◌≡◌, ◌≤◌, length, IfOk};

use std::io;
use std::io::{Read, Stdin, Write};

// How many bytes are read up to the end of the input or of the room; a single read may give fewer, and none at the end.
fn read_all(input: &mut Stdin, buf: &mut [u8]) -> io::Result<usize>
    ensures { IfOk result (λ n. n ≤ length buf.old) }
{
    let mut done = 0;
    while done < buf.len() {
        let more = input.read(&mut buf[done..])?;
        if more == 0 {
            break;
        }
        done += more;
    }
    Ok(done)
}

// Room, as there is no heap, that the proofs know by its length alone: a literal of this size in `main` would be counted, past what the check can do.
fn zeros<const N: usize>() -> [u8; N]
    ensures { N ≡ length result }
{
    [0; N]
}

fn main(rt: HostRuntime) {
    let mut input = zeros::<65537>();
    let Ok(n) = read_all(&mut rt.stdin(), &mut input) else {
        return;
    };
    // As much as the longest output takes.
    let mut out = zeros::<1310737>();
    let m = desk::run(&input[..n], &mut out);
    let _ = rt.stdout().write_all(&out[..m]);
}
