// The program `fic`: soft values from standard input, as two's-complement bytes, 9,216 at a time as three symbols; the FIBs that pass to
// standard output, 32 bytes each. An incomplete end is not decoded; a failed write ends it.
#![tactic(auto)]

ghost use Rattle.fic.specs.Decoded.{FibsOf};

use std::io;
use std::io::{Read, Write};

// Three full symbols to FIBs: how many bytes of them are to be written.
fn decode(soft: &[i8; 9216], fibs: &mut [u8; 384]) -> usize
    ensures { FibsOf soft.now result fibs.new }
{
    // Buffers of these lengths are never refused.
    let fic = fic_handler::process_fic(
        &soft[..3072],
        &soft[3072..6144],
        &soft[6144..],
        &mut [0; 3096],
        &mut [0; 774],
        &mut [0; 774],
        &mut *fibs,
    )
    .unwrap();
    32 * fic.fibs
}

// A loop must be shown to end, and nothing says that an input does: hence the bound.
fn run<R: Read, W: Write>(input: &mut R, output: &mut W) -> io::Result<()> {
    for _ in 0..u64::MAX {
        let mut bytes = [0; 9216];
        let (got, _) = byte_streams::read_full(input, &mut bytes);
        if got < 9216 {
            break;
        }
        let mut soft = [0; 9216];
        soft_bytes::convert(&bytes, &mut soft);
        let mut fibs = [0; 384];
        let n = decode(&soft, &mut fibs);
        output.write_all(&fibs[..n])?;
    }
    Ok(())
}

fn main(rt: HostRuntime) {
    let _ = run(&mut rt.stdin(), &mut rt.stdout());
}
