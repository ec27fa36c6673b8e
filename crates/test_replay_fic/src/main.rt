// Replays recorded answers of the Rust on whole FICs, kind 10, from standard input, and counts which answers are the same. The
// buffers of a call have the lengths that four blocks need, with a value in each place that the call does not leave there.
#![tactic(auto)]

ghost use Rattle.std.specs.Prelude.{◌≡◌, IsTrue};

use test_records::Judge;

// Three lengths and then the values of three symbols; the FIBs recorded, and the rest of the output is as it was.
fn processes(input: &[u8], recorded: &[u8]) -> bool {
    if input.len() < 6 || input.len() > 9222 {
        return false;
    }
    let a = usize::from(test_records::pair_at(input, 0));
    let b = usize::from(test_records::pair_at(input, 2));
    let c = usize::from(test_records::pair_at(input, 4));
    let values = &input[6..];
    if a + b + c != values.len() {
        return false;
    }
    let mut soft = [77; 9216];
    soft_bytes::convert(values, &mut soft);
    let mut fibs = [77; 384];
    let fic = fic_handler::process_fic(
        &soft[..a],
        &soft[a..a + b],
        &soft[a + b..a + b + c],
        &mut [77; 3096],
        &mut [77; 774],
        &mut [77; 774],
        &mut fibs,
    );
    match fic {
        Ok(fic) if fic.fibs <= 12 => {
            let (written, rest) = fibs.split_at(32 * fic.fibs);
            written == recorded && rest.iter().all(|byte| *byte == 77)
        }
        _ => false,
    }
}

struct Replay;

impl Judge for Replay {
    // An answer is as recorded only where it is of this program's kind.
    ghost says = { λ _ kind _ _ same. IsTrue same → kind ≡ 10 };

    // Whether the function of this kind gives the recorded answer: the trait's method, for the one kind that this program knows.
    fn is_same(&self, kind: u8, input: &mut [u8], answer: &[u8]) -> bool {
        kind == 10 && processes(input, answer)
    }
}

fn main(rt: HostRuntime) {
    let tally = test_records::replay_all(&mut rt.stdin(), &Replay);
    tally.print(&rt, &[(10, "process_fic")]);
}
