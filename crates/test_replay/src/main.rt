// Replays recorded answers of the Rust on bits, bytes and descriptions, kinds 1 to 5, from standard input, and counts, function by
// function, which answers are the same.
#![tactic(auto)]

ghost use Rattle.std.specs.Prelude.{◌≤◌, IsTrue};

use refusal::Refusal;
use test_records::Judge;

fn disperses(input: &mut [u8], answer: &[u8]) -> bool {
    fec_dispersal::energy_dispersal(&mut *input);
    &*input == answer
}

// A yes or no as recorded: one byte, 1 or 0.
fn is_byte(yes: bool, answer: &[u8]) -> bool {
    answer == [u8::from(yes)].as_slice()
}

fn judges(input: &[u8], answer: &[u8]) -> bool {
    let judged = fec_protection::judge(test_records::description(input));
    input.len() == 9 && is_byte(judged.is_ok(), answer)
}

// A size as recorded: four bytes, or none where there is no row.
fn is_size(size: Result<usize, Refusal>, recorded: &[u8]) -> bool {
    match size {
        Ok(n) => recorded.len() == 4 && n == test_records::word(recorded) as usize,
        Err(_) => recorded.is_empty(),
    }
}

// The answer: the needed and the depunctured size.
fn has_sizes(input: &[u8], answer: &[u8]) -> bool {
    let d = test_records::description(input);
    let (needed, depunctured) = answer.split_at(answer.len() / 2);
    input.len() == 9
        && is_size(fec_protection::needed_size(d), needed)
        && is_size(fec_protection::depunctured_size(d), depunctured)
}

struct Replay;

impl Judge for Replay {
    // An answer is as recorded only where its kind is one of this program's.
    ghost says = { λ _ kind _ _ same. IsTrue same → (1 ≤ kind) × (kind ≤ 5) };

    // Whether the function of this kind, a number of the file's form, gives the recorded answer.
    fn is_same(&self, kind: u8, input: &mut [u8], answer: &[u8]) -> bool {
        match kind {
            1 => disperses(input, answer),
            2 => is_byte(fec_crc::fib_crc_valid(input), answer),
            3 => is_byte(fec_crc::check_crc_bits(input), answer),
            4 => judges(input, answer),
            5 => has_sizes(input, answer),
            _ => false,
        }
    }
}

fn main(rt: HostRuntime) {
    let tally = test_records::replay_all(&mut rt.stdin(), &Replay);
    tally.print(
        &rt,
        &[
            (1, "energy_dispersal"),
            (2, "fib_crc_valid"),
            (3, "check_crc_bits"),
            (4, "judge"),
            (5, "needed_size and depunctured_size"),
        ],
    );
}
