// Document 01's cases, and those that it says are run and compared: each on the real functions, one line each with what came out.
#![tactic(auto)]

use fec_protection::Description;
use fec_viterbi::Score;
use refusal::Refusal;
use std::fmt;

// Bits one behind the other; `none` where there are none.
#[derive(Clone, Copy)]
struct Bits<'a>(&'a [u8]);

impl fmt::Display for Bits<'_> {
    fn fmt<W: fmt::Write>(&self, f: &mut fmt::Formatter<W>) -> fmt::Result {
        let bits = self.0;
        if bits.is_empty() {
            return f.write_str("none");
        }
        for bit in bits {
            write!(f, "{bit}")?;
        }
        Ok(())
    }
}

// A value, or the number of the refusal in its place.
#[derive(Clone, Copy)]
struct Told<T>(Result<T, Refusal>);

impl<T: fmt::Display> fmt::Display for Told<T> {
    fn fmt<W: fmt::Write>(&self, f: &mut fmt::Formatter<W>) -> fmt::Result {
        match &self.0 {
            Ok(value) => write!(f, "{value}"),
            Err(refusal) => write!(f, "refusal {}", refusal.number()),
        }
    }
}

fn metric(decoding: Result<Score, Refusal>) -> Told<i32> {
    Told(decoding.map(|score| score.metric))
}

// Where the path of a decoder ends.
#[derive(Clone, Copy)]
enum End {
    State0,
    Free,
}

impl fmt::Display for End {
    fn fmt<W: fmt::Write>(&self, f: &mut fmt::Formatter<W>) -> fmt::Result {
        f.write_str(match self {
            End::State0 => "state 0",
            End::Free => "free end",
        })
    }
}

// None or one step. The path into state 0 starts in state 0 or, where bit 0 of the word is 1, in state 32.
fn print_step(rt: &impl Print, name: &str, end: End, soft: &[i8]) {
    let mut words = [0; 1];
    let mut bits = [0; 1];
    let decoding = match end {
        End::State0 => fec_viterbi::viterbi_decode_state0(soft, &mut words, &mut bits),
        End::Free => fec_viterbi::viterbi_decode_with_metric(soft, &mut words, &mut bits),
    };
    let metric = metric(decoding);
    let steps = (soft.len() / 4).min(1);
    let bits = Bits(&bits[..steps]);
    let from = words[0] % 2 * 32;
    let _ = match end {
        End::State0 if steps == 1 => {
            println!(rt; "{name}, {end}: bits {bits}, metric {metric}, from state {from}")
        }
        _ => println!(rt; "{name}, {end}: bits {bits}, metric {metric}"),
    };
}

// Up to 197 steps by both decoders.
fn print_metrics(rt: &impl Print, name: &str, soft: &[i8]) {
    let mut words = [0; 197];
    let mut bits = [0; 197];
    let state0 = metric(fec_viterbi::viterbi_decode_state0(soft, &mut words, &mut bits));
    let free_end = metric(fec_viterbi::viterbi_decode_with_metric(soft, &mut words, &mut bits));
    let _ = println!(rt; "{name}, metrics: {state0} and {free_end}");
}

fn print_judged(rt: &impl Print, name: &str, d: Description) {
    let units = d.sub_size;
    let judged = Told(fec_protection::judge(d).map(|()| "accepted"));
    let _ = match fec_protection::needed_size(d) {
        Ok(n) => println!(rt; "{name}: {units} units for {n} values: {judged}"),
        Err(_) => println!(rt; "{name}: {units} units for no row: {judged}"),
    };
}

// How many entries of the table, four for each register, are what the rule gives. The register is twice the state and the bit that enters.
fn held() -> usize {
    let outputs = fec_branch_outputs::branch_outputs();
    let entries = outputs.as_flattened().as_flattened();
    let masks = [0x6d, 0x4f, 0x53, 0x6d];
    (0u32..)
        .zip(entries)
        .filter(|(k, output)| {
            let mask = masks[(k % 4) as usize];
            u32::from(**output) == fec_viterbi::parity_of(k / 4, mask)
        })
        .count()
}

fn eep(level: u8, bitrate: u16, start: u16, size: u16) -> Description {
    Description {
        start_addr: start,
        sub_size: size,
        bitrate,
        protection_level: level,
        eep_option: 0,
        is_eep: true,
    }
}

fn uep(level: u8, bitrate: u16, size: u16) -> Description {
    Description {
        is_eep: false,
        ..eep(level, bitrate, 0, size)
    }
}

fn print_steps(rt: &impl Print) {
    let steps: [(&str, End, &[i8]); 9] = [
        ("1", End::State0, &[]),
        ("1", End::Free, &[]),
        ("2, 10,10,10,10", End::State0, &[10; 4]),
        ("3, 10,10,10,10", End::Free, &[10; 4]),
        ("4, 8,8,8,7", End::State0, &[8, 8, 8, 7]),
        ("5, 8,8,8,8", End::State0, &[8; 4]),
        ("6, four of -128", End::State0, &[-128; 4]),
        ("6, four of -128", End::Free, &[-128; 4]),
        ("7, four zeros", End::Free, &[0; 4]),
    ];
    for (name, end, soft) in steps {
        print_step(rt, name, end, soft);
    }
}

// 780 of -128, and behind them this value; what is subtracted shows from the 196th step on.
fn print_long(rt: &impl Print) {
    for (name, n, last) in [
        ("780 of -128", 780, -128),
        ("784 of -128", 784, -128),
        ("788 of -128", 788, -128),
        ("780 of -128 and four of -40", 784, -40),
        ("780 of -128 and four of -41", 784, -41),
    ] {
        let mut soft = [-128; 788];
        soft[780..].fill(last);
        print_metrics(rt, name, &soft[..n.min(788)]);
    }
}

fn print_all_judged(rt: &impl Print, cases: &[(&str, Description)]) {
    for (name, d) in cases {
        print_judged(rt, name, *d);
    }
}

fn main(rt: HostRuntime) {
    print_steps(&rt);
    let mut bits = [0; 16];
    fec_dispersal::energy_dispersal(&mut bits);
    let dispersed = Bits(&bits);
    let _ = println!(rt; "8, 16 zeros dispersed: {dispersed}");
    print_all_judged(
        &rt,
        &[
            (
                "9, EEP option 0 level 3, 8 kbit/s, start 860",
                eep(3, 8, 860, 4),
            ),
            (
                "10, EEP option 0 level 3, 8 kbit/s, start 861",
                eep(3, 8, 861, 4),
            ),
            ("11, UEP 384 level 1", uep(1, 384, 416)),
            ("12, UEP 384 level 1", uep(1, 384, 417)),
        ],
    );
    print_long(&rt);
    print_all_judged(
        &rt,
        &[
            ("UEP 32 level 1", uep(1, 32, 35)),
            ("EEP option 0 level 1, 8 kbit/s", eep(1, 8, 0, 8)),
            ("EEP option 0 level 1, 16 kbit/s", eep(1, 16, 0, 16)),
        ],
    );
    let held = held();
    let _ = println!(rt; "branch outputs: {held} of 512 are the rule's");
}
