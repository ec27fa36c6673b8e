// Recorded answers on an input. A record: a kind, then the input and the answer, each as a length of two bytes, the low one first,
// and its bytes; compare/README.md has the kinds. What is read comes from outside, so a promise on it gives its bounds.
#![tactic(auto)]

ghost use Rattle.std.specs.Prelude.{◌≡◌, ◌<◌, ℕ, List, Bool, get_or, IfSome};
ghost use Rattle.test_records.specs.Records.{pair_at, word_of, description_of, Part};
ghost use Rattle.test_records.specs.Tally.{counted, nothing_counted, Tallied};

use fec_protection::Description;
use std::fmt;
use std::io::Read;

fn byte_at(bytes: &[u8], i: usize) -> u8
    ensures { result ≡ get_or bytes.now i 0 }
{
    bytes.get(i).copied().unwrap_or(0)
}

// The number of two bytes from one on. A byte that is not there is 0, here and below.
pub fn pair_at(bytes: &[u8], i: usize) -> u16
    ensures { result ≡ pair_at bytes.now i }
{
    if bytes.len() <= i {
        return 0;
    }
    u16::from_le_bytes([byte_at(bytes, i), byte_at(bytes, i + 1)])
}

// The number of the first four bytes.
pub fn word(bytes: &[u8]) -> u32
    ensures { result ≡ word_of bytes.now }
{
    u32::from_le_bytes([
        byte_at(bytes, 0),
        byte_at(bytes, 1),
        byte_at(bytes, 2),
        byte_at(bytes, 3),
    ])
}

// The description in the first nine bytes.
pub fn description(bytes: &[u8]) -> Description
    ensures { result ≡ description_of bytes.now }
{
    Description {
        start_addr: pair_at(bytes, 0),
        sub_size: pair_at(bytes, 2),
        bitrate: pair_at(bytes, 4),
        protection_level: byte_at(bytes, 6),
        eep_option: byte_at(bytes, 7),
        is_eep: byte_at(bytes, 8) != 0,
    }
}

// The kind of the next record; none at a 0 or where the input ends, and there the records end.
pub fn read_kind<R: Read>(input: &mut R) -> Option<u8>
    ensures { IfSome result (λ kind. 0 < kind) }
{
    let mut one = [0; 1];
    match byte_streams::read_full(input, &mut one) {
        (1, _) if one[0] > 0 => Some(one[0]),
        _ => None,
    }
}

// A length; 0 where the input has ended.
fn read_length<R: Read>(input: &mut R) -> u16 {
    let mut two = [0; 2];
    match byte_streams::read_full(input, &mut two) {
        (2, _) => u16::from_le_bytes(two),
        _ => 0,
    }
}

// A length and its bytes, put at the start of the buffer as far as it reaches: how many came.
pub fn read_part<R: Read>(input: &mut R, buf: &mut [u8]) -> usize
    ensures { Part buf.old result buf.new }
{
    let n = usize::from(read_length(input)).min(buf.len());
    let (got, _) = byte_streams::read_full(input, &mut buf[..n]);
    got
}

// How many answers of a kind were as recorded, and how many other; each stays at the largest number.
#[derive(Clone, Copy)]
pub struct Count {
    pub same: u64,
    pub other: u64,
}

impl fmt::Display for Count {
    fn fmt<W: fmt::Write>(&self, f: &mut fmt::Formatter<W>) -> fmt::Result {
        write!(f, "{} same, {} other", self.same, self.other)
    }
}

// The counts by kind; a kind that has no place is not counted. A kind stays the number that the file has: each program knows only its own, and
// those that none knows are counted too.
#[derive(Clone, Copy)]
pub struct Tally {
    pub counts: [Count; 16],
}

impl Tally {
    pub fn new() -> Self
        ensures { result ≡ nothing_counted }
    {
        Tally {
            counts: [Count { same: 0, other: 0 }; 16],
        }
    }

    pub fn count(&mut self, kind: usize, same: bool)
        ensures { self.new ≡ counted self.old kind same }
    {
        if kind < 16 {
            let count = &mut self.counts[kind];
            if same {
                count.same = count.same.saturating_add(1);
            } else {
                count.other = count.other.saturating_add(1);
            }
        }
    }

    // A line for each of these kinds, under its name; a line that cannot be written is passed over.
    pub fn print(&self, rt: &impl Print, names: &[(usize, &str)]) {
        for (kind, name) in names {
            if let Some(count) = self.counts.get(*kind) {
                let _ = println!(rt; "{name}: {count}");
            }
        }
    }
}

// What a replay holds against the recorded answers.
pub trait Judge {
    // What may be said of a kind, an input and a recorded answer.
    ghost says: { Self → ℕ → List ℕ → List ℕ → Bool → Type 0 };

    // Whether the answer on this input is as recorded; the input may be written over.
    fn is_same(&self, kind: u8, input: &mut [u8], answer: &[u8]) -> bool
        ensures { says self.now kind input.old answer.now result };
}

// Every record, counted as the judge says of it.
pub fn replay_all<R: Read, J: Judge>(records: &mut R, judge: &J) -> Tally
    ensures { Tallied (λ kind same. (input : _) × (answer : _) × J.says judge.now kind input answer same) result }
{
    let mut tally = Tally::new();
    let mut input = [0; 65536];
    let mut answer = [0; 65536];
    // A loop must be shown to end, and nothing says that an input does: hence the bound.
    for _ in 0..u64::MAX {
        let Some(kind) = read_kind(records) else {
            break;
        };
        let n = read_part(records, &mut input);
        let m = read_part(records, &mut answer);
        let same = judge.is_same(kind, &mut input[..n], &answer[..m]);
        tally.count(usize::from(kind), same);
    }
    tally
}
