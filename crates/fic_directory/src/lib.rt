// The station list (document 02, order 1): FIBs, as the FIC handler writes them, read into a directory that the caller holds in numbers.
#![tactic(auto)]

ghost use Rattle.std.specs.Prelude.{◌≡◌, ◌+◌, ◌*◌, ◌%◌, ◌^◌, ◌<◌, MatchOption, length};
ghost use Rattle.spec_en300401.specs.Organisation.{rate_of, short_form, long_form, sid_bytes, service_in};
ghost use Rattle.spec_en300401.specs.Directory.{is_free_place, first_place};
ghost use Rattle.fic_directory_places.specs.Places.{sub_word, held, services_of};
ghost use Rattle.fic_directory_places.specs.Promises.{answered, description_of};
ghost use Rattle.fic_directory.specs.Code.{channel_of, SubsLeft, SubsRead, NoneLeft, FirstOf, IsEntry, KeyIs, is_key, pair_at, four_of, LowestPlace, PlaceFor, ServicePut, ServicesRead, FigRead, FieldDone, Few, noted_by, AllRead};
ghost use Rattle.fic_directory.specs.Promises.{ReadPromise};

use fec_protection::Description;
use refusal::Refusal;

// How many FIBs were read; how many ended at a FIG whose length passes the end, and of the first of these its number and the FIG's offset;
// how many entries of services found no place.
#[derive(Clone, Copy, Debug, Default, PartialEq, Eq, Hash)]
pub struct Reading {
    pub fibs: usize,
    pub broken: usize,
    pub first_fib: usize,
    pub first_offset: usize,
    pub left_out: usize,
}

// What reading a FIB's data field came to: the offset of the header of a FIG that passes its end, and how many entries of services were left out.
#[derive(Clone, Copy)]
struct FieldRead {
    broken: Option<usize>,
    left_out: usize,
}

impl Reading {
    // One FIB more.
    fn note(&mut self, one: FieldRead)
        requires { Few self.old one.left_out }
        ensures { self.new ≡ noted_by self.old one.broken one.left_out }
    {
        if let Some(offset) = one.broken {
            if self.broken == 0 {
                self.first_fib = self.fibs;
                self.first_offset = offset;
            }
            self.broken += 1;
        }
        self.fibs += 1;
        self.left_out += one.left_out;
    }
}

// kbit/s, protection level and units of the short form's 64 rows. A static, since a const is written out on the stack at each use.
static UEP_ROWS: [(u16, u8, u16); 64] = [
    (32, 5, 16),
    (32, 4, 21),
    (32, 3, 24),
    (32, 2, 29),
    (32, 1, 35),
    (48, 5, 24),
    (48, 4, 29),
    (48, 3, 35),
    (48, 2, 42),
    (48, 1, 52),
    (56, 5, 29),
    (56, 4, 35),
    (56, 3, 42),
    (56, 2, 52),
    (64, 5, 32),
    (64, 4, 42),
    (64, 3, 48),
    (64, 2, 58),
    (64, 1, 70),
    (80, 5, 40),
    (80, 4, 52),
    (80, 3, 58),
    (80, 2, 70),
    (80, 1, 84),
    (96, 5, 48),
    (96, 4, 58),
    (96, 3, 70),
    (96, 2, 84),
    (96, 1, 104),
    (112, 5, 58),
    (112, 4, 70),
    (112, 3, 84),
    (112, 2, 104),
    (128, 5, 64),
    (128, 4, 84),
    (128, 3, 96),
    (128, 2, 116),
    (128, 1, 140),
    (160, 5, 80),
    (160, 4, 104),
    (160, 3, 116),
    (160, 2, 140),
    (160, 1, 168),
    (192, 5, 96),
    (192, 4, 116),
    (192, 3, 140),
    (192, 2, 168),
    (192, 1, 208),
    (224, 5, 116),
    (224, 4, 140),
    (224, 3, 168),
    (224, 2, 208),
    (224, 1, 232),
    (256, 5, 128),
    (256, 4, 168),
    (256, 3, 192),
    (256, 2, 232),
    (256, 1, 280),
    (320, 5, 160),
    (320, 4, 208),
    (320, 2, 280),
    (384, 5, 192),
    (384, 3, 280),
    (384, 1, 416),
];

// A sub-channel's number: start address, size, bit rate and level, then the option at 56, EEP at 60, and at 61 that it is there.
#[tactic(auto, unfolding(fic_directory_places::specs::Places::sub_word))]
fn packed(d: Description) -> u64
    requires { d.eep_option < 16 }
    ensures { result ≡ sub_word (channel_of d) }
{
    u64::from(d.start_addr)
        + (u64::from(d.sub_size) << 16)
        + (u64::from(d.bitrate) << 32)
        + (u64::from(d.protection_level) << 48)
        + (u64::from(d.eep_option) << 56)
        + (u64::from(d.is_eep) << 60)
        + (1 << 61)
}

// Ten bits of two bytes.
fn ten_bits(a: u8, b: u8) -> u16
    ensures { result ≡ a % 4 * 256 + b }
{
    u16::from_be_bytes([a % 4, b])
}

// The short form's third byte is the row.
fn short_form(a: u8, b: u8, c: u8) -> Description
    requires { c < 64 }
    ensures { result ≡ description_of (short_form a b c) }
{
    let (bitrate, protection_level, sub_size) = UEP_ROWS[usize::from(c)];
    Description {
        start_addr: ten_bits(a, b),
        sub_size,
        bitrate,
        protection_level,
        eep_option: 0,
        is_eep: false,
    }
}

// The bit rate of a size: units for each 8 kbit/s of set A, or 32 kbit/s of set B, by level.
#[tactic(auto, unfolding(spec_en300401::specs::Organisation::rate_of))]
fn rate_of(option: u8, level: u8, size: u16) -> u16
    requires { (level < 4) × (size < 1024) }
    ensures { result ≡ rate_of option level size }
{
    match option {
        0 => 8 * size / [12, 8, 6, 4][usize::from(level)],
        1 => 32 * size / [27, 21, 18, 15][usize::from(level)],
        _ => 0,
    }
}

#[tactic(auto, unfolding(spec_en300401::specs::Organisation::long_form))]
fn long_form(a: u8, b: u8, c: u8, d: u8) -> Description
    ensures { result ≡ description_of (long_form a b c d) }
{
    let option = c / 16 % 8;
    let level = c / 4 % 4;
    let size = ten_bits(c, d);
    Description {
        start_addr: ten_bits(a, b),
        sub_size: size,
        bitrate: rate_of(option, level, size),
        protection_level: level,
        eep_option: option,
        is_eep: true,
    }
}

// Enters the first entry of what is left of FIG 0/1, and hands back what is behind it; nothing where no whole entry is left.
fn enter_sub<'a>(rest: &'a [u8], subs: &mut [u64; 64]) -> &'a [u8]
    requires { 0 < length rest.now }
    ensures { SubsLeft rest.now result.now subs.old subs.new }
{
    match rest {
        [a, b, c, behind @ ..] if *c < 64 => {
            subs[usize::from(a / 4)] = packed(short_form(*a, *b, *c));
            behind
        }
        [_, _, c, behind @ ..] if *c < 128 => behind,
        [a, b, c, d, behind @ ..] => {
            subs[usize::from(a / 4)] = packed(long_form(*a, *b, *c, *d));
            behind
        }
        _ => &[],
    }
}

// Entries have lengths of their own, so what is left is handed on; no index is counted, here and below.
fn read_subs(body: &[u8], subs: &mut [u64; 64])
    ensures { SubsRead body.now subs.old subs.new }
{
    let mut rest = body;
    while !rest.is_empty() {
        rest = enter_sub(rest, subs);
    }
}

fn sid_bytes(wide: bool) -> usize
    ensures { result ≡ sid_bytes wide }
{
    if wide { 4 } else { 2 }
}

// The first entry of what is left of FIG 0/2 and what is behind it; none where no whole entry is left.
fn first_entry(rest: &[u8], wide: bool) -> Option<(&[u8], &[u8])>
    ensures { MatchOption result (NoneLeft wide rest.now) (λ p. FirstOf wide rest.now p.0.now p.1.now) }
{
    let head = sid_bytes(wide);
    let components = usize::from(rest.get(head)? % 16);
    rest.split_at_checked(head + 1 + 2 * components)
}

// A service's identifier and, at 32, its width, as they stand in its first number.
fn service_key(entry: &[u8], wide: bool) -> u64
    requires { IsEntry wide entry.now }
    ensures { KeyIs (service_in wide entry.now) result }
{
    if wide {
        (1 << 32) + u64::from(u32::from_be_bytes([entry[0], entry[1], entry[2], entry[3]]))
    } else {
        u64::from(u16::from_be_bytes([entry[0], entry[1]]))
    }
}

// Whether a place's first number says, at 48, that a service is there, and has its key. One comparison, as a search asks this of up to 64 places;
// the sum saturates, so that it needs no bound on the key.
fn is_key(number: u64, key: u64) -> bool
    ensures { result ≡ is_key key number }
{
    number % (1 << 33) + ((number >> 48) % 2 << 48) == key.saturating_add(1 << 48)
}

// The lowest place whose first number passes a test.
// Four numbers to a place, flat: std says nothing of what a slice ends as whose chunks are written, so as `[[u64; 4]; 64]` their writes have no proof.
fn lowest_place<F: Fn(u64) -> bool>(services: &[u64; 256], test: F) -> Option<usize>
    requires { F.IsAlwaysCallable test }
    ensures { LowestPlace (F.post test) services.now result }
{
    (0..64).find(|place| test(services[4 * *place]))
}

fn free_place(services: &[u64; 256]) -> Option<usize>
    ensures { result ≡ answered (first_place is_free_place 0 (services_of services.now)) }
{
    lowest_place(services, |number| (number >> 48) % 2 == 0)
}

// Where a service goes: to its own place, or else to the lowest one that is not marked.
fn place_for(key: u64, services: &[u64; 256]) -> Option<usize>
    ensures { PlaceFor key services.now result }
{
    lowest_place(services, |number| is_key(number, key)).or_else(|| free_place(services))
}

// Component k of pairs of bytes, 0 where there is none.
fn component(pairs: &[[u8; 2]], k: usize) -> u16
    ensures { result ≡ pair_at pairs.now k }
{
    pairs.get(k).map_or(0, |pair| u16::from_be_bytes(*pair))
}

// Four components in a number.
fn four(pairs: &[[u8; 2]], j: usize) -> u64
    requires { j < 3 }
    ensures { result ≡ four_of pairs.now j }
{
    let k = 4 * j;
    u64::from(component(pairs, k))
        + (u64::from(component(pairs, k + 1)) << 16)
        + (u64::from(component(pairs, k + 2)) << 32)
        + (u64::from(component(pairs, k + 3)) << 48)
}

// Enters a service, its count of components at 40 of the first number; says whether it is left out, for want of a place.
fn enter_service(entry: &[u8], wide: bool, services: &mut [u64; 256]) -> bool
    requires { IsEntry wide entry.now }
    ensures { ServicePut wide entry.now services.old result services.new }
{
    let key = service_key(entry, wide);
    let Some(place) = place_for(key, services) else {
        return true;
    };
    let (pairs, _) = entry[sid_bytes(wide) + 1..].as_chunks::<2>();
    let head = key + ((pairs.len() as u64) << 40) + (1 << 48);
    let at = 4 * place;
    services[at..at + 4].copy_from_slice(&[head, four(pairs, 0), four(pairs, 1), four(pairs, 2)]);
    false
}

// How many entries were left out.
fn read_services(body: &[u8], wide: bool, services: &mut [u64; 256]) -> usize
    ensures { ServicesRead wide body.now services.old result services.new }
{
    let mut left_out = 0;
    let mut rest = body;
    while let Some((entry, behind)) = first_entry(rest, wide) {
        left_out += usize::from(enter_service(entry, wide, services));
        rest = behind;
    }
    left_out
}

// One FIG: how many entries of services were left out. Above 63 the flags say the next configuration or another ensemble; 32 says 32-bit identifiers.
// The places are two parameters: a struct of the two `&mut` owes each function two clauses more, on what its fields point to.
fn read_fig(kind: u8, body: &[u8], subs: &mut [u64; 64], services: &mut [u64; 256]) -> usize
    ensures { FigRead kind body.now (held subs.old services.old) result (held subs.new services.new) }
{
    match body {
        [flags, entries @ ..] if kind == 0 && *flags < 64 => match flags % 32 {
            1 => {
                read_subs(entries, subs);
                0
            }
            2 => read_services(entries, *flags >= 32, services),
            _ => 0,
        },
        _ => 0,
    }
}

// The FIGs of a FIB's data field.
fn read_field(field: &[u8], subs: &mut [u64; 64], services: &mut [u64; 256]) -> FieldRead
    ensures { FieldDone field.now (held subs.old services.old) result.broken result.left_out (held subs.new services.new) }
{
    let mut left_out = 0;
    let mut rest = field;
    while let [header, behind @ ..] = rest {
        if *header == 255 {
            break;
        }
        let Some((body, others)) = behind.split_at_checked(usize::from(header % 32)) else {
            return FieldRead {
                broken: Some(field.len() - rest.len()),
                left_out,
            };
        };
        left_out += read_fig(header / 32, body, subs, services);
        rest = others;
    }
    FieldRead {
        broken: None,
        left_out,
    }
}

// The whole FIBs, one after another.
fn read_all(fibs: &[u8], subs: &mut [u64; 64], services: &mut [u64; 256]) -> Reading
    ensures { AllRead fibs.now (held subs.old services.old) result (held subs.new services.new) }
{
    let mut reading = Reading::default();
    let (whole, _) = fibs.as_chunks::<32>();
    for fib in whole {
        reading.note(read_field(&fib[..30], subs, services));
    }
    reading
}

// Reads FIBs of 32 bytes into the directory; an incomplete end is not read. Refusal 12 before any byte is read.
pub fn read_fibs(fibs: &[u8], subs: &mut [u64], services: &mut [u64]) -> Result<Reading, Refusal>
    ensures { ReadPromise fibs.now (held subs.old services.old) result (held subs.new services.new) }
{
    if subs.len() < 64 || services.len() < 256 {
        return Err(Refusal::ShortDirectory);
    }
    let subs = subs.first_chunk_mut().unwrap();
    let services = services.first_chunk_mut().unwrap();
    Ok(read_all(fibs, subs, services))
}
