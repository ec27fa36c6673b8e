// A directory as the caller holds it (document 02, order 1): one number for a sub-channel, four for a service. Emptied, and looked up.
#![tactic(auto)]

ghost use Rattle.std.specs.Prelude.{◌≡◌, ◌<◌, ◌≤◌, length, take, IfOk, IfErr};
ghost use Rattle.std.specs.Simd.{first_chunks};
ghost use Rattle.refusal.specs.Outcome.{numbered};
ghost use Rattle.laws.specs.Lists.{list_of};
ghost use Rattle.spec_en300401.specs.Organisation.{primary_audio};
ghost use Rattle.fic_directory_places.specs.Places.{held, sub_in, service_at};
ghost use Rattle.fic_directory_places.specs.Code.{component_count, component_at, FirstAudio};
ghost use Rattle.fic_directory_places.specs.Promises.{described, words_of, service_of, audio_of, EmptyPromise, SubPromise, ServicePromise, AudioPromise};

use fec_protection::Description;
use refusal::Refusal;
use std::fmt;

// A service: its identifier, of 32 bits where it is wide, how many components it has, and their words as sent; 0 beyond them.
#[derive(Clone, Copy, Debug, PartialEq, Eq, Hash)]
pub struct ServiceEntry {
    // A flag beside the number: document 02 tells a number as it stands, so one that is not wide may have more than 16 bits.
    pub wide: bool,
    pub sid: u32,
    // Fixed memory: twelve places, of which `components` gives those that there are.
    pub count: usize,
    pub words: [u16; 12],
}

impl ServiceEntry {
    pub fn components(&self) -> &[u16]
        ensures { result.now ≡ take self.now.count self.now.words }
    {
        &self.words[..self.count.min(12)]
    }
}

// Its identifier in hexadecimal.
impl fmt::Display for ServiceEntry {
    fn fmt<W: fmt::Write>(&self, f: &mut fmt::Formatter<W>) -> fmt::Result {
        let sid = self.sid;
        if self.wide {
            write!(f, "{sid:08x}")
        } else {
            write!(f, "{sid:04x}")
        }
    }
}

// Empties every one of the 64 and 64 places.
pub fn empty(subs: &mut [u64], services: &mut [u64]) -> Result<(), Refusal>
    ensures { EmptyPromise (held subs.old services.old) result (held subs.new services.new) }
{
    if subs.len() < 64 || services.len() < 256 {
        return Err(Refusal::ShortDirectory);
    }
    subs[..64].fill(0);
    services[..256].fill(0);
    Ok(())
}

// A sub-channel by its bits, if the one at 61 says that it is there.
#[tactic(auto, unfolding(crate::specs::Places::sub_in))]
fn description(number: u64) -> Option<Description>
    ensures { result ≡ described (sub_in number) }
{
    if (number >> 61) % 2 == 0 {
        return None;
    }
    Some(Description {
        start_addr: (number % 65536) as u16,
        sub_size: ((number >> 16) % 65536) as u16,
        bitrate: ((number >> 32) % 65536) as u16,
        protection_level: ((number >> 48) % 256) as u8,
        eep_option: ((number >> 56) % 16) as u8,
        is_eep: (number >> 60) % 2 == 1,
    })
}

// What the directory has for a SubChId.
pub fn sub_channel(subs: &[u64], id: usize) -> Result<Option<Description>, Refusal>
    ensures { SubPromise subs.now id result }
{
    if subs.len() < 64 {
        return Err(Refusal::ShortDirectory);
    }
    Ok(subs[..64].get(id).copied().and_then(description))
}

// How many components a service's first number says, 12 for more.
fn count_in(head: u64) -> usize
    ensures count { result ≡ component_count head }
    ensures few { result ≤ 12 }
{
    ((head >> 40) % 16).min(12) as usize
}

// Component k of a service, four to a number behind the first.
fn component(numbers: &[u64; 4], k: usize) -> u16
    requires { k < 12 }
    ensures { result ≡ component_at numbers.now 0 k }
{
    ((numbers[1 + k / 4] >> (16 * (k % 4))) % 65536) as u16
}

// The words of as many components, 0 behind them. No more are read, as most services have one.
fn components_in(numbers: &[u64; 4], count: usize) -> [u16; 12]
    requires { count ≤ 12 }
    ensures { result ≡ words_of (list_of count (component_at numbers.now 0)) }
{
    let mut words = [0; 12];
    for (k, word) in words[..count].iter_mut().enumerate() {
        *word = component(numbers, k);
    }
    words
}

// A service by the bits of its first number, if the one at 48 says that it is there, and its components behind it.
fn service_in(numbers: &[u64; 4]) -> Option<ServiceEntry>
    ensures { result ≡ service_of (service_at numbers.now 0) }
{
    let head = numbers[0];
    if (head >> 48) % 2 == 0 {
        return None;
    }
    let count = count_in(head);
    Some(ServiceEntry {
        wide: (head >> 32) % 2 == 1,
        sid: (head % (1 << 32)) as u32,
        count,
        words: components_in(numbers, count),
    })
}

// The services' 64 places, four numbers each.
fn places_in(services: &[u64]) -> Result<&[[u64; 4]], Refusal>
    ensures short { IfErr result (λ refusal. (numbered refusal ≡ 12) × (length services.now < 256)) }
    ensures long { IfOk result (λ fours. (256 ≤ length services.now) × (fours.now ≡ first_chunks 4 64 (take 256 services.now))) }
{
    if services.len() < 256 {
        return Err(Refusal::ShortDirectory);
    }
    let (places, _) = services[..256].as_chunks::<4>();
    Ok(places)
}

// What the directory has at a service's place.
pub fn service(services: &[u64], place: usize) -> Result<Option<ServiceEntry>, Refusal>
    ensures { ServicePromise services.now place result }
{
    Ok(places_in(services)?.get(place).and_then(service_in))
}

fn is_audio(word: u16) -> bool
    ensures { result ≡ primary_audio word }
{
    word >> 14 == 0 && word / 2 % 2 == 1
}

// A function of its own: the caller's proof knows what a chain finds by this clause alone.
fn first_audio(numbers: &[u64; 4], count: usize) -> Option<usize>
    requires { count ≤ 12 }
    ensures { FirstAudio (component_at numbers.now 0) count result }
{
    (0..count).find(|k| is_audio(component(numbers, *k)))
}

// The SubChId of a service's first component that is primary audio; its words are read up to there alone.
fn audio_in(numbers: &[u64; 4]) -> Option<usize>
    ensures { result ≡ audio_of (service_at numbers.now 0) }
{
    let head = numbers[0];
    if (head >> 48) % 2 == 0 {
        return None;
    }
    first_audio(numbers, count_in(head)).map(|k| usize::from(component(numbers, k) / 4 % 64))
}

// The sub-channel of the primary audio component of the service at a place.
pub fn audio_sub_channel(services: &[u64], place: usize) -> Result<Option<usize>, Refusal>
    ensures { AudioPromise services.now place result }
{
    Ok(places_in(services)?.get(place).and_then(audio_in))
}
