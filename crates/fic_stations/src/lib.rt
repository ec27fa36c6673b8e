// Which component of a service a station list names, and which sub-channels a service is carried in (document 02, order 1).
#![tactic(auto)]

ghost use Rattle.std.specs.Prelude.{◌≡◌, find};
ghost use Rattle.fic_stations.specs.Components.{is_primary, component_of, primary_of, stream_of, carried_by, carried_in};

use std::fmt;

// A service's component: audio by its type, or data, in the sub-channel of that number; reserved; in packets, whose sub-channel FIG 0/3 says.
#[derive(Clone, Copy, Debug, PartialEq, Eq, Hash)]
pub enum Component {
    Audio(u16, usize),
    Data(usize),
    Reserved,
    Packet,
}

impl Component {
    // The sub-channel of a stream, audio or data.
    pub fn sub_channel(self) -> Option<usize>
        ensures { result ≡ stream_of self }
    {
        match self {
            Component::Audio(_, id) => Some(id),
            Component::Data(id) => Some(id),
            Component::Reserved => None,
            Component::Packet => None,
        }
    }
}

// What is carried; 63 is the type of DAB+ (ETSI TS 101 756).
impl fmt::Display for Component {
    fn fmt<W: fmt::Write>(&self, f: &mut fmt::Formatter<W>) -> fmt::Result {
        match self {
            Component::Audio(0, _) => f.write_str("DAB"),
            Component::Audio(63, _) => f.write_str("DAB+"),
            Component::Audio(kind, _) => write!(f, "audio of type {kind}"),
            Component::Data(_) => f.write_str("data"),
            Component::Reserved => f.write_str("primary component of a reserved kind"),
            Component::Packet => f.write_str("packet"),
        }
    }
}

fn component_of(word: u16) -> Component
    ensures { result ≡ component_of word }
{
    let sub_ch_id = usize::from(word / 4 % 64);
    match word >> 14 {
        0 => Component::Audio(word / 256 % 64, sub_ch_id),
        1 => Component::Data(sub_ch_id),
        2 => Component::Reserved,
        _ => Component::Packet,
    }
}

fn is_primary(word: u16) -> bool
    ensures { result ≡ is_primary word }
{
    word / 2 % 2 == 1
}

// A function of its own: the caller's proof knows what a chain finds by this clause alone.
fn primary_word(words: &[u16]) -> Option<u16>
    ensures { result ≡ find is_primary words.now }
{
    words.iter().copied().find(|word| is_primary(*word))
}

// The first primary component of a service's words as sent.
pub fn primary(words: &[u16]) -> Option<Component>
    ensures { result ≡ primary_of words.now }
{
    primary_word(words).map(component_of)
}

fn carried_by(word: u16, id: usize) -> bool
    ensures { result ≡ carried_by id word }
{
    word >> 14 < 2 && usize::from(word / 4 % 64) == id
}

// Whether a stream of a service's words as sent is carried in a sub-channel.
pub fn carries(words: &[u16], id: usize) -> bool
    ensures { result ≡ carried_in id words.now }
{
    words.iter().any(|word| carried_by(*word, id))
}
