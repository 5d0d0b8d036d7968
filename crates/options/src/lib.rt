// The parts of a GRASP message that are arrays of their own (RFC 8990, sections 2.9, 2.10 and 2.8.11): locator, divert,
// accept and decline options, objective options, and the pairs of a Flood. A reader is handed the part of the message
// that begins at its own head, and the place where that part stands in the message: answers hold places in the message,
// and nothing is copied out.
#![tactic(auto)]

ghost use Rattle.std.specs.Prelude.{◌≡◌};
ghost use Rattle.options.specs.Text.{bad_text};
ghost use Rattle.options.specs.Part.{misshapen};

use refusal::{Refusal, Refused};

pub mod divert;
pub mod locator;
pub mod locators;
pub mod objective;
pub mod outcome;
pub mod pair;

// Bytes of a message: `len` of them, the first at `at`.
#[derive(Clone, Copy)]
pub struct Span {
    pub at: usize,
    pub len: usize,
}

// The place of the first departure from a shape.
#[derive(Clone, Copy, Debug, PartialEq, Eq)]
pub struct Departure {
    pub place: usize,
}

// A departure from a shape is a refusal of its own.
impl From<Departure> for Refused {
    ghost from_gives = { λ departure refused. refused ≡ misshapen departure };

    fn from(departure: Departure) -> Refused {
        Refused {
            refusal: Refusal::BadShape,
            place: departure.place,
        }
    }
}

// A part that was read: how many bytes it has, and the places of its first text that isn't UTF-8 and of its first name
// over 64 bytes.
#[derive(Clone, Copy)]
pub struct Part<T> {
    pub value: T,
    pub size: usize,
    pub bad: Option<usize>,
    pub long: Option<usize>,
}

// `place` where a text isn't UTF-8.
#[tactic(auto, unfolding(crate::specs::Text::bad_text, base::specs::Pick::pick))]
pub fn bad_text(text: &[u8], place: usize) -> Option<usize>
    ensures { result ≡ bad_text text.now place }
{
    if utf8::is_utf8(text) {
        return None;
    }
    Some(place)
}
