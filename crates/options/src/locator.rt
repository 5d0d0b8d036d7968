// Locator options (RFC 8990, section 2.9.5).
ghost use Rattle.std.specs.Prelude.{◌≡◌, ◌+◌, ◌≤◌, ◌<◌, ◌^◌, length};
ghost use Rattle.options.specs.Locator.{is_null, address_fits, protocol_of, port_of, locator_of};
ghost use Rattle.options.specs.Locator.{locator_reached, locator_in, locator_at, locator_numbers};

use crate::{Departure, Part, Span};
use cbor::token;
use cbor::token::Token;

// What a locator has for a protocol that is null.
const NULL_PROTOCOL: u8 = 0;

// The greatest port.
const MOST_PORT: u64 = 65_535;

// What a locator has for a port that is null.
const NULL_PORT: u32 = 65_536;

// Where a locator's address, domain name or URI stands in the message, its protocol and its port; a null protocol is 0,
// a null port 65,536 (a URI's only).
#[derive(Clone, Copy)]
pub enum Locator {
    V6 { at: usize, protocol: u8, port: u32 },
    V4 { at: usize, protocol: u8, port: u32 },
    Domain { name: Span, protocol: u8, port: u32 },
    Uri { uri: Span, protocol: u8, port: u32 },
}

// The locator at `at` of the message s.
#[tactic(auto, using(crate::proofs::Fits::locator_past, base::proofs::Parts::rest_is))]
pub fn read_at(s: &[u8], at: usize) -> Result<Part<Locator>, Departure>
    ensures { result ≡ locator_at s.now at }
{
    if s.len() < at {
        return Err(Departure { place: at });
    }
    read_in(&s[at..], at)
}

// The locator at the start of s, which stands at `base` of the message.
#[tactic(auto, unfolding(crate::specs::Locator::locator_in, base::specs::Pick::pick))]
pub(crate) fn read_in(s: &[u8], base: usize) -> Result<Part<Locator>, Departure>
    requires { base + length s.now < 2 ^ 63 }
    ensures { result ≡ locator_in base s.now }
{
    let a = token::array_at(s, 0);
    if token::items_in(a) == 0 {
        return Err(Departure { place: base });
    }
    let k = token::number_at(s, a.next);
    let kind = token::up_to(106, k);
    if kind < 103 {
        return Err(Departure { place: base + k.at });
    }
    if 106 < kind {
        return Err(Departure { place: base + k.at });
    }
    if a.arg != 4 {
        return Err(Departure { place: base });
    }
    read_reached(s, base, kind, k.next)
}

// What a locator of this kind reaches, from `at` on: address, protocol and port.
#[tactic(auto, unfolding(crate::specs::Locator::locator_reached, crate::specs::Locator::text_of, crate::specs::Part::needed, base::specs::Pick::pick))]
fn read_reached(s: &[u8], base: usize, kind: u64, at: usize) -> Result<Part<Locator>, Departure>
    requires fits { base + length s.now < 2 ^ 63 }
    requires within { at ≤ length s.now }
    ensures { result ≡ locator_reached base s.now kind at }
{
    let b = token::string_at(s, at);
    if !address_fits(kind, b) {
        return Err(Departure { place: base + b.at });
    }
    let p = token::number_or_null_at(s, b.next);
    let Some(protocol) = protocol_of(kind, p) else {
        return Err(Departure { place: base + p.at });
    };
    let q = token::number_or_null_at(s, p.next);
    let Some(port) = port_of(kind, q) else {
        return Err(Departure { place: base + q.at });
    };
    let from = b.body;
    let to = b.next;
    let locator = locator_of(kind, base + from, to - from, protocol, port);
    if kind < 105 {
        return Ok(Part {
            value: locator,
            size: q.next,
            bad: None,
            long: None,
        });
    }
    let bad = crate::bad_text(&s[from..to], base + b.at);
    Ok(Part {
        value: locator,
        size: q.next,
        bad,
        long: None,
    })
}

// 16 bytes for 103, 4 for 104, a text for 105 and 106.
#[tactic(auto, unfolding(crate::specs::Locator::address_fits, base::specs::Pick::pick))]
fn address_fits(kind: u64, t: Token) -> bool
    ensures { result ≡ address_fits kind t }
{
    if 105 <= kind {
        return t.major == 3;
    }
    if t.major == 2 {
        if kind == 103 {
            return t.arg == 16;
        }
        return t.arg == 4;
    }
    false
}

// 6 or 17, or the null that a URI's locator may have.
#[tactic(auto, unfolding(crate::specs::Locator::protocol_of, base::specs::Pick::pick))]
fn protocol_of(kind: u64, t: Token) -> Option<u8>
    ensures { result ≡ protocol_of kind t }
{
    if t.major == 0 {
        if t.arg == 6 {
            return Some(6);
        }
        if t.arg == 17 {
            return Some(17);
        }
        return None;
    }
    if kind == 106 {
        if is_null(t) {
            return Some(NULL_PROTOCOL);
        }
        return None;
    }
    None
}

// Up to 65,535, or the null that a URI's locator may have.
#[tactic(auto, unfolding(crate::specs::Locator::port_of, base::specs::Pick::pick))]
fn port_of(kind: u64, t: Token) -> Option<u32>
    ensures { result ≡ port_of kind t }
{
    if t.major == 0 {
        if t.arg <= MOST_PORT {
            return Some(t.arg as u32);
        }
        return None;
    }
    if kind == 106 {
        if is_null(t) {
            return Some(NULL_PORT);
        }
        return None;
    }
    None
}

// The simple value 22, whose head has one byte (a float's is longer).
#[tactic(auto, unfolding(crate::specs::Locator::is_null))]
fn is_null(t: Token) -> bool
    ensures { result ≡ is_null t }
{
    if t.major == 7 {
        if t.arg == 22 {
            if t.at < t.body {
                return t.body - t.at == 1;
            }
            return false;
        }
        return false;
    }
    false
}

#[tactic(auto, unfolding(crate::specs::Locator::locator_of, base::specs::Pick::pick))]
fn locator_of(kind: u64, at: usize, len: usize, protocol: u8, port: u32) -> Locator
    ensures { result ≡ locator_of kind at len protocol port }
{
    if kind == 103 {
        return Locator::V6 { at, protocol, port };
    }
    if kind == 104 {
        return Locator::V4 { at, protocol, port };
    }
    if kind == 105 {
        return Locator::Domain {
            name: Span { at, len },
            protocol,
            port,
        };
    }
    Locator::Uri {
        uri: Span { at, len },
        protocol,
        port,
    }
}

// A locator as five numbers: 103 to 106, the place and length of its address, domain name or URI, protocol, port.
#[tactic(auto, unfolding(crate::specs::Locator::locator_numbers))]
pub fn numbers_of(l: Locator) -> [u64; 5]
    ensures { result ≡ locator_numbers l }
{
    match l {
        Locator::V6 { at, protocol, port } => [103, at as u64, 16, protocol as u64, port as u64],
        Locator::V4 { at, protocol, port } => [104, at as u64, 4, protocol as u64, port as u64],
        Locator::Domain {
            name,
            protocol,
            port,
        } => [
            105,
            name.at as u64,
            name.len as u64,
            protocol as u64,
            port as u64,
        ],
        Locator::Uri {
            uri,
            protocol,
            port,
        } => [
            106,
            uri.at as u64,
            uri.len as u64,
            protocol as u64,
            port as u64,
        ],
    }
}
