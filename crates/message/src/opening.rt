// What several kinds begin with: a session, an initiator and a ttl.
ghost use Rattle.std.specs.Prelude.{◌≡◌, ◌≤◌};
ghost use Rattle.options.specs.Text.{content_of};
ghost use Rattle.message.specs.Opening.{number_read, is_initiator, initiator_read, opening_at};

use cbor::token;
use cbor::token::Token;
use options::{Departure, Span};

// The greatest session, ttl and waiting time.
const MOST_NUMBER: u32 = 4_294_967_295;

#[derive(Clone, Copy)]
pub struct Opening {
    pub session: u32,
    pub initiator: Span,
    pub ttl: u32,
}

// A session, an initiator and a ttl from `at` on, with the place of the item after them.
#[tactic(auto, unfolding(crate::specs::Opening::opening_at, crate::specs::Opening::number_read, crate::specs::Opening::initiator_read, base::specs::Pick::pick))]
pub(crate) fn read_at(s: &[u8], at: usize) -> Result<(Opening, usize), Departure>
    ensures { result ≡ opening_at s.now at }
{
    let (session, second) = number_at(s, at)?;
    let (initiator, third) = initiator_at(s, second)?;
    let (ttl, next) = number_at(s, third)?;
    let opening = Opening {
        session,
        initiator,
        ttl,
    };
    Ok((opening, next))
}

// A session, ttl or waiting time at `at`, with the place of the item after it.
#[tactic(auto, unfolding(crate::specs::Opening::number_read, base::specs::Pick::pick))]
pub(crate) fn number_at(s: &[u8], at: usize) -> Result<(u32, usize), Departure>
    ensures { result ≡ number_read s.now at }
{
    let t = token::number_at(s, at);
    let number = token::up_to(MOST_NUMBER, t);
    if (MOST_NUMBER as u64) < number {
        return Err(Departure { place: t.at });
    }
    Ok((number as u32, t.next))
}

// An initiator at `at`, a byte string of 4 or 16 bytes, with the place of the item after it.
#[tactic(auto, unfolding(crate::specs::Opening::initiator_read, base::specs::Pick::pick))]
pub(crate) fn initiator_at(s: &[u8], at: usize) -> Result<(Span, usize), Departure>
    ensures { result ≡ initiator_read s.now at }
{
    let t = token::string_at(s, at);
    if !is_initiator(t) {
        return Err(Departure { place: t.at });
    }
    let span = Span {
        at: t.body,
        len: t.next - t.body,
    };
    Ok((span, t.next))
}

// A byte string of 4 or 16 bytes.
#[tactic(auto, unfolding(crate::specs::Opening::is_initiator))]
fn is_initiator(t: Token) -> bool
    ensures { result ≡ is_initiator t }
{
    t.major == 2 && (t.arg == 4 || t.arg == 16)
}
