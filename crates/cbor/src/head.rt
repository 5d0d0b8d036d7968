// The head of an item (RFC 8949, section 3).
ghost use Rattle.std.specs.Prelude.{◌≡◌, ◌+◌, ◌*◌, ◌≤◌, length};
ghost use Rattle.base.specs.BigEndian.{big_endian};
ghost use Rattle.cbor.specs.Head.{width_of, least_of, initial_of, judged, head_of, head_from, head_at};

use refusal::{Refusal, Refused};

// A head of `len` bytes.
#[derive(Clone, Copy, Debug, PartialEq, Eq)]
pub struct Head {
    pub major: u8,
    pub arg: u64,
    pub len: usize,
}

// What a head's first byte says: the major type, and how many bytes of argument follow.
#[derive(Clone, Copy, Debug, PartialEq, Eq)]
pub struct Initial {
    pub major: u8,
    pub width: usize,
}

// The head at the start of s, or the refusal with its place. Inlined, with what it asks: the walk comes here for each
// head that its short ways don't tell.
#[inline]
#[tactic(auto, unfolding(crate::specs::Head::head_at))]
pub fn read(s: &[u8]) -> Result<Head, Refused>
    ensures { result ≡ head_at s.now }
{
    match s.split_first() {
        None => Err(refused(Refusal::Cut, 0)),
        Some((first, rest)) => read_from(*first, rest),
    }
}

// A refusal at a place.
fn refused(refusal: Refusal, place: usize) -> Refused
    ensures { result ≡ record { refusal = refusal; place = place } }
{
    Refused { refusal, place }
}

// The head with this first byte, with `rest` after it.
#[inline]
#[tactic(auto, unfolding(crate::specs::Head::head_of, crate::specs::Head::head_by), using(crate::proofs::Bounds::begun_width))]
fn read_from(first: u8, rest: &[u8]) -> Result<Head, Refused>
    ensures { result ≡ head_of first rest.now }
{
    let begun = initial_byte(first).map_err(|refusal| refused(refusal, 0))?;
    read_argument(first, begun, rest)
}

// A first byte by itself: additional information 31 is indefinite, 28 to 30 are reserved.
#[tactic(auto, unfolding(crate::specs::Head::initial_of, base::specs::Pick::pick), using(base::proofs::Tests::tests))]
pub fn initial_byte(first: u8) -> Result<Initial, Refusal>
    ensures { result ≡ initial_of first }
{
    let info = first % 32;
    if info == 31 {
        return Err(Refusal::Indefinite);
    }
    if 28 <= info {
        return Err(Refusal::Reserved);
    }
    Ok(Initial {
        major: first / 32,
        width: width_of(info),
    })
}

// How many bytes of argument follow the first byte, by additional information below 28.
#[tactic(auto, unfolding(crate::specs::Head::width_of, base::specs::Pick::pick), using(base::proofs::Tests::tests))]
fn width_of(info: u8) -> usize
    ensures { result ≡ width_of info }
{
    match info {
        0..24 => 0,
        24 => 1,
        25 => 2,
        26 => 4,
        _ => 8,
    }
}

// The head with this first byte, which says so much; `rest` begins with its bytes of argument.
#[inline]
#[tactic(auto, unfolding(crate::specs::Head::head_from, crate::specs::Head::arg_of, base::specs::Pick::pick), using(base::proofs::Tests::tests))]
fn read_argument(first: u8, begun: Initial, rest: &[u8]) -> Result<Head, Refused>
    requires { begun.width ≤ 8 }
    ensures { result ≡ head_from first begun.major begun.width rest.now }
{
    let width = begun.width;
    if rest.len() < width {
        return Err(refused(Refusal::Cut, rest.len() + 1));
    }
    if width == 0 {
        return judge(begun.major, u64::from(first % 32), width);
    }
    judge(begun.major, big_endian(rest, width), width)
}

// The number that the first n bytes spell, the most significant first.
fn big_endian(s: &[u8], n: usize) -> u64
    requires { (n ≤ 8) × (n ≤ length s.now) }
    ensures { result ≡ big_endian s.now n }
{
    // The common widths by themselves, with no loop.
    if n == 1 {
        return u64::from(s[0]);
    }
    if n == 2 {
        return two(s[0], s[1]);
    }
    let mut value: u64 = 0;
    for b in &s[..n] {
        value = value * 256 + u64::from(*b);
    }
    value
}

// The number that two bytes spell.
pub(crate) fn two(high: u8, low: u8) -> u64
    ensures { result ≡ high * 256 + low }
{
    high as u64 * 256 + low as u64
}

// A whole head: refused where it is a simple value below 32 in two bytes, or longer than its argument needs.
#[tactic(auto, unfolding(crate::specs::Head::judged, base::specs::Pick::pick), using(base::proofs::Tests::tests))]
fn judge(major: u8, arg: u64, width: usize) -> Result<Head, Refused>
    requires { width ≤ 8 }
    ensures { result ≡ judged major arg width }
{
    let head = Head {
        major,
        arg,
        len: 1 + width,
    };
    if major == 7 {
        if width == 1 && arg < 32 {
            return Err(refused(Refusal::Reserved, 0));
        }
        return Ok(head);
    }
    if arg < least_of(width) {
        return Err(refused(Refusal::LongHead, 0));
    }
    Ok(head)
}

// The least argument that needs this many bytes.
#[tactic(auto, unfolding(crate::specs::Head::least_of, base::specs::Pick::pick), using(base::proofs::Tests::tests))]
fn least_of(width: usize) -> u64
    ensures { result ≡ least_of width }
{
    match width {
        0 => 0,
        1 => 24,
        2 => 0x100,
        4 => 0x1_0000,
        _ => 0x1_0000_0000,
    }
}
