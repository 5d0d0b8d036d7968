// The key of a message's row: tag and session, and the initiator in two numbers.
ghost use Rattle.std.specs.Prelude.{◌≡◌};
ghost use Rattle.node_state.specs.Key.{tag_of, key_for};

// What a used row is told by: session and tag, and the initiator in two numbers.
#[derive(Clone, Copy)]
pub struct Key {
    pub first: u64,
    pub second: u64,
    pub third: u64,
}

impl Key {
    // The three zeros of a free row.
    pub const NONE: Key = Key {
        first: 0,
        second: 0,
        third: 0,
    };
}

// The key of a Discovery or a Flood. An initiator that has neither 4 nor 16 bytes is no message's: its key is three
// zeros: a function that couldn't fail still can't.
pub fn key_of(flood: bool, session: u32, initiator: &[u8]) -> Key
    ensures { result ≡ key_for flood session initiator.now }
{
    let first = u64::from(session) + 4_294_967_296 * tag_of(flood, initiator.len());
    if let Some(bytes) = initiator.as_array::<4>() {
        return Key {
            first,
            second: u64::from(u32::from_be_bytes(*bytes)),
            third: 0,
        };
    }
    if let Some((high, rest)) = initiator.split_first_chunk::<8>() {
        if let Some(low) = rest.as_array::<8>() {
            return Key {
                first,
                second: u64::from_be_bytes(*high),
                third: u64::from_be_bytes(*low),
            };
        }
    }
    Key::NONE
}

// 1 and 2 for a Discovery whose initiator has 4 and 16 bytes, 3 and 4 for a Flood.
fn tag_of(flood: bool, len: usize) -> u64
    ensures { result ≡ tag_of flood len }
{
    if flood {
        if len == 4 {
            return 3;
        }
        return 4;
    }
    if len == 4 {
        return 1;
    }
    2
}
