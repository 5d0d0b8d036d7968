// The state of a negotiation as a host keeps it: four numbers, its phase, session, count and turn.
ghost use Rattle.std.specs.Prelude.{◌≡◌};
ghost use Rattle.host.specs.States.{side_of, side_number, state_of, state_numbers};

use negotiation::{Side, State};

// What the numbers say. A number that isn't one of ours closes the state: a closed one refuses every message, by the
// message's own number or by 20.
pub fn state_of(numbers: &[u64; 4]) -> State
    ensures { result ≡ state_of numbers.now }
{
    let phase = numbers[0];
    let session = numbers[1];
    let count = numbers[2];
    let turn = numbers[3];
    if 4_294_967_295 < session {
        return State::Closed;
    }
    if 255 < count {
        return State::Closed;
    }
    if 1 < turn {
        return State::Closed;
    }
    if phase == 0 {
        return State::Fresh;
    }
    if phase == 1 {
        return State::Open {
            session: session as u32,
            count: count as u8,
            turn: side_of(turn),
        };
    }
    State::Closed
}

pub fn numbers_of(state: State) -> [u64; 4]
    ensures { result ≡ state_numbers state }
{
    match state {
        State::Fresh => [0, 0, 0, 0],
        State::Open {
            session,
            count,
            turn,
        } => [1, session as u64, count as u64, number_of(turn)],
        State::Closed => [2, 0, 0, 0],
    }
}

pub fn side_of(number: u64) -> Side
    ensures { result ≡ side_of number }
{
    if number == 0 {
        return Side::Us;
    }
    Side::Them
}

// A number, since C keeps a side so.
fn number_of(side: Side) -> u64
    ensures { result ≡ side_number side }
{
    match side {
        Side::Us => 0,
        Side::Them => 1,
    }
}
