// The negotiation step, for C.
ghost use Rattle.std.specs.Prelude.{◌≡◌};
ghost use Rattle.grasp.specs.Negotiating.{step_by, step_number, state_after};

use host::states;
use negotiation::{Side, State};
use refusal::Refusal;

// 0 and the state that the message leads to, or the number of the refusal and the state as it was.
#[tactic(auto, unfolding(crate::specs::Negotiating::step_number, crate::specs::Negotiating::state_after, crate::specs::Negotiating::numbers_from))]
pub fn grasp_step(state: &mut [u64; 4], message: &[u8], side: u64) -> u8
    ensures value { result ≡ step_number state.old message.now side }
    ensures state_after { state.new ≡ state_after state.old message.now side }
{
    match step_by(states::state_of(state), message, side) {
        Ok(after) => {
            *state = states::numbers_of(after);
            0
        }
        Err(refusal) => u8::from(refusal),
    }
}

// A step by the side of this number. One that is no side is refused as by a closed state: by the message's own number,
// or by 20.
#[tactic(auto, unfolding(crate::specs::Negotiating::step_by, base::specs::Pick::pick))]
fn step_by(state: State, message: &[u8], side: u64) -> Result<State, Refusal>
    ensures { result ≡ step_by state message.now side }
{
    if 1 < side {
        return negotiation::step(State::Closed, message, Side::Us);
    }
    negotiation::step(state, message, states::side_of(side))
}
