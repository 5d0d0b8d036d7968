// Masks of links: bit i is set when interface i is up.
ghost use Rattle.std.specs.Prelude.{◌≡◌};
ghost use Rattle.node_state.specs.Record.{links_bad};

use crate::Record;

// The interfaces aren't 1 to 8, or a bit is set at or above their number.
pub(crate) fn are_bad(interfaces: u64, mask: u64) -> bool
    ensures { result ≡ links_bad interfaces mask }
{
    if interfaces == 0 {
        return true;
    }
    if Record::MOST_INTERFACES < interfaces {
        return true;
    }
    (1 << interfaces) <= mask
}
