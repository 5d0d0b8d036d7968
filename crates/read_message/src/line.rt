// What the program prints of a message: one line.
ghost use Rattle.std.specs.Prelude.{◌≡◌};
ghost use Rattle.read_message.specs.Line.{line_of};

use message::fields;
use text::line;
use text::line::Line;

// `kind` and the number of the message's kind, or `refused` and the number of the refusal.
#[tactic(auto, unfolding(crate::specs::Line::line_of, crate::specs::Line::line_from))]
pub fn line_of(s: &[u8]) -> Line
    ensures { result ≡ line_of s.now }
{
    match reader::read(s) {
        Err(refusal) => line::refused_line(u8::from(refusal)),
        Ok(message) => line::kind_line(fields::kind_of(message)),
    }
}
