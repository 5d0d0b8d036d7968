// Spans of the source.
ghost use Rattle.std.specs.Prelude.{◌≡◌, length};
ghost use Rattle.options.specs.Text.{held};

use options::Span;

// How many bytes of the source a span covers.
pub fn covered(source: &[u8], s: Span) -> usize
    ensures { result ≡ length (held source.now s) }
{
    let from = s.at;
    if source.len() < from {
        return 0;
    }
    let room = source.len() - from;
    if room < s.len {
        return room;
    }
    s.len
}
