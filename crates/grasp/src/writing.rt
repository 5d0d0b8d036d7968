// Writing, for C: a message's block, laid out as `grasp_read` fills it, says what is to be written.
ghost use Rattle.std.specs.Prelude.{◌≡◌};
ghost use Rattle.grasp.specs.Writing.{write_number, write_bytes, write_length};

use forms::described;
use refusal::Refusal;

// 0 with the length and the encoding at the front of `out`, or the number of the refusal with both as they were.
#[tactic(auto, unfolding(crate::specs::Writing::write_number, crate::specs::Writing::number_by, crate::specs::Writing::write_bytes, crate::specs::Writing::bytes_by, crate::specs::Writing::write_length, crate::specs::Writing::length_by))]
pub fn grasp_write(
    source: &[u8],
    list: &[u64],
    fields: &[u64; 19],
    out: &mut [u8],
    length: &mut u64,
) -> u8
    ensures value { result ≡ write_number source.now list.now fields.now out.old }
    ensures out_after { out.new ≡ write_bytes source.now list.now fields.now
        out.old }
    ensures length_after { length.new ≡ write_length source.now list.now fields.now
        out.old length.old }
{
    let Some(description) = described::described_by(fields, list.len()) else {
        return u8::from(Refusal::NoSuchMessage);
    };
    match writer::write(source, list, description, out) {
        Ok(n) => {
            *length = n as u64;
            0
        }
        Err(refusal) => u8::from(refusal),
    }
}
