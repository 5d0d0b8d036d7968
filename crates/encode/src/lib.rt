// GRASP messages encoded (RFC 8990) from a description into a buffer that is lent, every head in its shortest form.
#![tactic(auto)]

ghost use Rattle.std.specs.Prelude.{◌≡◌};
ghost use Rattle.rfc8990.specs.Encoding.{encode_msg};
ghost use Rattle.description.specs.Meaning.{msg_of};
ghost use Rattle.encode.specs.Put.{front_end, front_put};

use description::Description;

mod kinds;
mod locator;
mod objective;
mod pair;
pub mod put;

// The message of a description at the front of the buffer; the answer is its length. Where the buffer is shorter, it is
// cleared and the answer is one more than its length.
pub fn message(out: &mut [u8], source: &[u8], list: &[u64], m: Description) -> usize
    ensures value { result ≡ front_end out.old (encode_msg (msg_of source.now list.now m)) }
    ensures out_after { out.new
        ≡ front_put out.old (encode_msg (msg_of source.now list.now m)) }
{
    let end = kinds::put_message(out, source, list, m);
    if out.len() < end {
        out.fill(0);
        return out.len() + 1;
    }
    end
}
