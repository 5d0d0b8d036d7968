// The shortest head written (RFC 8949, section 4.1), and bytes put behind it.
ghost use Rattle.std.specs.Prelude.{◌≡◌, ◌+◌, ◌≤◌, length};
ghost use Rattle.std.proofs.lemmas.List.Edits.{sets};
ghost use Rattle.base.specs.BigEndian.{bytes_of};
ghost use Rattle.cbor.specs.Tree.{info_of, Sized, shortest};
ghost use Rattle.cbor.specs.Put.{head_end, head_put, all_end, all_put};

// How many bytes the shortest head with this argument has.
pub fn head_len(arg: u64) -> usize
    ensures { result ≡ 1 + shortest arg }
{
    if arg < 24 {
        return 1;
    }
    if arg < 0x100 {
        return 2;
    }
    if arg < 0x1_0000 {
        return 3;
    }
    if arg < 0x1_0000_0000 {
        return 5;
    }
    9
}

// The shortest head of major types 0 to 6 stored from `at` on; the answer is the position after it. Where it doesn't
// fit, the answer is one past the end and nothing is stored.
pub fn head(out: &mut [u8], at: usize, major: u8, arg: u64) -> usize
    ensures value { result ≡ head_end out.old at major arg }
    ensures out_after { out.new ≡ head_put out.old at major arg }
{
    let room = out.len();
    let len = head_len(arg);
    if 6 < major {
        return room + 1;
    }
    if room < len {
        return room + 1;
    }
    if room - len < at {
        return room + 1;
    }
    let width = len - 1;
    out[at] = major * 32 + info(width, arg);
    spell(out, at + 1, width, arg);
    at + len
}

// The additional information of a head with so many bytes of argument.
fn info(width: usize, arg: u64) -> u8
    requires { Sized width arg }
    ensures { result ≡ info_of width arg }
{
    if width == 0 {
        return arg as u8;
    }
    if width == 1 {
        return 24;
    }
    if width == 2 {
        return 25;
    }
    if width == 4 {
        return 26;
    }
    27
}

// The n bytes that spell `value`, the most significant first, stored from `at` on. Tried: a copy out of `to_be_bytes`
// misses the speed of this loop, 39 against 16 instructions for a head of one byte and 44 against 24 for one of two.
#[tactic(auto, using(crate::proofs::Stores::spell_turn, crate::proofs::Stores::spell_end))]
fn spell(out: &mut [u8], at: usize, n: usize, value: u64)
    requires { at + n ≤ length out.old }
    ensures { out.new ≡ sets out.old at (bytes_of n value) }
{
    let mut rest = value;
    for i in (0..n).rev() {
        out[at + i] = (rest % 256) as u8;
        rest /= 256;
    }
}

// All bytes of s, or none where they don't fit.
pub fn all(out: &mut [u8], at: usize, s: &[u8]) -> usize
    ensures value { result ≡ all_end out.old at s.now }
    ensures out_after { out.new ≡ all_put out.old at s.now }
{
    let room = out.len();
    if room < at {
        return room + 1;
    }
    if room - at < s.len() {
        return room + 1;
    }
    let end = at + s.len();
    copy(&mut out[at..end], s);
    end
}

// The bytes of s in the place of as many others. Tried: `copy_from_slice` misses the speed of this loop, 1,248 against
// 1,158 instructions to write the Discovery of 15 bytes.
fn copy(to: &mut [u8], s: &[u8])
    requires { length to.old ≡ length s.now }
    ensures { to.new ≡ s.now }
{
    for i in 0..s.len() {
        to[i] = s[i];
    }
}
