// Reading of a stream by pieces of a known length.
#![tactic(auto)]

ghost use Rattle.std.specs.Prelude.{◌≡◌, ◌≤◌, ◌<◌, ◌-◌, ℕ, List, length, take, drop, replicate, IfOk, IfErr};
ghost use Rattle.std.specs.Io.KnownBytes.{Consumes, IsAtEnd};

use std::io;
use std::io::Read;

// Reads until buf is full or the input ends, and returns how many bytes it put at the start of buf. Where it is known
// what the input gives, these are its next bytes, and fewer than buf has room for only at its end. After an error the
// input has given some bytes that are lost, or none.
pub fn read_full<R: Read>(input: &mut R, buf: &mut [u8]) -> io::Result<usize>
    ensures count { IfOk result (λ n. n ≤ length buf.new) }
    ensures bytes { IfOk result (λ n. Consumes (R.remaining input.old) (R.remaining input.new) (take n buf.new)) }
    ensures end { IfOk result (λ n. n < length buf.new → IsAtEnd (R.remaining input.new)) }
    ensures lost { IfErr result (λ e. (bs : List ℕ) × Consumes (R.remaining input.old) (R.remaining input.new) bs) }
{
    // By hand: of an input that ends early, `read_exact` doesn't say how many bytes came, as `count` and `bytes` do.
    let mut done = 0;
    while done < buf.len() {
        let n = input.read(&mut buf[done..])?;
        if n == 0 {
            return Ok(done);
        }
        done += n;
    }
    Ok(done)
}

// The next bytes of the input, as many as the array has room for. Zeros stand for those that the input ends before.
pub fn read_array<R: Read, const N: usize>(input: &mut R) -> io::Result<[u8; N]>
    ensures bytes { IfOk result (λ bs. (n : ℕ) × (n ≤ N)
        × Consumes (R.remaining input.old) (R.remaining input.new) (take n bs)
        × (n < N → IsAtEnd (R.remaining input.new))
        × (drop n bs ≡ replicate (N - n) 0)) }
    ensures lost { IfErr result (λ e. (bs : List ℕ) × Consumes (R.remaining input.old) (R.remaining input.new) bs) }
{
    let mut bytes = [0u8; N];
    let all = &mut bytes[..];
    let n = read_full(input, all)?;
    all[n..].fill(0);
    Ok(bytes)
}
