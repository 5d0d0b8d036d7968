// Reading, for C.
ghost use Rattle.std.specs.Prelude.{◌≡◌};
ghost use Rattle.grasp.specs.Reading.{read_number, read_block, locator_end, locator_after, pair_end, pair_after};

use forms::block;

// 0 and the message's block, or the number of the refusal and the block as it was.
#[tactic(auto, unfolding(crate::specs::Reading::read_number, crate::specs::Reading::number_from, crate::specs::Reading::read_block, crate::specs::Reading::block_from))]
pub fn grasp_read(bytes: &[u8], fields: &mut [u64; 19]) -> u8
    ensures value { result ≡ read_number bytes.now }
    ensures fields_after { fields.new ≡ read_block bytes.now fields.old }
{
    match reader::read(bytes) {
        Err(refusal) => u8::from(refusal),
        Ok(m) => {
            block::fill(fields, m);
            0
        }
    }
}

// The place after the locator at `at` and its block, or 0 and the block as it was where no locator is there.
pub fn grasp_locator(bytes: &[u8], at: usize, fields: &mut [u64; 5]) -> usize
    ensures value { result ≡ locator_end bytes.now at }
    ensures fields_after { fields.new ≡ locator_after bytes.now at fields.old }
{
    match options::locator::read_at(bytes, at) {
        Err(_) => 0,
        Ok(l) => {
            *fields = options::locator::numbers_of(l.value);
            at + l.size
        }
    }
}

// The place after the pair at `at` and its block, or 0 and the block as it was where no pair is there.
pub fn grasp_pair(bytes: &[u8], at: usize, fields: &mut [u64; 12]) -> usize
    ensures value { result ≡ pair_end bytes.now at }
    ensures fields_after { fields.new ≡ pair_after bytes.now at fields.old }
{
    match options::pair::read_at(bytes, at) {
        Err(_) => 0,
        Ok(p) => {
            *fields = options::pair::numbers_of(p.value.objective, p.value.tag);
            at + p.size
        }
    }
}
