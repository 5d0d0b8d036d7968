// The functions of `grasp` as the C archive exports them: each calls the one of its name and states its clauses again.
// The archive is `libgrasp.a`, and `include/grasp.h` documents it. They stand twice for the C interface: exports need a
// crate of their own, and the laws of `grasp_laws` rest on a library.
#![tactic(auto)]

ghost use Rattle.std.specs.Prelude.{◌≡◌};
ghost use Rattle.grasp.specs.Reading.{read_block, read_number, locator_after, locator_end, pair_after, pair_end};
ghost use Rattle.grasp.specs.Writing.{write_bytes, write_number, write_length};
ghost use Rattle.node.specs.Call.{call_of};
ghost use Rattle.host.specs.Call.{left_of, call_left};
ghost use Rattle.grasp.specs.Call.{host_call};
ghost use Rattle.refusal.specs.Refusal.{answer_number};
ghost use Rattle.node_state.specs.Record.{fresh, set_links};
ghost use Rattle.host.specs.Records.{numbers_after, node_of, keeps, fresh_over, links_over};
ghost use Rattle.grasp.specs.Negotiating.{step_number, state_after};

use node_state::Record;

// -- reading
// 0 and the message's block, or the number of the refusal and the block as it was.
#[unsafe(no_mangle)]
pub extern "C" fn grasp_read(bytes: &[u8], fields: &mut [u64; 19]) -> u8
    ensures value { result ≡ read_number bytes.now }
    ensures fields_after { fields.new ≡ read_block bytes.now fields.old }
{
    grasp::reading::grasp_read(bytes, fields)
}

// The place after the locator at `at` and its block, or 0 and the block as it was where no locator is there.
#[unsafe(no_mangle)]
pub extern "C" fn grasp_locator(bytes: &[u8], at: usize, fields: &mut [u64; 5]) -> usize
    ensures value { result ≡ locator_end bytes.now at }
    ensures fields_after { fields.new ≡ locator_after bytes.now at fields.old }
{
    grasp::reading::grasp_locator(bytes, at, fields)
}

// The place after the pair at `at` and its block, or 0 and the block as it was where no pair is there.
#[unsafe(no_mangle)]
pub extern "C" fn grasp_pair(bytes: &[u8], at: usize, fields: &mut [u64; 12]) -> usize
    ensures value { result ≡ pair_end bytes.now at }
    ensures fields_after { fields.new ≡ pair_after bytes.now at fields.old }
{
    grasp::reading::grasp_pair(bytes, at, fields)
}

// -- writing
// 0 with the length and the encoding at the front of `out`, or the number of the refusal with both as they were.
#[unsafe(no_mangle)]
pub extern "C" fn grasp_write(
    source: &[u8],
    list: &[u64],
    fields: &[u64; 19],
    out: &mut [u8],
    length: &mut u64,
) -> u8
    ensures value { result ≡ write_number source.now list.now fields.now out.old }
    ensures out_after { out.new ≡ write_bytes source.now list.now fields.now
        out.old }
    ensures length_after { length.new ≡ write_length source.now list.now fields.now
        out.old length.old }
{
    grasp::writing::grasp_write(source, list, fields, out, length)
}

// -- the node call
// 0 and the record's numbers, the table, the output and the answer (verdict, handed up, mask, length) as the call
// leaves them; or the number of the refusal, and all of them as they were. The table is lent as 2,048 bytes; another
// length is 15 in its turn.
#[unsafe(no_mangle)]
pub extern "C" fn grasp_node_call(
    address: &[u8; 16],
    numbers: &mut [u64; 6],
    bytes: &mut [u8],
    clock: u64,
    interface: u64,
    names: &[u8],
    message: &[u8],
    out: &mut [u8],
    answer: &mut [u64; 4],
) -> u8
    ensures { left_of result numbers.new bytes.new out.new answer.new
        ≡ host_call address.now numbers.old bytes.old
        (call_of clock interface names.now message.now out.old)
        answer.old }
{
    grasp::call::grasp_node_call(
        address, numbers, bytes, clock, interface, names, message, out, answer,
    )
}

// -- records
// 0 and the numbers of a fresh record, or 12 and the numbers as they were.
#[unsafe(no_mangle)]
pub extern "C" fn grasp_fresh(
    address: &[u8; 16],
    port: u16,
    ttl: u32,
    interfaces: u64,
    links: u64,
    numbers: &mut [u64; 6],
) -> u8
    ensures value { result ≡ answer_number (fresh address.now port ttl interfaces links) }
    ensures numbers_after { numbers.new ≡ numbers_after (fresh address.now port ttl interfaces links)
        numbers.old }
{
    grasp::records::grasp_fresh(address, port, ttl, interfaces, links, numbers)
}

// 0 and the numbers with other links, or the number of the refusal and the numbers as they were.
#[unsafe(no_mangle)]
pub extern "C" fn grasp_set_links(address: &[u8; 16], numbers: &mut [u64; 6], links: u64) -> u8
    ensures value { result ≡ answer_number (set_links (node_of address.now numbers.old) links) }
    ensures numbers_after { numbers.new ≡ numbers_after
        (set_links (node_of address.now numbers.old) links) numbers.old }
{
    grasp::records::grasp_set_links(address, numbers, links)
}

// -- records in place
// 0 and a fresh record, or 12.
#[unsafe(no_mangle)]
pub extern "C" fn grasp_record_fresh(
    node: &mut Record,
    address: &[u8; 16],
    port: u16,
    ttl: u32,
    interfaces: u64,
    links: u64,
) -> u8
    ensures { keeps result node.new
        ≡ fresh_over node.old address.now port ttl interfaces links }
{
    grasp::in_place::grasp_record_fresh(node, address, port, ttl, interfaces, links)
}

// 0 and the record with other links, or the number of the refusal.
#[unsafe(no_mangle)]
pub extern "C" fn grasp_record_set_links(node: &mut Record, links: u64) -> u8
    ensures { keeps result node.new ≡ links_over node.old links }
{
    grasp::in_place::grasp_record_set_links(node, links)
}

// 0 and the record, the table, the output and the answer as the node call leaves them, or the number of the refusal.
#[unsafe(no_mangle)]
pub extern "C" fn grasp_record_call(
    node: &mut Record,
    bytes: &mut [u8],
    clock: u64,
    interface: u64,
    names: &[u8],
    message: &[u8],
    out: &mut [u8],
    answer: &mut [u64; 4],
) -> u8
    ensures { left_of result node.new bytes.new out.new answer.new
        ≡ call_left node.old bytes.old
        (call_of clock interface names.now message.now out.old)
        answer.old }
{
    grasp::in_place::grasp_record_call(node, bytes, clock, interface, names, message, out, answer)
}

// -- negotiation
// 0 and the state that the message leads to, or the number of the refusal and the state as it was.
#[unsafe(no_mangle)]
pub extern "C" fn grasp_step(state: &mut [u64; 4], message: &[u8], side: u64) -> u8
    ensures value { result ≡ step_number state.old message.now side }
    ensures state_after { state.new ≡ state_after state.old message.now side }
{
    grasp::negotiating::grasp_step(state, message, side)
}
