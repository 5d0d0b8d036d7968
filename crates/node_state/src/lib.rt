// What a node keeps from call to call (rules 6, 7): its record, the relay table that it is lent, and the keys of the
// table's rows.
#![tactic(auto)]

ghost use Rattle.std.specs.Prelude.{◌≡◌};
ghost use Rattle.node_state.specs.Record.{record_bad, blank, fresh, fresh_or_blank, set_links};

use refusal::Refusal;

pub mod key;
mod links;
pub mod table;

// A node's record (rules 6.1). Bit i of `links` is set when interface i is up; `clock` is the last accepted clock in
// ms; `tally` is the copies of all relays.
#[repr(C)]
#[derive(Clone, Copy)]
pub struct Record {
    pub address: [u8; 16],
    pub port: u16,
    pub ttl: u32,
    pub interfaces: u8,
    pub links: u8,
    pub clock: u64,
    pub tally: u64,
}

impl Record {
    // House limit (rules 7.1): how many rows the relay table has.
    pub const ROWS: usize = 64;
    // House limit (rules 7.5): how long the row of a Discovery lives, in ms.
    pub const DISCOVERY_LIFE: u64 = 60_000;
    // House limit (rules 7.5): how long the row of a Flood lives, in ms.
    pub const FLOOD_LIFE: u64 = 120_000;
    // House limit (rules 6.2): how many interfaces a node has at most.
    pub const MOST_INTERFACES: u64 = 8;
    // House limit (rules 6.2): the greatest tally of a record that is not refused.
    pub const MOST_TALLY: u64 = 9_223_372_036_854_775_808;

    // All zeros, for want of a record: every node call refuses it as a bad one.
    pub fn blank() -> Record
        ensures { result ≡ blank }
    {
        Record {
            address: [0; 16],
            port: 0,
            ttl: 0,
            interfaces: 0,
            links: 0,
            clock: 0,
            tally: 0,
        }
    }

    // A fresh record: refused as a bad one where the interfaces aren't 1 to 8 or a link bit is at or above their
    // number.
    pub fn fresh(
        address: [u8; 16],
        port: u16,
        ttl: u32,
        interfaces: u64,
        mask: u64,
    ) -> Result<Record, Refusal>
        ensures { result ≡ fresh address port ttl interfaces mask }
    {
        if links::are_bad(interfaces, mask) {
            return Err(Refusal::BadRecord);
        }
        Ok(Record {
            address,
            port,
            ttl,
            interfaces: interfaces as u8,
            links: mask as u8,
            clock: 0,
            tally: 0,
        })
    }

    // A fresh record, or the blank one where it is refused.
    pub fn fresh_or_blank(
        address: [u8; 16],
        port: u16,
        ttl: u32,
        interfaces: u64,
        mask: u64,
    ) -> Record
        ensures { result ≡ fresh_or_blank address port ttl interfaces mask }
    {
        Record::fresh(address, port, ttl, interfaces, mask).unwrap_or(Record::blank())
    }

    // The record with other links: refused where it is bad, or where the mask has a bit at or above the count. A
    // refusal leaves the caller's own record.
    pub fn set_links(self, mask: u64) -> Result<Record, Refusal>
        ensures { result ≡ set_links self mask }
    {
        if self.is_bad() {
            return Err(Refusal::BadRecord);
        }
        if links::are_bad(self.interfaces as u64, mask) {
            return Err(Refusal::BadLink);
        }
        Ok(Record {
            links: mask as u8,
            ..self
        })
    }

    // The links are bad, or the tally is above its limit.
    pub fn is_bad(self) -> bool
        ensures { result ≡ record_bad self }
    {
        if links::are_bad(self.interfaces as u64, self.links as u64) {
            return true;
        }
        Record::MOST_TALLY < self.tally
    }
}
