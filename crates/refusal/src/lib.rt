// Refusals (rules 3.1): why something that was handed in is not taken. `include/grasp.h` names them for C.
#![tactic(auto)]

ghost use Rattle.std.specs.Prelude.{◌≡◌};
ghost use Rattle.refusal.specs.Refusal.{number_of};

#[derive(Clone, Copy, Debug, PartialEq, Eq)]
pub enum Refusal {
    // of the bytes of a message
    BadSize,
    Cut,
    Reserved,
    Indefinite,
    LongHead,
    TooDeep,
    BytesAfter,
    UnknownKind,
    BadShape,
    LongName,
    BadText,
    // of a record or a node call
    BadRecord,
    BadLink,
    EarlyClock,
    BadTable,
    BadNames,
    CallOutput,
    // of a description to write
    NoSuchMessage,
    WriteOutput,
    // of a negotiation
    NotAllowed,
}

// The refusal's number, 1 to 20.
impl From<Refusal> for u8 {
    ghost from_gives = { λ refusal number. number ≡ number_of refusal };

    fn from(refusal: Refusal) -> u8 {
        match refusal {
            Refusal::BadSize => 1,
            Refusal::Cut => 2,
            Refusal::Reserved => 3,
            Refusal::Indefinite => 4,
            Refusal::LongHead => 5,
            Refusal::TooDeep => 6,
            Refusal::BytesAfter => 7,
            Refusal::UnknownKind => 8,
            Refusal::BadShape => 9,
            Refusal::LongName => 10,
            Refusal::BadText => 11,
            Refusal::BadRecord => 12,
            Refusal::BadLink => 13,
            Refusal::EarlyClock => 14,
            Refusal::BadTable => 15,
            Refusal::BadNames => 16,
            Refusal::CallOutput => 17,
            Refusal::NoSuchMessage => 18,
            Refusal::WriteOutput => 19,
            Refusal::NotAllowed => 20,
        }
    }
}

// A refusal with its place in the bytes.
#[derive(Clone, Copy, Debug, PartialEq, Eq)]
pub struct Refused {
    pub refusal: Refusal,
    pub place: usize,
}
