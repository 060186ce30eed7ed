// The triples with which a command fails: the ten of the table that are neither an attention nor 00/00/00.
ghost use Rattle.std.specs.Prelude.{◌≡◌};
ghost use Rattle.gate.specs.Fault.{sense_of};

use attention::sense::{
    BAD_FIELD, ILLEGAL_MODE, LIST_FIELD, LIST_LENGTH, NO_MEDIUM_CLOSED, NO_MEDIUM_OPEN, NO_SAVING,
    OUT_OF_RANGE, REMOVAL_PREVENTED, Sense, UNKNOWN_CODE, sense_at,
};

#[derive(Clone, Copy)]
pub enum Fault {
    NoMediumClosed,
    NoMediumOpen,
    UnknownCode,
    OutOfRange,
    BadField,
    RemovalPrevented,
    IllegalMode,
    ListLength,
    ListField,
    NoSaving,
}

// The row of the table that the fault cites. (Not `From<Fault> for Sense`: docs/PROMISES.md names this function.)
pub fn sense_of(f: Fault) -> Sense
    ensures { result ≡ sense_of f }
{
    match f {
        Fault::NoMediumClosed => sense_at(NO_MEDIUM_CLOSED),
        Fault::NoMediumOpen => sense_at(NO_MEDIUM_OPEN),
        Fault::UnknownCode => sense_at(UNKNOWN_CODE),
        Fault::OutOfRange => sense_at(OUT_OF_RANGE),
        Fault::BadField => sense_at(BAD_FIELD),
        Fault::RemovalPrevented => sense_at(REMOVAL_PREVENTED),
        Fault::IllegalMode => sense_at(ILLEGAL_MODE),
        Fault::ListLength => sense_at(LIST_LENGTH),
        Fault::ListField => sense_at(LIST_FIELD),
        Fault::NoSaving => sense_at(NO_SAVING),
    }
}
