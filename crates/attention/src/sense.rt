// The thirteen sense triples (key/ASC/ASCQ): a table, searched to accept a held sense and cited by every CHECK CONDITION.
ghost use Rattle.std.specs.Prelude.{◌≡◌};
ghost use Rattle.attention.specs.Sense.{sense_at, is_known};

#[repr(C)]
#[derive(Clone, Copy, PartialEq, Eq)]
pub struct Sense {
    pub key: u8,
    pub asc: u8,
    pub ascq: u8,
}

// The rows of the table, by what they say: numbers, since the table is a form that 01 names and `sense_at` promises an answer for each.
pub const NO_SENSE: usize = 0;

pub const NO_MEDIUM_CLOSED: usize = 1;

pub const NO_MEDIUM_OPEN: usize = 2;

pub const UNKNOWN_CODE: usize = 3;

pub const OUT_OF_RANGE: usize = 4;

pub const BAD_FIELD: usize = 5;

pub const REMOVAL_PREVENTED: usize = 6;

pub const ILLEGAL_MODE: usize = 7;

pub const CHANGED: usize = 8;

pub const POWERED: usize = 9;

pub const LIST_LENGTH: usize = 10;

pub const LIST_FIELD: usize = 11;

pub const NO_SAVING: usize = 12;

const ROWS: [Sense; 13] = [
    Sense {
        key: 0x00,
        asc: 0x00,
        ascq: 0x00,
    },
    Sense {
        key: 0x02,
        asc: 0x3A,
        ascq: 0x01,
    },
    Sense {
        key: 0x02,
        asc: 0x3A,
        ascq: 0x02,
    },
    Sense {
        key: 0x05,
        asc: 0x20,
        ascq: 0x00,
    },
    Sense {
        key: 0x05,
        asc: 0x21,
        ascq: 0x00,
    },
    Sense {
        key: 0x05,
        asc: 0x24,
        ascq: 0x00,
    },
    Sense {
        key: 0x05,
        asc: 0x53,
        ascq: 0x02,
    },
    Sense {
        key: 0x05,
        asc: 0x64,
        ascq: 0x00,
    },
    Sense {
        key: 0x06,
        asc: 0x28,
        ascq: 0x00,
    },
    Sense {
        key: 0x06,
        asc: 0x29,
        ascq: 0x00,
    },
    Sense {
        key: 0x05,
        asc: 0x1A,
        ascq: 0x00,
    },
    Sense {
        key: 0x05,
        asc: 0x26,
        ascq: 0x00,
    },
    Sense {
        key: 0x05,
        asc: 0x39,
        ascq: 0x00,
    },
];

// Row i of the table, and 00/00/00 past its end.
pub fn sense_at(i: usize) -> Sense
    ensures { result ≡ sense_at i }
{
    ROWS.get(i).copied().unwrap_or(ROWS[NO_SENSE])
}

// The held sense is one of the thirteen.
pub fn is_known(s: Sense) -> bool
    ensures { result ≡ is_known s }
{
    ROWS.contains(&s)
}
