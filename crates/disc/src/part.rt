// A session's part of the lent table itself, and its refusal asked apart.
ghost use Rattle.std.specs.Prelude.{◌≡◌};
ghost use Rattle.disc.specs.Part.{PartOf, refusal_meaning, part_refused, part_start, part_size};

use crate::disc::{Unfit, read};
use sessions::session::{session_bytes, starts_after};
use table::layout::HEADER;

// The refusals' numbers, as `refusal_meaning` gives them: a table that is not fit, and a session that is 0 or over S.
pub const UNFIT: u8 = 4;

pub const NO_SESSION: u8 = 10;

// Why a session's part is refused: 4 with the broken rule, or 10.
#[derive(Clone, Copy, Debug, PartialEq, Eq)]
pub enum Refusal {
    Unfit(Unfit),
    NoSession,
}

// A refusal's number, and the rule beside it; 0 and 0 where there is none.
#[derive(Clone, Copy)]
pub struct Ruled {
    pub number: u8,
    pub rule: u8,
}

// What a refusal stands for, as `session_refusal` gives it.
pub fn number_and_rule(refusal: Option<Refusal>) -> Ruled
    ensures { result ≡ refusal_meaning refusal }
{
    match refusal {
        None => Ruled { number: 0, rule: 0 },
        Some(Refusal::Unfit(unfit)) => Ruled {
            number: UNFIT,
            rule: unfit.rule,
        },
        Some(Refusal::NoSession) => Ruled {
            number: NO_SESSION,
            rule: 0,
        },
    }
}

// How the part of session k is refused, if it is.
pub fn session_refusal(t: &[u8], k: u8) -> Option<Refusal>
    ensures { refusal_meaning result ≡ part_refused t.now k }
{
    match read(t) {
        Err(unfit) => Some(Refusal::Unfit(unfit)),
        Ok(disc) => {
            if 1 <= k && k <= disc.sessions {
                None
            } else {
                Some(Refusal::NoSession)
            }
        }
    }
}

// The descriptors of session k, as a part of the table; the empty part where it is refused.
pub fn session_part(t: &[u8], k: u8) -> &[u8]
    ensures { PartOf t.entry result (part_start t.now k) (part_size t.now k) }
{
    if session_refusal(t, k).is_some() {
        return &t[..0];
    }
    let d = &t[HEADER..];
    let from = starts_after(d, k - 1);
    let bytes = session_bytes(&d[from..]);
    let at = HEADER + from;
    &t[at..at + bytes]
}
