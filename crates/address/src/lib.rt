// Block address to M:S:F and back, exact both ways; refusal 8 outside the ranges of rule 6.
#![tactic(auto)]

ghost use Rattle.std.specs.Prelude.{◌≡◌};
ghost use Rattle.address.specs.Address.{to_msf, to_block, is_msf, frames, address_of, shown_address, msf_meaning, block_meaning};

use ground::number::{bytes32, wide};

// The refusal of an address that no M:S:F has, or of an M:S:F that no block has. (A number, as `msf_meaning` and `block_meaning` give it.)
pub const REFUSED: u8 = 8;

// The greatest block address.
pub const LAST: usize = 449849;

// Frames before block 0, which stands at 00:02:00.
const LEAD: usize = 150;

// Minute, second and frame from 00:00:00 on.
#[derive(Clone, Copy)]
pub struct Msf {
    pub minute: u8,
    pub second: u8,
    pub frame: u8,
}

// Refusal 8: an address that no M:S:F has, or an M:S:F that no block has.
#[derive(Clone, Copy, Debug, PartialEq, Eq)]
pub struct OutOfRange;

// The M:S:F of a block address.
pub fn to_msf(address: usize) -> Result<Msf, OutOfRange>
    ensures { msf_meaning result ≡ to_msf address }
{
    if LAST < address {
        return Err(OutOfRange);
    }
    let frames = address + LEAD;
    Ok(Msf {
        minute: (frames / 75 / 60) as u8,
        second: (frames / 75 % 60) as u8,
        frame: (frames % 75) as u8,
    })
}

// The block address of an M:S:F. (Three bytes, as a packet or a descriptor has them and the definition `to_block` takes them.)
pub fn to_block(minute: u8, second: u8, frame: u8) -> Result<usize, OutOfRange>
    ensures { block_meaning result ≡ to_block minute second frame }
{
    if 99 < minute || 59 < second || 74 < frame {
        return Err(OutOfRange);
    }
    let frames = frames_of(minute, second, frame);
    if frames < LEAD {
        return Err(OutOfRange);
    }
    Ok(frames - LEAD)
}

// Frames from 00:00:00 on.
fn frames_of(minute: u8, second: u8, frame: u8) -> usize
    ensures { result ≡ frames minute second frame }
{
    (wide(minute) * 60 + wide(second)) * 75 + wide(frame)
}

// The address that the formula gives, 0 before 00:02:00: of any three bytes.
pub fn address_of(minute: u8, second: u8, frame: u8) -> usize
    ensures { result ≡ address_of minute second frame }
{
    frames_of(minute, second, frame).saturating_sub(LEAD)
}

// The M:S:F is one that rule 6 allows.
pub fn is_msf(minute: u8, second: u8, frame: u8) -> bool
    ensures { result ≡ is_msf minute second frame }
{
    to_block(minute, second, frame).is_ok()
}

// An address as an answer shows it: four bytes, or 0 M S F.
pub fn shown_address(msf: bool, a: usize) -> [u8; 4]
    ensures { result ≡ shown_address msf a }
{
    if !msf {
        return bytes32(a);
    }
    match to_msf(a) {
        Ok(m) => [0, m.minute, m.second, m.frame],
        Err(OutOfRange) => [0, 0, 0, 0],
    }
}
