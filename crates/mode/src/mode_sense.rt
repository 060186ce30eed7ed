// MODE SENSE(10): page 01h, by its page control.
ghost use Rattle.std.specs.Prelude.{◌≡◌};
ghost use Rattle.mode.specs.ModeSense.{changeable, values_of, page_shown, mode_bytes};

use gate::fault::Fault;
use ground::number::wide;
use page::{Page, defaults};

// The one page that there is.
const PAGE: usize = 0x01;

// The page controls; any other is that of the current values. (Numbers, since the definition `values_of` takes the two bits as one.)
const CHANGEABLE: usize = 1;

const DEFAULT: usize = 2;

const SAVED: usize = 3;

// The bits that MODE SELECT can change.
fn changeable() -> Page
    ensures { result ≡ changeable }
{
    Page {
        recovery: 0x37,
        retry: 0xFF,
    }
}

// The values that a page control asks for, of the current ones.
fn values_of(control: usize, current: Page) -> Page
    ensures { result ≡ values_of control current }
{
    if control == CHANGEABLE {
        return changeable();
    }
    if control == DEFAULT {
        return defaults();
    }
    current
}

// The values that are shown: another page is a bad field, and then saved values are not to be had; b is the packet's byte 2.
pub fn page_shown(b: u8, current: Page) -> Result<Page, Fault>
    ensures { result ≡ page_shown b current }
{
    let control = wide(b) / 64;
    if wide(b) % 64 != PAGE {
        return Err(Fault::BadField);
    }
    if control == SAVED {
        return Err(Fault::NoSaving);
    }
    Ok(values_of(control, current))
}

// Eight header bytes, and the page.
pub fn mode_bytes(g: Page) -> [u8; 16]
    ensures { result ≡ mode_bytes g }
{
    [
        0x00, 0x0E, 0, 0, 0, 0, 0, 0, 0x01, 0x06, g.recovery, g.retry, 0, 0, 0, 0,
    ]
}
