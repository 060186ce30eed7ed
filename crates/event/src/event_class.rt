// The class that GET EVENT STATUS NOTIFICATION answers; bit n of a byte is class n.
ghost use Rattle.std.specs.Prelude.{◌≡◌};
ghost use Rattle.event.specs.EventClass.{waiting, lowest, class_for};

use deck::NO_EVENT;

// External request and media.
pub const SUPPORTED: u8 = 0x18;

pub const MEDIA: u8 = 4;

// A byte with no class in it has eight trailing zeros. (No `Option`: `class_for_bits` and `event_bytes` speak of class 8.)
pub const NO_CLASS: u8 = 8;

// The bit of the class media.
const MEDIA_BIT: u8 = 0x10;

// The classes that have an event waiting: media alone can. (0 is a byte with no bit set.)
fn waiting(event: u8) -> u8
    ensures { result ≡ waiting event }
{
    if event == NO_EVENT {
        return 0;
    }
    MEDIA_BIT
}

// The lowest class of those whose bits are set.
fn lowest(classes: u8) -> u8
    ensures { result ≡ lowest classes }
{
    classes.trailing_zeros() as u8
}

// The lowest class asked for and supported that has an event waiting, or of all those where none has.
pub fn class_for(asked: u8, event: u8) -> u8
    ensures { result ≡ class_for asked event }
{
    let classes = asked & SUPPORTED;
    let having = classes & waiting(event);
    if having == 0 {
        return lowest(classes);
    }
    lowest(having)
}
