// MODE SELECT(10): page 01h, out of the lent parameter list.
ghost use Rattle.std.specs.Prelude.{◌≡◌};
ghost use Rattle.command.specs.Done.{done_of};
ghost use Rattle.mode.specs.ModeSelect.{is_page, selected, mode_select};

use command::done::{Done, done_with};
use deck::Deck;
use gate::fault::Fault;
use page::{Page, is_setting};

// A list: eight header bytes and the page's eight.
const LIST: usize = 16;

// The page begins with its code, its length and one of the twenty settings.
fn is_page(code: u8, len: u8, recovery: u8) -> bool
    ensures { result ≡ is_page code len recovery }
{
    code == 0x01 && len == 0x06 && is_setting(recovery)
}

// The page's recovery byte and retry count are set where it begins as it must; else it is a bad one.
fn selected(code: u8, len: u8, recovery: u8, retry: u8, m: Deck) -> Done
    ensures { result ≡ done_of (selected code len recovery retry m) }
{
    if is_page(code, len, recovery) {
        return done_with(m.with_page(Page { recovery, retry }));
    }
    Err(Fault::ListField)
}

// MODE SELECT: n is the packet's list length, which is 0 or 16 and the lent list's. The list's header and its last four bytes are not looked at.
pub fn mode_select(n: usize, list: &[u8], m: Deck) -> Done
    ensures { result ≡ done_of (mode_select n list.now m) }
{
    if n != list.len() {
        return Err(Fault::ListLength);
    }
    if n == 0 {
        return done_with(m);
    }
    if n != LIST {
        return Err(Fault::ListLength);
    }
    selected(list[8], list[9], list[10], list[11], m)
}
