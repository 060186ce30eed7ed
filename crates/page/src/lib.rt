// Mode page 01h: its recovery byte and retry count.
#![tactic(auto)]

ghost use Rattle.std.specs.Prelude.{◌≡◌};
ghost use Rattle.page.specs.Page.{defaults, is_setting};

#[repr(C)]
#[derive(Clone, Copy, Default)]
pub struct Page {
    pub recovery: u8,
    pub retry: u8,
}

// The twenty settings that the recovery byte may have.
const SETTINGS: [u8; 20] = [
    0x00, 0x01, 0x04, 0x05, 0x06, 0x07, 0x10, 0x11, 0x14, 0x15, 0x20, 0x21, 0x24, 0x25, 0x26, 0x27,
    0x30, 0x31, 0x34, 0x35,
];

// The default values: what power-on restores.
pub fn defaults() -> Page
    ensures { result ≡ defaults }
{
    Page::default()
}

// The recovery byte is one of the twenty settings.
pub fn is_setting(b: u8) -> bool
    ensures { result ≡ is_setting b }
{
    SETTINGS.contains(&b)
}
