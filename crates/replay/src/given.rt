// The totals that a record of a shelf begins with.
ghost use Rattle.std.specs.Prelude.{◌+◌, ◌*◌, ◌≤◌, length};

use shelf::totals::Totals;

// The bytes of thirteen totals, eight each.
pub const TOTALS: usize = 104;

// Total i: eight bytes, the high one first.
fn total_at(body: &[u8], i: usize) -> u64
    requires { 8 * i + 8 ≤ length body.now }
{
    let mut bytes = [0u8; 8];
    bytes.copy_from_slice(&body[8 * i..8 * i + 8]);
    u64::from_be_bytes(bytes)
}

// All of them.
pub(crate) fn totals_of(body: &[u8]) -> Totals
    requires { 104 ≤ length body.now }
{
    Totals {
        tables: total_at(body, 0),
        fit: total_at(body, 1),
        rule1: total_at(body, 2),
        rule2: total_at(body, 3),
        rule3: total_at(body, 4),
        rule4: total_at(body, 5),
        rule5: total_at(body, 6),
        rule6: total_at(body, 7),
        rule7: total_at(body, 8),
        tracks: total_at(body, 9),
        data_blocks: total_at(body, 10),
        audio_blocks: total_at(body, 11),
        trackless: total_at(body, 12),
    }
}
