// A run of blocks: whether it lies wholly in tracks of one mode, told by descriptors and not by blocks.
ghost use Rattle.std.specs.Prelude.{◌≡◌, ◌+◌};
ghost use Rattle.table.specs.Layout.{descriptors};
ghost use Rattle.tracks.specs.Track.{passes, all_pass, run_is};

use crate::track::{Mode, Track, descriptors, is_flagged, is_mode, track_at, track_of};
use ground::number::wide;
use table::layout::{A2, ROW, is_track};

// Descriptor c lets the run of n blocks from a on pass.
fn passes(mode: Mode, c: Track, a: usize, n: usize) -> bool
    ensures { result ≡ passes mode c a (a + n) }
{
    if c.start < a || n <= c.start - a {
        return true;
    }
    if is_track(wide(c.number)) {
        return is_flagged(mode, c.flags);
    }
    c.number != A2
}

// Every descriptor lets the run pass; its session's lead-out has no part in that.
fn all_pass(mode: Mode, d: &[u8], a: usize, n: usize) -> bool
    ensures { result ≡ all_pass mode d.now a (a + n) }
{
    for j in 0..d.len() / ROW {
        if !passes(mode, track_at(d, j, 0), a, n) {
            return false;
        }
    }
    true
}

// Every one of the n blocks from a on lies in a track of the mode.
pub fn run_is(mode: Mode, t: &[u8], a: usize, n: usize) -> bool
    ensures { result ≡ run_is mode (descriptors t.now) a n }
{
    n == 0 || is_mode(mode, track_of(t, a)) && all_pass(mode, descriptors(t), a, n)
}
