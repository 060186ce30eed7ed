// READ SUB-CHANNEL: what the packet asks for, and the answer.
ghost use Rattle.std.specs.Prelude.{◌≡◌, ◌≤◌, length};
ghost use Rattle.table.specs.Layout.{bound};
ghost use Rattle.command.specs.Command.{length_in};
ghost use Rattle.audio.specs.SubChannel.{sub_ask_in};
ghost use Rattle.target.specs.Perform.{Performed, tells};

use crate::perform::answer;
use audio::sub_channel::{position_bytes, reported, status_bytes, sub_ask, sub_bad};
use command::done::Done;
use deck::Deck;
use ground::number::word16;
use tracks::track::track_of;

// The position's track is that of the table lent now.
pub(crate) fn read_sub_channel(p: &[u8; 12], m: Deck, t: &[u8], mem: &mut [u8]) -> Done
    requires { bound ≤ length mem.old }
    ensures { Performed (tells (sub_ask_in p.now) (length_in p.now) m t.now) mem.old result mem.new }
{
    let ask = sub_ask(p[1], p[2], p[3]);
    let limit = word16(p[7], p[8]);
    let play = m.play;
    let next = m.with_play(reported(play));
    if ask.sub_q {
        let full = position_bytes(ask.msf, track_of(t, play.position), play);
        return answer(sub_bad(ask), next, &full, limit, mem);
    }
    answer(sub_bad(ask), next, &status_bytes(play), limit, mem)
}
