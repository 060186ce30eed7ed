// PLAY AUDIO(10) and PAUSE/RESUME; l is the last lead-out.
ghost use Rattle.std.specs.Prelude.{◌≡◌, ◌+◌, ◌<◌};
ghost use Rattle.command.specs.Done.{done_of};
ghost use Rattle.audio.specs.Audio.{started, play, resumed, pause_resume};

use blocks::range::in_range;
use command::done::{Done, done_with};
use deck::Deck;
use gate::fault::Fault;
use play::{COMPLETED, NONE, PAUSED, PLAYING, Play};

// The n blocks from a on are played; none leave the record.
fn started(a: usize, n: usize, m: Deck) -> Deck
    requires { a + n < 18446744073709551616 }
    ensures { result ≡ started a n m }
{
    if n == 0 {
        return m;
    }
    m.with_play(Play {
        status: PLAYING,
        position: a,
        end: a + n,
    })
}

// PLAY AUDIO(10): range first, then track mode (`all` says that every block lies in an audio track).
pub fn play_blocks(all: bool, a: usize, n: usize, l: usize, m: Deck) -> Done
    ensures { result ≡ done_of (play all a n l m) }
{
    if !in_range(a, n, l) {
        return Err(Fault::OutOfRange);
    }
    if !all {
        return Err(Fault::IllegalMode);
    }
    done_with(started(a, n, m))
}

// The status after a resume, or a pause.
fn resumed(resume: bool) -> u8
    ensures { result ≡ resumed resume }
{
    if resume {
        return PLAYING;
    }
    PAUSED
}

// PAUSE/RESUME: what is playing or paused becomes what is asked for.
pub fn pause_resume(resume: bool, m: Deck) -> Done
    ensures { result ≡ done_of (pause_resume resume m) }
{
    if m.play.status == COMPLETED || m.play.status == NONE {
        return Err(Fault::BadField);
    }
    done_with(m.with_play(m.play.with_status(resumed(resume))))
}
