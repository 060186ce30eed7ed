// Steps 3 to 5: what each command does that is performed. (That the memory has room, and that the disc was read off this table, ties values to what
// is lent for one call: a type of them would borrow all that and be opened in each arm, and be no plainer.)
ghost use Rattle.std.specs.Prelude.{◌≡◌, ◌+◌, ◌≤◌, length};
ghost use Rattle.ground.specs.Tests.{◌and◌};
ghost use Rattle.table.specs.Layout.{descriptors};
ghost use Rattle.tracks.specs.Track.{all_in};
ghost use Rattle.blocks.specs.Range.{in_range};
ghost use Rattle.command.specs.Command.{word_at};
ghost use Rattle.command.specs.Done.{answering, done_of};
ghost use Rattle.target.specs.FitFacts.{ReadOff};
ghost use Rattle.target.specs.PerformLaws.{Met, Ready};
ghost use Rattle.target.specs.Perform.{Performed, L, reads, plays, work, perform};

use crate::get_event::get_event;
use crate::mode_sense::mode_sense;
use crate::read_sub_channel::read_sub_channel;
use crate::read_toc::read_toc;
use audio::audio::{pause_resume, play_blocks};
use blocks::blocks::{capacity_bytes, read_blocks, seek};
use blocks::range::in_range;
use command::decode::{Command, needs_disc};
use command::done::{Done, Went, done_with, went_with};
use command::field::bit;
use command::inquiry::inquiry_bytes;
use command::tray::{no_medium, prevent, start_stop};
use deck::Deck;
use disc::disc::Disc;
use gate::fault::Fault;
use ground::memory::put_cut;
use ground::number::{wide, word16, word32};
use mode::mode_select::mode_select;
use tracks::run::run_is;
use tracks::track::Mode;

// A command's answer: a field in the packet is bad, or the full answer is laid, cut to the limit.
pub(crate) fn answer(bad: bool, next: Deck, full: &[u8], limit: usize, mem: &mut [u8]) -> Done
    requires { length full.now ≤ length mem.old }
    ensures { Performed (answering bad next full.now limit) mem.old result mem.new }
{
    if bad {
        return Err(Fault::BadField);
    }
    let len = put_cut(full, limit, mem);
    Ok(Went {
        len,
        ..went_with(next)
    })
}

// The number in the packet's four bytes from i on.
fn word_at(p: &[u8; 12], i: usize) -> usize
    requires { i ≤ 8 }
    ensures { result ≡ word_at p.now i }
{
    word32(p[i], p[i + 1], p[i + 2], p[i + 3])
}

// Every one of the n blocks from a on lies in a track of the mode; a run that is out of range is not looked at.
fn lies_in(mode: Mode, a: usize, n: usize, t: &[u8], disc: Disc) -> bool
    requires { ReadOff t.now disc }
    ensures { result ≡ in_range a n (L t.now) and all_in mode (descriptors t.now) a n }
{
    in_range(a, n, disc.lead_out) && run_is(mode, t, a, n)
}

// READ of n blocks from a on. (Not one function with `play_run`: it would match on the mode to pick `read_blocks` or `play_blocks`, and be no plainer.)
fn read_run(a: usize, n: usize, m: Deck, t: &[u8], disc: Disc) -> Done
    requires { ReadOff t.now disc }
    ensures { result ≡ done_of (reads a n m t.now) }
{
    read_blocks(lies_in(Mode::Data, a, n, t, disc), a, n, disc.lead_out, m)
}

// PLAY of n blocks from a on.
fn play_run(a: usize, n: usize, m: Deck, t: &[u8], disc: Disc) -> Done
    requires { ReadOff t.now disc }
    ensures { result ≡ done_of (plays a n m t.now) }
{
    play_blocks(lies_in(Mode::Audio, a, n, t, disc), a, n, disc.lead_out, m)
}

// Step 5: each command's own work. (REQUEST SENSE never comes here: `steps` answers it by `ask_sense`.)
fn work(
    c: Command,
    p: &[u8; 12],
    m: Deck,
    t: &[u8],
    list: &[u8],
    disc: Disc,
    mem: &mut [u8],
) -> Done
    requires { Met c p.now t.now disc mem.old }
    ensures { Performed (work c p.now m t.now list.now) mem.old result mem.new }
{
    match c {
        Command::TestUnitReady => done_with(m),
        Command::RequestSense => done_with(m),
        Command::Inquiry => answer(bit::<0>(p[1]), m, &inquiry_bytes(), wide(p[4]), mem),
        Command::StartStop => start_stop(p[4], m),
        Command::Prevent => prevent(p[4], m),
        Command::ReadCapacity => answer(false, m, &capacity_bytes(disc.lead_out), 8, mem),
        Command::Read10 => read_run(word_at(p, 2), word16(p[7], p[8]), m, t, disc),
        Command::Seek => seek(word_at(p, 2), disc.lead_out, m),
        Command::ReadToc => read_toc(p, m, t, disc, mem),
        Command::Read12 => read_run(word_at(p, 2), word_at(p, 6), m, t, disc),
        Command::PlayAudio => play_run(word_at(p, 2), word16(p[7], p[8]), m, t, disc),
        Command::PauseResume => pause_resume(bit::<0>(p[8]), m),
        Command::ReadSubChannel => read_sub_channel(p, m, t, mem),
        Command::ModeSense => mode_sense(p, m, mem),
        Command::ModeSelect => mode_select(word16(p[7], p[8]), list, m),
        Command::GetEvent => get_event(p, m, mem),
        Command::Unknown => Err(Fault::UnknownCode),
    }
}

// Steps 3 to 5: an unknown code, then a disc that is needed, then the work.
pub(crate) fn perform(
    c: Command,
    p: &[u8; 12],
    m: Deck,
    t: &[u8],
    list: &[u8],
    disc: Disc,
    mem: &mut [u8],
) -> Done
    requires { Ready m t.now disc mem.old }
    ensures { Performed (perform c p.now m t.now list.now) mem.old result mem.new }
{
    if needs_disc(c, p[4]) && !m.is_loaded() {
        return Err(no_medium(m));
    }
    work(c, p, m, t, list, disc, mem)
}
