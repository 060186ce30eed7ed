// The thirteen totals, and one step: a table counted.
ghost use Rattle.std.specs.Prelude.{◌≡◌, true};
ghost use Rattle.disc.specs.Rules.{is_fit};
ghost use Rattle.disc.specs.Disc.{disc_of};
ghost use Rattle.shelf.specs.Count.{one_if};
ghost use Rattle.shelf.specs.Totals.{nothing, sum, of_table, bounded, numbers_of};
ghost use Rattle.shelf.specs.TotalsLaws.{of_rule, plus};

use crate::content::held_by;
use disc::disc::{Disc, read};
use ground::number::wide;

// The totals, in the order of their lines.
#[derive(Clone, Copy, Default)]
pub struct Totals {
    pub tables: u64,
    pub fit: u64,
    pub rule1: u64,
    pub rule2: u64,
    pub rule3: u64,
    pub rule4: u64,
    pub rule5: u64,
    pub rule6: u64,
    pub rule7: u64,
    pub tracks: u64,
    pub data_blocks: u64,
    pub audio_blocks: u64,
    pub trackless: u64,
}

// One of the totals is past 64 bits.
#[derive(Clone, Copy, Debug, PartialEq, Eq)]
pub struct TooLarge;

// Of no table.
pub fn nothing() -> Totals
    ensures { result ≡ nothing }
{
    Totals::default()
}

// 1 where the test holds, else 0. (A function, since the definition `one_if` has that name.)
fn one_if(b: bool) -> u64
    ensures { result ≡ one_if b }
{
    u64::from(b)
}

// Of one table, by the first rule that it breaks; what a fit one holds is not counted.
fn of_rule(rule: u8) -> Totals
    ensures { result ≡ of_rule rule }
{
    Totals {
        tables: 1,
        fit: one_if(rule == 0),
        rule1: one_if(rule == 1),
        rule2: one_if(rule == 2),
        rule3: one_if(rule == 3),
        rule4: one_if(rule == 4),
        rule5: one_if(rule == 5),
        rule6: one_if(rule == 6),
        rule7: one_if(rule == 7),
        ..nothing()
    }
}

// Of a fit table: its tracks are numbered without a gap, and the blocks up to L that are no data and lie in a track are audio.
fn of_fit(t: &[u8], disc: Disc) -> Totals
    requires { (is_fit t.now ≡ true) × (disc ≡ disc_of t.now) }
    ensures { result ≡ of_table t.now }
{
    let h = held_by(t);
    Totals {
        tables: 1,
        fit: 1,
        tracks: (wide(disc.last) + 1 - wide(disc.first)) as u64,
        data_blocks: h.of_data as u64,
        audio_blocks: (disc.lead_out - h.of_data - h.of_none) as u64,
        trackless: h.of_none as u64,
        ..nothing()
    }
}

// Of one table.
fn of_table(t: &[u8]) -> Totals
    ensures { result ≡ of_table t.now }
{
    match read(t) {
        Ok(disc) => of_fit(t, disc),
        Err(unfit) => of_rule(unfit.rule),
    }
}

// The sum, where it is within 64 bits.
fn plus(a: u64, b: u64) -> Result<u64, TooLarge>
    ensures { result ≡ plus a b }
{
    a.checked_add(b).ok_or(TooLarge)
}

// Each of the sums, where all are within 64 bits.
pub(crate) fn add(a: Totals, b: Totals) -> Result<Totals, TooLarge>
    ensures { result ≡ bounded (sum a b) }
{
    Ok(Totals {
        tables: plus(a.tables, b.tables)?,
        fit: plus(a.fit, b.fit)?,
        rule1: plus(a.rule1, b.rule1)?,
        rule2: plus(a.rule2, b.rule2)?,
        rule3: plus(a.rule3, b.rule3)?,
        rule4: plus(a.rule4, b.rule4)?,
        rule5: plus(a.rule5, b.rule5)?,
        rule6: plus(a.rule6, b.rule6)?,
        rule7: plus(a.rule7, b.rule7)?,
        tracks: plus(a.tracks, b.tracks)?,
        data_blocks: plus(a.data_blocks, b.data_blocks)?,
        audio_blocks: plus(a.audio_blocks, b.audio_blocks)?,
        trackless: plus(a.trackless, b.trackless)?,
    })
}

// One table more.
pub fn count(totals: Totals, table: &[u8]) -> Result<Totals, TooLarge>
    ensures { result ≡ bounded (sum totals (of_table table.now)) }
{
    add(totals, of_table(table))
}

// The totals in the order of their lines.
pub fn numbers(totals: Totals) -> [u64; 13]
    ensures { result ≡ numbers_of totals }
{
    [
        totals.tables,
        totals.fit,
        totals.rule1,
        totals.rule2,
        totals.rule3,
        totals.rule4,
        totals.rule5,
        totals.rule6,
        totals.rule7,
        totals.tracks,
        totals.data_blocks,
        totals.audio_blocks,
        totals.trackless,
    ]
}
