//! How many calls of the font cache are of which kind.
ghost use Rattle.std.specs.Prelude.{◌≡◌, ◌+◌, ◌^◌, ◌≤◌, []};
ghost use Rattle.cache_core.specs.Views.{calls_of, done_of};
ghost use Rattle.run_report.specs.Summary as kinds;
ghost use Rattle.run_report.specs.Tallies.{Counts, HasRoom, IsTally};

use cache_core::{Act, Entry};

/// The calls of each kind, and the fonts that were evicted.
#[derive(Clone, Copy, Debug)]
pub struct Tally {
    pub looks: usize,
    pub hits: usize,
    pub claims: usize,
    pub busy: usize,
    pub evictions: u128,
    pub releases: usize,
}

// Whether a key was looked up.
fn is_look(act: &Act) -> bool
    ensures { result ≡ kinds.is_look (done_of act.now) }
{
    matches!(act, Act::Hit | Act::Claimed | Act::Busy)
}

// How many fonts were evicted.
fn evicted_by(act: &Act) -> usize
    ensures { result ≡ kinds.evicted_by (done_of act.now) }
{
    match act {
        Act::Filled(fill) => fill.gone.keys().len(),
        _ => 0,
    }
}

impl Tally {
    // No call was counted.
    fn new() -> Tally
        ensures { IsTally result [] }
    {
        Tally {
            looks: 0,
            hits: 0,
            claims: 0,
            busy: 0,
            evictions: 0,
            releases: 0,
        }
    }

    // Counts a call.
    fn count(&mut self, act: &Act)
        requires { HasRoom self.old }
        ensures counts { Counts self.old self.new (done_of act.now) }
        ensures few { self.new.evictions ≤ self.old.evictions + 2 ^ 64 }
    {
        if is_look(act) {
            self.looks += 1;
        }
        match act {
            Act::Hit => self.hits += 1,
            Act::Claimed => self.claims += 1,
            Act::Busy => self.busy += 1,
            Act::Filled(_) => self.evictions += evicted_by(act) as u128,
            Act::Released => self.releases += 1,
        }
    }
}

/// Counts the calls of a history.
pub fn tally_of(history: &[Entry]) -> Tally
    ensures { IsTally result (calls_of history.now) }
{
    let mut tally = Tally::new();
    for entry in history {
        tally.count(&entry.act);
    }
    tally
}
