//! Threads that look the one font up at once, and how many look-ups they make together.
ghost use Rattle.std.specs.Prelude.{◌≡◌, ◌+◌, ◌<◌, ◌≤◌, ℕ, All, IsTrue};

use crate::pace::{MAX_TURNS, Pace};
use outside::FontKey;
use std::sync::{Arc, Wait};
use std::thread;
use std::thread::Threads;
use std::time::{Clock, Duration};

/// Who looks the one font up.
pub(crate) trait Looker: Drop {
    /// Whether it has no claim.
    ghost ready: { Self → Type 0 };

    /// How often it may look.
    ghost room: { Self → ℕ };

    /// Looks the font up. Says whether it was a hit.
    fn look<R: Wait>(&mut self, rt: &R, key: &Arc<FontKey>) -> bool
        requires ready { ready self.old }
        requires room { 1 ≤ room self.old }
        ensures ready { IsTrue result → ready self.new }
        ensures room { IsTrue result → room self.old ≤ room self.new + 1 };
}

// Looks until the time is up, or a look is no hit.
fn look_ups<R: Wait, L: Looker>(rt: &R, looker: &mut L, key: &Arc<FontKey>, pace: &Pace)
    requires ready { L.ready looker.old }
    requires room { MAX_TURNS ≤ L.room looker.old }
{
    let mut looks = 0u64;
    let mut x = 1;
    pace.meet();
    for _i in 0..MAX_TURNS {
        if pace.is_over() {
            break;
        }
        if !looker.look(rt, key) {
            return;
        }
        looks = looks.wrapping_add(1);
        x = pace.work(x);
    }
    pace.note(looks, x);
}

fn all_look_ups<R: Threads + Wait + Sync, L: Looker + Send>(
    rt: &R,
    lookers: &mut [L],
    key: &Arc<FontKey>,
    pace: &Pace,
)
    requires { All (λ l. L.ready l × (MAX_TURNS ≤ L.room l)) lookers.old }
{
    let threads = lookers.len().max(1);
    thread::for_each_mut(
        rt,
        lookers,
        threads,
        &|_, looker: &mut L|
            requires { L.ready looker.old × (MAX_TURNS ≤ L.room looker.old) }
        { look_ups(rt, looker, key, pace) },
    );
}

/// How many look-ups a second all of them make together, each in a thread of its own, with so many
/// steps of work between two look-ups.
pub(crate) fn rate<R: Threads + Wait + Sync + Clock, L: Looker + Send>(
    rt: &R,
    lookers: &mut [L],
    key: &Arc<FontKey>,
    steps: u64,
    time: Duration,
) -> Option<u64>
    requires { All (λ l. L.ready l × (MAX_TURNS ≤ L.room l)) lookers.old }
{
    let pace = Pace::new(lookers.len(), steps);
    let (nanos, ()) = thread::join(
        rt,
        || pace.end_after(rt, time),
        ||
            requires { All (λ l. L.ready l × (MAX_TURNS ≤ L.room l)) lookers.now }
        { all_look_ups(rt, lookers, key, &pace) },
    );
    pace.rate(nanos.ok()?)
}
