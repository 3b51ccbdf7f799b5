//! Nybbles of the runs of a raster, added up for all forms at once.

ghost use Rattle.std.specs.Prelude.{◌≡◌, ◌<◌, ◌≤◌, ◌+◌, ◌^◌, ℕ, length, slice_index};
ghost use Rattle.pk_packer.specs.Counts.{nybbles_by, nybbles_past};
ghost use Rattle.pk_packer.specs.Spelling.{added_length, repeat_text};

use crate::lengths::Lengths;
use crate::numbers::{NybbleCounts, number_counts, repeat_counts};

/// How many nybbles numbers take: those whose turn is `t` take `before[t]` together by each `dyn_f`
/// below `t`, and `from[t]` by each other. A turn above 14 counts as 14.
#[derive(Drop)]
pub struct Tally {
    pub before: [u64; 15],
    pub from: [u64; 15],
}

impl Tally {
    /// No nybbles.
    pub fn none() -> Tally
        ensures before { (t : ℕ) → slice_index result.before t ≡ 0 }
        ensures from { (t : ℕ) → slice_index result.from t ≡ 0 }
    {
        Tally {
            before: [0; 15],
            from: [0; 15],
        }
    }

    /// Adds a run and the repeat count before it, or 0.
    pub fn add(&mut self, count: u32, len: u32)
        requires count { count < 2 ^ 30 }
        requires len { len < 2 ^ 30 }
        requires room_before { (t : ℕ) → slice_index self.old.before t < 2 ^ 40 }
        requires room_from { (t : ℕ) → slice_index self.old.from t < 2 ^ 40 }
        ensures added { (f : ℕ) → f < 14 → nybbles_past self.new (f + 1)
            ≡ nybbles_past self.old (f + 1) + added_length f count len }
        ensures few_before { (t : ℕ) →
            slice_index self.new.before t ≤ slice_index self.old.before t + 35 }
        ensures few_from { (t : ℕ) →
            slice_index self.new.from t ≤ slice_index self.old.from t + 35 }
    {
        self.add_count(count);
        self.add_counts(number_counts(len));
    }

    // Adds a repeat count, and nothing for 0.
    fn add_count(&mut self, n: u32)
        requires small { n < 2 ^ 30 }
        requires room_before { (t : ℕ) → slice_index self.old.before t < 2 ^ 40 }
        requires room_from { (t : ℕ) → slice_index self.old.from t < 2 ^ 40 }
        ensures added { 1 ≤ n → (f : ℕ) → f < 14 → nybbles_past self.new (f + 1)
            ≡ nybbles_past self.old (f + 1) + length (repeat_text f n) }
        ensures none { n ≡ 0 → (f : ℕ) → f < 14 →
            nybbles_past self.new (f + 1) ≡ nybbles_past self.old (f + 1) }
        ensures few_before { (t : ℕ) →
            slice_index self.new.before t ≤ slice_index self.old.before t + 18 }
        ensures few_from { (t : ℕ) →
            slice_index self.new.from t ≤ slice_index self.old.from t + 18 }
    {
        if n == 0 {
            return;
        }
        self.add_counts(repeat_counts(n));
    }

    // Adds the nybbles of a number or of a repeat count.
    fn add_counts(&mut self, more: NybbleCounts)
        requires room_before { (t : ℕ) → slice_index self.old.before t < 2 ^ 41 }
        requires room_from { (t : ℕ) → slice_index self.old.from t < 2 ^ 41 }
        ensures added { (f : ℕ) → f < 14 → nybbles_past self.new (f + 1)
            ≡ nybbles_past self.old (f + 1) + nybbles_by more f }
        ensures few_before { (t : ℕ) →
            slice_index self.new.before t ≤ slice_index self.old.before t + more.before }
        ensures few_from { (t : ℕ) →
            slice_index self.new.from t ≤ slice_index self.old.from t + more.from }
    {
        let turn = more.turn.min(14) as usize;
        self.before[turn] += u64::from(more.before);
        self.from[turn] += u64::from(more.from);
    }

    /// The lengths by each `dyn_f`.
    pub fn lengths(&self) -> Lengths
        requires room_before { (t : ℕ) → slice_index self.now.before t < 2 ^ 41 }
        requires room_from { (t : ℕ) → slice_index self.now.from t < 2 ^ 41 }
        ensures { (f : ℕ) → f < 14 → slice_index result f ≡ nybbles_past self.now (f + 1) }
    {
        let mut counts = [0; 14];
        let mut len = self.len_before();
        for f in 0..14 {
            len = len + self.from[f] - self.before[f];
            counts[f] = len;
        }
        Lengths::new(counts)
    }

    // How many nybbles there are where no turn has passed.
    fn len_before(&self) -> u64
        requires { (t : ℕ) → slice_index self.now.before t < 2 ^ 41 }
        ensures value { result ≡ nybbles_past self.now 0 }
        ensures few { result < 2 ^ 45 }
    {
        let mut len = 0;
        for turn in 0..15 {
            len += self.before[turn];
        }
        len
    }
}
