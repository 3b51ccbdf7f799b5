//! A run with its repeat count.

ghost use Rattle.std.specs.Prelude.{◌<◌, ◌^◌};

/// A run, and the repeat count before it, or 0.
#[derive(Clone, Copy)]
pub struct CountedRun {
    pub count: u32,
    pub len: u32,
    ghost few: { count < 2 ^ 30 },
    ghost short: { len < 2 ^ 30 },
}
