//! Commands as rows of a table, and a pen that follows them.
ghost use Rattle.drift_rules.specs.Bounds.{IsInReach};
ghost use Rattle.drift_rules.specs.Position.{value_of_flat};

use drift_rules::{Flat, Mark, Pen, PenStop, Registers};
use pixel_round::{Conv, Scale, Units};
use std::alloc::Global;
use std::process::Abort;

/// A step of a script. `New` takes a new pen, and `Finish` ends the page; the others are commands,
/// a motion with its distance and the space of the font.
#[derive(Clone, Copy)]
pub enum Step {
    New,
    Finish,
    Skip,
    Right(i32, u16),
    W(i32, u16),
    X(i32, u16),
    Down(i32, u16),
    Y(i32, u16),
    Z(i32, u16),
    W0(u16),
    X0(u16),
    Y0(u16),
    Z0(u16),
    SetRule(i32, i32),
    PutRule(i32, i32),
    Push,
    Pop,
    Enter,
    Leave,
    Advance(i32),
}

/// What the pen answers.
pub type Reply = Result<Option<Mark>, PenStop>;

/// A step, its answer, and some registers after it, each by its place among h, v, w, x, y, z, hh
/// and vv.
pub type Row = (Step, Reply, &'static [(usize, i64)]);

pub const H: usize = 0;

pub const V: usize = 1;

pub const W: usize = 2;

pub const X: usize = 3;

pub const Y: usize = 4;

pub const Z: usize = 5;

pub const HH: usize = 6;

pub const VV: usize = 7;

/// One half of a dot for a unit: 1270 * 300 * 1000 over 254000000 * 3.
pub fn half_a_dot() -> Result<Conv, Scale> {
    Conv::new(&Units {
        num: 1270,
        den: 3,
        mag: 1000,
        res: 300,
    })
}

// The command of a step that is a motion.
fn motion(step: Step) -> Flat
    ensures { IsInReach (value_of_flat result) }
{
    match step {
        Step::Right(by, space) => Flat::Right {
            by: i64::from(by),
            space: i64::from(space),
        },
        Step::W(by, space) => Flat::W {
            by: i64::from(by),
            space: i64::from(space),
        },
        Step::X(by, space) => Flat::X {
            by: i64::from(by),
            space: i64::from(space),
        },
        Step::Down(by, space) => Flat::Down {
            by: i64::from(by),
            space: i64::from(space),
        },
        Step::Y(by, space) => Flat::Y {
            by: i64::from(by),
            space: i64::from(space),
        },
        Step::Z(by, space) => Flat::Z {
            by: i64::from(by),
            space: i64::from(space),
        },
        _ => Flat::Skip,
    }
}

// The command of any step.
fn command(step: Step) -> Flat
    ensures { IsInReach (value_of_flat result) }
{
    match step {
        Step::W0(space) => Flat::W0 {
            space: i64::from(space),
        },
        Step::X0(space) => Flat::X0 {
            space: i64::from(space),
        },
        Step::Y0(space) => Flat::Y0 {
            space: i64::from(space),
        },
        Step::Z0(space) => Flat::Z0 {
            space: i64::from(space),
        },
        Step::SetRule(height, width) => Flat::Rule {
            height: i64::from(height),
            width: i64::from(width),
            put: false,
        },
        Step::PutRule(height, width) => Flat::Rule {
            height: i64::from(height),
            width: i64::from(width),
            put: true,
        },
        Step::Push => Flat::Push,
        Step::Pop => Flat::Pop,
        Step::Enter => Flat::Enter,
        Step::Leave => Flat::Leave,
        Step::Advance(width) => Flat::Advance {
            width: i64::from(width),
        },
        _ => motion(step),
    }
}

/// What the pen answers to a step.
pub fn answer(pen: &mut Pen, step: Step) -> Reply {
    match step {
        Step::Finish => match pen.finish() {
            Ok(()) => Ok(None),
            Err(fault) => Err(PenStop::Fault(fault)),
        },
        _ => pen.step(&command(step)),
    }
}

// The first of the registers that is another than wanted, with what it is.
fn other(now: Registers, wanted: &[(usize, i64)]) -> Option<(usize, i64)> {
    let all = [now.h, now.v, now.w, now.x, now.y, now.z, now.hh, now.vv];
    for (place, value) in wanted {
        let is = if *place < 8 { all[*place] } else { i64::MIN };
        if is != *value {
            return Some((*place, is));
        }
    }
    None
}

/// Follows the rows: each has its answer, and after it the registers are these.
pub fn assert_follows<R: Abort>(rt: &R, alloc: Global, rows: &[Row]) -> Result<(), Scale> {
    let conv = half_a_dot()?;
    let mut pen = Pen::new(alloc, conv);
    for place in 0..rows.len() {
        let (step, wanted, registers) = rows[place];
        if matches!(step, Step::New) {
            pen = Pen::new(alloc, conv);
        }
        let told = answer(&mut pen, step);
        assert_eq!(rt;
            (told, other(pen.registers(), registers)),
            (wanted, None),
            "row {place}"
        );
    }
    Ok(())
}
