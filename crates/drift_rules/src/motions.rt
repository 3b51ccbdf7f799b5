//! How the registers move.

ghost use Rattle.std.specs.Prelude.{◌≡◌, ◌≤◌, ◌^◌, ◌+ℤ◌, unsigned_abs, false, if◌then◌else◌, List, Ok, Err, IfOk, IfErr, IsTrue};
ghost use Rattle.pixel_round.specs.Pixels.{round};
ghost use Rattle.packed_rows.specs.declared.offset.TheConstants.{MAX_COORDINATE};
ghost use Rattle.drift_rules.specs.declared.faults.PenFault.{PenFault};
ghost use Rattle.drift_rules.specs.Position.{State, state_after, at_h, at_v, after_drift, is_held, is_word_space, is_line_space, moved_right, moved_down, moved_over, value_of_flat};
ghost use Rattle.drift_rules.specs.Stack.{is_pop, is_push};
ghost use Rattle.drift_rules.specs.Bounds.{AreHeld, IsInReach, IsNumber, IsSpace};

use crate::faults::PenFault;
use crate::flat::{Flat, Registers};
use pixel_round::Conv;

// The farthest from the origin that h and v may be.
const MAX_PLACE: u64 = 2147483647;

// How far hh may be from h in dots, and vv from v.
const MAX_DRIFT: i64 = 2;

// The registers after a command that saves and restores none.
#[inline(always)]
pub(crate) fn registers_after(
    conv: &Conv,
    mut now: Registers,
    flat: &Flat,
) -> Result<Registers, PenFault>
    requires held { AreHeld conv.now now }
    requires reach { IsInReach (value_of_flat flat.now) }
    requires no_push { is_push (value_of_flat flat.now) ≡ false }
    requires no_pop { is_pop (value_of_flat flat.now) ≡ false }
    ensures after { IfOk result (λ r. (saved : List Registers) → state_after conv.now
        (record { now = now; saved = saved }) (value_of_flat flat.now)
        ≡ Ok (record { now = r; saved = saved })) }
    ensures overflow { IfErr result (λ e. (e ≡ PenFault.Overflow)
        × ((saved : List Registers) → state_after conv.now (record { now = now; saved = saved })
        (value_of_flat flat.now) ≡ Err e)) }
    ensures held { IfOk result (AreHeld conv.now) }
{
    match flat {
        Flat::Skip => Ok(now),
        Flat::Char { put: true, .. } => Ok(now),
        Flat::Char {
            width,
            put: false,
            ..
        }
        | Flat::Advance { width } => advance_over(conv, now, *width, conv.round(*width)),
        Flat::Rule { put: true, .. } => Ok(now),
        Flat::Rule {
            width,
            put: false,
            ..
        } => advance_over(conv, now, *width, conv.ceil(*width)),
        Flat::Right { by, space } => right(conv, now, *by, *space),
        Flat::W { by, space } => {
            now.w = *by;
            right(conv, now, *by, *space)
        }
        Flat::X { by, space } => {
            now.x = *by;
            right(conv, now, *by, *space)
        }
        Flat::Down { by, space } => down(conv, now, *by, *space),
        Flat::Y { by, space } => {
            now.y = *by;
            down(conv, now, *by, *space)
        }
        Flat::Z { by, space } => {
            now.z = *by;
            down(conv, now, *by, *space)
        }
        Flat::W0 { space } => right(conv, now, now.w, *space),
        Flat::X0 { space } => right(conv, now, now.x, *space),
        Flat::Y0 { space } => down(conv, now, now.y, *space),
        Flat::Z0 { space } => down(conv, now, now.z, *space),
        Flat::Push | Flat::Pop | Flat::Enter | Flat::Leave => unreachable!(),
    }
}

// To the right, and hh with it.
#[inline(always)]
fn right(conv: &Conv, now: Registers, by: i64, space: i64) -> Result<Registers, PenFault>
    requires held { AreHeld conv.now now }
    requires number { IsNumber by }
    requires space { IsSpace space }
    ensures moved { IfOk result (λ r. IsTrue (is_held (now.h +ℤ by)) ×
        (r ≡ moved_right conv.now now by space)) }
    ensures overflow { IfErr result (λ e. (is_held (now.h +ℤ by) ≡ false)
        × (e ≡ PenFault.Overflow)) }
    ensures held { IfOk result (AreHeld conv.now) }
{
    let h = now.h + by;
    if !is_within(h) {
        return Err(PenFault::Overflow);
    }
    Ok(at_column(conv, now, h, column_right(conv, now, h, by, space)))
}

// Down, and vv with it.
#[inline(always)]
fn down(conv: &Conv, now: Registers, by: i64, space: i64) -> Result<Registers, PenFault>
    requires held { AreHeld conv.now now }
    requires number { IsNumber by }
    requires space { IsSpace space }
    ensures moved { IfOk result (λ r. IsTrue (is_held (now.v +ℤ by)) ×
        (r ≡ moved_down conv.now now by space)) }
    ensures overflow { IfErr result (λ e. (is_held (now.v +ℤ by) ≡ false)
        × (e ≡ PenFault.Overflow)) }
    ensures held { IfOk result (AreHeld conv.now) }
{
    let v = now.v + by;
    if !is_within(v) {
        return Err(PenFault::Overflow);
    }
    Ok(at_row(conv, now, v, row_down(conv, now, v, by, space)))
}

// Over what was set, whose width in dots is given.
#[inline(always)]
pub(crate) fn advance_over(
    conv: &Conv,
    now: Registers,
    width: i64,
    dots: i64,
) -> Result<Registers, PenFault>
    requires held { AreHeld conv.now now }
    requires number { IsNumber width }
    requires dots { unsigned_abs dots ≤ 2 ^ 41 }
    ensures moved { IfOk result (λ r. IsTrue (is_held (now.h +ℤ width)) ×
        (r ≡ moved_over conv.now now width dots)) }
    ensures overflow { IfErr result (λ e. (is_held (now.h +ℤ width) ≡ false) ×
        (e ≡ PenFault.Overflow)) }
    ensures held { IfOk result (AreHeld conv.now) }
{
    let h = now.h + width;
    if !is_within(h) {
        return Err(PenFault::Overflow);
    }
    Ok(at_column(conv, now, h, now.hh + dots))
}

// The column after a motion right to h, before the drift rule: rounded anew, or grown by the
// rounded motion.
#[inline(always)]
fn column_right(conv: &Conv, now: Registers, h: i64, by: i64, space: i64) -> i64
    requires held { AreHeld conv.now now }
    requires h { IsNumber h }
    requires number { IsNumber by }
    requires space { IsSpace space }
    ensures value { result ≡ (if is_word_space by space then round conv.now h else now.hh
        +ℤ round conv.now by) }
    ensures bounded { unsigned_abs result ≤ MAX_COORDINATE }
{
    if is_word_space(by, space) {
        conv.round(h)
    } else {
        now.hh + conv.round(by)
    }
}

// The row after a motion down to v, before the drift rule.
#[inline(always)]
fn row_down(conv: &Conv, now: Registers, v: i64, by: i64, space: i64) -> i64
    requires held { AreHeld conv.now now }
    requires v { IsNumber v }
    requires number { IsNumber by }
    requires space { IsSpace space }
    ensures value { result ≡ (if is_line_space by space then round conv.now v else now.vv
        +ℤ round conv.now by) }
    ensures bounded { unsigned_abs result ≤ MAX_COORDINATE }
{
    if is_line_space(by, space) {
        conv.round(v)
    } else {
        now.vv + conv.round(by)
    }
}

// A coordinate that h or v may have.
#[inline(always)]
fn is_within(place: i64) -> bool
    ensures value { result ≡ is_held place }
    ensures bounded { IsTrue result → unsigned_abs place ≤ 2147483647 }
{
    place.unsigned_abs() <= MAX_PLACE
}

// A motion right so wide that hh is rounded anew: a word space, or a long way back.
#[inline(always)]
fn is_word_space(by: i64, space: i64) -> bool
    requires { IsSpace space }
    ensures { result ≡ is_word_space by space }
{
    by >= space || by <= -4 * space
}

// A motion down, or up, so high that vv is rounded anew.
#[inline(always)]
fn is_line_space(by: i64, space: i64) -> bool
    requires number { IsNumber by }
    requires space { IsSpace space }
    ensures { result ≡ is_line_space by space }
{
    by.abs() >= 5 * space
}

// The registers at a new h and in a new column, with the drift rule.
#[inline(always)]
fn at_column(conv: &Conv, now: Registers, h: i64, column: i64) -> Registers
    requires held { AreHeld conv.now now }
    requires h { unsigned_abs h ≤ 2147483647 }
    requires column { unsigned_abs column ≤ MAX_COORDINATE }
    ensures moved { result ≡ at_h conv.now now h column }
    ensures held { AreHeld conv.now result }
{
    Registers {
        h,
        hh: drift(column, conv.round(h)),
        ..now
    }
}

// The registers at a new v and in a new row, with the drift rule.
#[inline(always)]
fn at_row(conv: &Conv, now: Registers, v: i64, row: i64) -> Registers
    requires held { AreHeld conv.now now }
    requires v { unsigned_abs v ≤ 2147483647 }
    requires row { unsigned_abs row ≤ MAX_COORDINATE }
    ensures moved { result ≡ at_v conv.now now v row }
    ensures held { AreHeld conv.now result }
{
    Registers {
        v,
        vv: drift(row, conv.round(v)),
        ..now
    }
}

// The drift rule: a place in dots is brought within two of the rounded one.
#[inline(always)]
fn drift(place: i64, rounded: i64) -> i64
    requires place { unsigned_abs place ≤ MAX_COORDINATE }
    requires rounded { unsigned_abs rounded ≤ MAX_COORDINATE }
    ensures { result ≡ after_drift place rounded }
{
    if place > rounded + MAX_DRIFT {
        rounded + MAX_DRIFT
    } else if place < rounded - MAX_DRIFT {
        rounded - MAX_DRIFT
    } else {
        place
    }
}
