//! The machine that takes a page's flat commands.

ghost use Rattle.std.specs.Prelude.{◌≡◌, ◌↔◌, ℕ, [], IsOk, Ok, Err, IfOk, IfErr, IfSome, OnErr, IsTrue, false, Some};
ghost use Rattle.outside.specs.declared.keys.FontKey.{FontKey};
ghost use Rattle.drift_rules.specs.declared.faults.PenFault.{PenFault};
ghost use Rattle.drift_rules.specs.Position.{state_after, at_origin, value_of_flat, Char, KeepsNear, Push, Pop, Enter};
ghost use Rattle.drift_rules.specs.Stack.{is_pop, is_push};
ghost use Rattle.drift_rules.specs.Marks.{mark_of};
ghost use Rattle.drift_rules.specs.Bounds.{AreHeld, IsInReach, IsNumber, IsPaintable};
ghost use Rattle.drift_rules.specs.Stops.{Stops};

use crate::faults::{PenFault, PenStop};
use crate::flat::{Flat, Mark, Registers};
use crate::marks::mark_at;
use crate::motions::{advance_over, registers_after};
use crate::saved::Saved;
use pixel_round::Conv;
use std::alloc::Global;
use std::marker::Model;

/// The registers of a page and those that it saved, with the conversion of its document.
#[derive(Debug, Drop)]
pub struct Pen {
    conv: Conv,
    registers: Registers,
    saved: Saved,
}

impl Model for Pen {
    ghost use Rattle.drift_rules.specs.Position.{PenView};
    ghost use Rattle.drift_rules.specs.Bounds.{IsHeldState};

    ghost Value = { PenView };

    ghost view = { λ p.
        record { conv = p.conv; state = record { now = p.registers; saved = p.saved } } };

    ghost invariant = { λ p. IsHeldState p.conv (record { now = p.registers; saved = p.saved }) };
}

impl Pen {
    /// A pen at the upper left corner of a page, with all registers 0 and none saved. It takes no
    /// memory before the first push.
    pub fn new(alloc: Global, conv: Conv) -> Pen
        ensures { result ≡ record { conv = conv; state = at_origin } }
    {
        Pen {
            conv,
            registers: Registers {
                h: 0,
                v: 0,
                w: 0,
                x: 0,
                y: 0,
                z: 0,
                hh: 0,
                vv: 0,
            },
            saved: Saved::new(alloc),
        }
    }

    /// Takes one command, and answers with the mark that it makes, if any, at the place where the
    /// pen was before it.
    ///
    /// The command's lengths and motions are signed numbers of four bytes, and a space is from 0 to
    /// 2^27. `Overflow` is answered exactly where h or v would leave -2147483647..2147483647,
    /// `StackDeep` exactly at a push or a packet's beginning where 1000 sets of registers are
    /// saved, and `StackEmpty` exactly at a pop or a packet's end where none is saved. `NoMemory`
    /// comes only at a push or a packet's beginning that has no fault. After each of them the pen
    /// is as it was.
    ///
    /// Knuth, DVItype, "Translation to symbolic form".
    #[inline(always)]
    pub fn step(&mut self, flat: &Flat) -> Result<Option<Mark>, PenStop>
        requires { IsInReach (value_of_flat flat.now) }

        // The state is the one that the rules give, and the mark is the one at the registers before
        // the command.
        ensures moved { IfOk result (λ _. state_after self.old.conv self.old.state
            (value_of_flat flat.now) ≡ Ok self.new.state) }
        ensures marked { IfOk result (λ mark. mark ≡ mark_of self.old.conv self.old.state.now
            (value_of_flat flat.now)) }
        ensures paintable { IfOk result (λ mark. IfSome mark IsPaintable) }
        ensures same_conversion { self.new.conv ≡ self.old.conv }

        // A fault is the one that the rules name, and only what saves registers may want memory. No
        // stop changes anything.
        ensures fault { (fault : PenFault) → (result ≡ Err (PenStop.Fault fault))
            ↔ (state_after self.old.conv self.old.state (value_of_flat flat.now) ≡ Err fault) }
        ensures memory { result ≡ Err PenStop.NoMemory → IsTrue (is_push (value_of_flat flat.now)) }
        ensures unchanged { OnErr result (self.new ≡ self.old) }

        // The place in dots stays within two of the rounded one, here and in the saved registers.
        ensures near { KeepsNear self.new.conv self.new.state }
    {
        let mark = mark_at(&self.conv, self.registers, flat);
        self.change(flat)?;
        Ok(mark)
    }

    /// Sets or puts a character of a width, and answers with its mark: what `step` does at a
    /// character, whatever its font and its code are.
    #[inline(always)]
    pub fn character(&mut self, width: i64, put: bool) -> Result<Mark, PenFault>
        requires { IsNumber width }
        ensures moved { IfOk result (λ _. (key : FontKey) (code : ℕ)
            → state_after self.old.conv self.old.state (Char key code width put)
            ≡ Ok self.new.state) }
        ensures marked { IfOk result (λ mark. (key : FontKey) (code : ℕ)
            → mark_of self.old.conv self.old.state.now (Char key code width put) ≡ Some mark) }
        ensures paintable { IfOk result IsPaintable }
        ensures same_conversion { self.new.conv ≡ self.old.conv }
        ensures fault { IfErr result (λ fault. (key : FontKey) (code : ℕ)
            → state_after self.old.conv self.old.state (Char key code width put) ≡ Err fault) }
        ensures unchanged { OnErr result (self.new ≡ self.old) }
    {
        let mark = Mark::Char {
            hh: self.registers.hh,
            vv: self.registers.vv,
        };
        if put {
            return Ok(mark);
        }
        let dots = self.conv.round(width);
        let moved = advance_over(&self.conv, self.registers, width, dots)?;
        self.registers.h = moved.h;
        self.registers.hh = moved.hh;
        Ok(mark)
    }

    // The same without the mark.
    #[inline(always)]
    fn change(&mut self, flat: &Flat) -> Result<(), PenStop>
        requires { IsInReach (value_of_flat flat.now) }
        ensures moved { IfOk result (λ _. state_after self.old.conv self.old.state
            (value_of_flat flat.now) ≡ Ok self.new.state) }
        ensures same_conversion { self.new.conv ≡ self.old.conv }
        ensures stop { IfErr result (Stops (state_after self.old.conv self.old.state
            (value_of_flat flat.now)) (value_of_flat flat.now)) }
        ensures unchanged { OnErr result (self.new ≡ self.old) }
    {
        match flat {
            Flat::Push => self.push(),
            Flat::Enter => self.enter(),
            Flat::Pop | Flat::Leave => self.pop(),
            _ => self.move_registers(flat),
        }
    }

    // Saves the registers.
    fn push(&mut self) -> Result<(), PenStop>
        ensures moved { IfOk result (λ _. state_after self.old.conv self.old.state Push
            ≡ Ok self.new.state) }
        ensures same_conversion { self.new.conv ≡ self.old.conv }
        ensures stop { IfErr result (Stops (state_after self.old.conv self.old.state Push) Push) }
        ensures unchanged { OnErr result (self.new ≡ self.old) }
    {
        self.saved.push(self.registers)
    }

    // Saves the registers; w, x, y and z become 0, as a packet begins.
    fn enter(&mut self) -> Result<(), PenStop>
        ensures moved { IfOk result (λ _. state_after self.old.conv self.old.state Enter
            ≡ Ok self.new.state) }
        ensures same_conversion { self.new.conv ≡ self.old.conv }
        ensures stop { IfErr result (Stops (state_after self.old.conv self.old.state Enter) Enter) }
        ensures unchanged { OnErr result (self.new ≡ self.old) }
    {
        self.push()?;
        self.registers.w = 0;
        self.registers.x = 0;
        self.registers.y = 0;
        self.registers.z = 0;
        Ok(())
    }

    // Restores the registers that were saved last.
    fn pop(&mut self) -> Result<(), PenStop>
        ensures moved { IfOk result (λ _. state_after self.old.conv self.old.state Pop
            ≡ Ok self.new.state) }
        ensures same_conversion { self.new.conv ≡ self.old.conv }
        ensures stop { IfErr result (Stops (state_after self.old.conv self.old.state Pop) Pop) }
        ensures unchanged { OnErr result (self.new ≡ self.old) }
    {
        match self.saved.pop() {
            Some(saved) => {
                self.registers = saved;
                Ok(())
            }
            None => Err(PenStop::Fault(PenFault::StackEmpty)),
        }
    }

    // Any other command moves the registers alone.
    #[inline(always)]
    fn move_registers(&mut self, flat: &Flat) -> Result<(), PenStop>
        requires reach { IsInReach (value_of_flat flat.now) }
        requires no_push { is_push (value_of_flat flat.now) ≡ false }
        requires no_pop { is_pop (value_of_flat flat.now) ≡ false }
        ensures moved { IfOk result (λ _. state_after self.old.conv self.old.state
            (value_of_flat flat.now) ≡ Ok self.new.state) }
        ensures same_conversion { self.new.conv ≡ self.old.conv }
        ensures stop { IfErr result (Stops (state_after self.old.conv self.old.state
            (value_of_flat flat.now)) (value_of_flat flat.now)) }
        ensures unchanged { OnErr result (self.new ≡ self.old) }
    {
        self.registers = registers_after(&self.conv, self.registers, flat)?;
        Ok(())
    }

    /// Judges the page's end: `StackLeft` exactly where registers are saved.
    pub fn finish(&self) -> Result<(), PenFault>
        ensures good { IsOk result ↔ (self.now.state.saved ≡ []) }
        ensures left { IfErr result (λ fault. fault ≡ PenFault.StackLeft) }
    {
        if self.saved.is_empty() {
            Ok(())
        } else {
            Err(PenFault::StackLeft)
        }
    }

    /// The registers as they are.
    pub fn registers(&self) -> Registers
        ensures value { result ≡ self.now.state.now }
        ensures held { AreHeld self.now.conv result }
    {
        self.registers
    }
}
