// What each kind of line does to the registers and the data.
ghost use Rattle.std.specs.Prelude.{◌≡◌, ◌<◌, false, [], length};
ghost use Rattle.rules.specs.declared.op.Op.TheVariants.{Ldr, Combine, CombineCell, Fl, Lod, Sto, Ad, Ge, Abs, MechBegin, MechEnd};
ghost use Rattle.rules.specs.Effect.{joined, effect};
ghost use Rattle.lines.specs.declared.turn.Turn.TheVariants.{Follows};
ghost use Rattle.lines.specs.Views.{registers_of, done, alone, HasRule};

use crate::bits::{bit_at, set_bit};
use crate::numbers::{absolute, add, at_least, number_at, store_number};
use crate::registers::Registers;
use crate::turn::Turn;
use rules::op::{Logic, Width};

// Two bits joined by and, or, exclusive or.
fn join(logic: Logic, a: bool, b: bool) -> bool
    ensures { result ≡ joined logic a b }
{
    match logic {
        Logic::And => a & b,
        Logic::Or => a | b,
        Logic::Xor => a ^ b,
    }
}

impl Registers {
    /// LDR: RLO becomes the bit, or its negation; where the text flag is set, the old RLO is pushed first.
    pub(crate) fn load(&mut self, bytes: &[u8], flagged: bool, negated: bool, bit: u16)
        requires { HasRule (effect flagged [] (Ldr negated bit) (registers_of self.old) bytes.now) }
        ensures { effect flagged [] (Ldr negated bit) (registers_of self.old) bytes.now ≡ done self.new bytes.now Follows }
    {
        let value = bit_at(bytes, bit);
        if flagged {
            self.stack.push(self.rlo);
        }
        self.rlo = value ^ negated;
    }

    /// LA, LO, LX: RLO is joined with the bit, or its negation.
    pub(crate) fn combine(&mut self, bytes: &[u8], logic: Logic, negated: bool, bit: u16)
        requires { HasRule (alone (Combine logic negated bit) (registers_of self.old) bytes.now) }
        ensures { alone (Combine logic negated bit) (registers_of self.old) bytes.now ≡ done self.new bytes.now Follows }
    {
        self.rlo = join(logic, self.rlo, bit_at(bytes, bit) ^ negated);
    }

    /// LA, LO, LX at mode 2: RLO is joined with the newest cell, which is taken off the stack.
    pub(crate) fn combine_cell(&mut self, bytes: &[u8], logic: Logic)
        requires { HasRule (alone (CombineCell logic) (registers_of self.old) bytes.now) }
        ensures { alone (CombineCell logic) (registers_of self.old) bytes.now ≡ done self.new bytes.now Follows }
    {
        self.rlo = join(logic, self.rlo, self.stack.pop());
    }

    /// WR, FL and FL1 write a bit.
    pub(crate) fn write(&self, bytes: &mut [u8], value: bool, bit: u16)
        requires { HasRule (alone (Fl value bit) (registers_of self.now) bytes.old) }
        ensures { alone (Fl value bit) (registers_of self.now) bytes.old ≡ done self.now bytes.new Follows }
    {
        set_bit(bytes, bit, value);
    }

    /// LOD: DR becomes the number, its upper bytes 0.
    pub(crate) fn fetch(&mut self, bytes: &[u8], width: Width, place: u16)
        requires { HasRule (alone (Lod width place) (registers_of self.old) bytes.now) }
        ensures { alone (Lod width place) (registers_of self.old) bytes.now ≡ done self.new bytes.now Follows }
    {
        self.dr = number_at(bytes, place as usize, width);
    }

    /// STO: stores DR's low bytes.
    pub(crate) fn store(&self, bytes: &mut [u8], width: Width, place: u16)
        requires { HasRule (alone (Sto width place) (registers_of self.now) bytes.old) }
        ensures { alone (Sto width place) (registers_of self.now) bytes.old ≡ done self.now bytes.new Follows }
    {
        store_number(bytes, place as usize, width, self.dr);
    }

    /// AD: adds the number to DR's low bytes, and clears the upper ones.
    pub(crate) fn add_number(&mut self, bytes: &[u8], width: Width, place: u16)
        requires { HasRule (alone (Ad width place) (registers_of self.old) bytes.now) }
        ensures { alone (Ad width place) (registers_of self.old) bytes.now ≡ done self.new bytes.now Follows }
    {
        self.dr = add(self.dr, number_at(bytes, place as usize, width), width);
    }

    /// ABS: the absolute value of DR's low bytes; the upper ones are cleared.
    pub(crate) fn make_absolute(&mut self, bytes: &[u8], width: Width)
        ensures { alone (Abs width) (registers_of self.old) bytes.now ≡ done self.new bytes.now Follows }
    {
        self.dr = absolute(self.dr, width);
    }

    /// GE: RLO is 1 if DR's low bytes are at least the number, both signed.
    pub(crate) fn compare(&mut self, bytes: &[u8], width: Width, place: u16)
        requires { HasRule (alone (Ge width place) (registers_of self.old) bytes.now) }
        ensures { alone (Ge width place) (registers_of self.old) bytes.now ≡ done self.new bytes.now Follows }
    {
        self.rlo = at_least(self.dr, number_at(bytes, place as usize, width), width);
    }

    /// MECH_BEGIN: the mechanism is entered when its activation bit is 1, and passed by otherwise.
    pub(crate) fn begin(&self, bytes: &[u8], activation: &[u16], mechanism: u16) -> Turn
        requires { (mechanism < length activation.now) × (HasRule (effect false activation.now (MechBegin mechanism) (registers_of self.now) bytes.now)) }
        ensures { effect false activation.now (MechBegin mechanism) (registers_of self.now) bytes.now ≡ done self.now bytes.now result }
    {
        if bit_at(bytes, activation[mechanism as usize]) {
            Turn::Enters(mechanism)
        } else {
            Turn::Skips(mechanism)
        }
    }

    /// MECH_END and MECH_INIT put the mechanism's activation bit to 0.
    pub(crate) fn deactivate(&self, bytes: &mut [u8], activation: &[u16], mechanism: u16)
        requires { (mechanism < length activation.now) × (HasRule (effect false activation.now (MechEnd mechanism) (registers_of self.now) bytes.old)) }
        ensures { effect false activation.now (MechEnd mechanism) (registers_of self.now) bytes.old ≡ done self.now bytes.new Follows }
    {
        set_bit(bytes, activation[mechanism as usize], false);
    }
}
