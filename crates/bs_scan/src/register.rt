//! The signature register of the chip.
ghost use Rattle.std.specs.Prelude.{◌≡◌, ◌<◌, [], length, slice_get, option_map, IfOk};
ghost use Rattle.bs_scan.specs.Choice.{depth_of, IsDepth};
ghost use Rattle.bs_scan.specs.Signature.{signature};
ghost use Rattle.bs_scan.specs.Register.{Register, cleared, clocked};

use crate::choice::{Choice, parity};
use bs_bits::{Bits, NoMemory};
use std::alloc::Global;
use std::marker::Model;
use std::mem;

/// A register that at each clock edge stores the signature of the state before it, and at depth 2 keeps the one that was
/// stored. Its room is made by `new`.
#[derive(Drop)]
pub struct SigReg<'a> {
    choice: &'a Choice,
    bits: Bits,
    held: bool,
    older: Bits,
    older_held: bool,
}

impl<'a> Model for SigReg<'a> {
    ghost use Rattle.bs_scan.specs.Register.{Register, shown, IsRegister};

    ghost Value = { Register };

    ghost view = { λ register. shown register.choice.now register.held register.bits register.older_held register.older };

    ghost invariant = { λ register. IsRegister register.choice.now register.bits register.older_held register.older };
}

/// Makes the bits the signature of a state.
fn write_signature(choice: &Choice, state: &Bits, bits: &mut Bits)
    requires width { length state.now ≡ choice.now.width }
    requires room { length bits.old ≡ length choice.now.items }
    ensures { bits.new ≡ signature choice.now state.now }
{
    'items: for i in 0..choice.items() {
        bits.set(i, parity(choice.item(i).slice(), state));
    }
}

/// As many zeros.
fn zeros(alloc: Global, count: usize) -> Result<Bits, NoMemory>
    ensures { IfOk result (λ bits. length bits ≡ count) }
{
    let mut bits = Bits::new(alloc);
    'zeros: for _ in 0..count {
        bits.push(false)?;
    }
    Ok(bits)
}

impl<'a> SigReg<'a> {
    /// A register that holds no signature.
    pub fn new(alloc: Global, choice: &'a Choice) -> Result<SigReg<'a>, NoMemory>
        ensures { IfOk result (λ register. register ≡ record { choice = choice.now; stored = [] }) }
    {
        let bits = zeros(alloc, choice.items())?;
        let older = zeros(
            alloc,
            if choice.depth() == 2 {
                choice.items()
            } else {
                0
            },
        )?;
        Ok(SigReg {
            choice,
            bits,
            held: false,
            older,
            older_held: false,
        })
    }

    /// Drops what is stored, as at reset.
    pub fn clear(&mut self)
        ensures { self.new ≡ cleared self.old }
    {
        self.held = false;
    }

    /// A clock edge from a state: stores its signature. At depth 2 the one that was stored becomes the older one.
    pub fn clock(&mut self, state: &Bits)
        requires { length state.now ≡ self.old.choice.width }
        ensures { self.new ≡ clocked self.old state.now }
    {
        if self.choice.depth() == 2 {
            mem::swap(&mut self.bits, &mut self.older);
            self.older_held = self.held;
        }
        write_signature(self.choice, state, &mut self.bits);
        self.held = true;
    }

    /// The number of signatures that are kept.
    pub fn depth(&self) -> u8
        ensures depth { result ≡ depth_of self.now.choice }
        ensures kept { IsDepth result }
    {
        self.choice.depth()
    }

    /// The signature that is stored, if there was a clock edge since `new` or `clear`.
    pub fn stored(&self) -> Option<&Bits>
        ensures { option_map (λ bits. bits.now) result ≡ slice_get self.now.stored 0 }
    {
        if self.held { Some(&self.bits) } else { None }
    }

    /// The signature that was stored before it, if the depth is 2 and there were two clock edges since `new` or `clear`.
    pub fn older(&self) -> Option<&Bits>
        ensures { option_map (λ bits. bits.now) result ≡ slice_get self.now.stored 1 }
    {
        if self.held && self.older_held {
            Some(&self.older)
        } else {
            None
        }
    }
}
