// The operations of a control word, as text.
ghost use Rattle.std.specs.Prelude.{◌≡◌, Some, IfOk, string_bytes};
ghost use Rattle.notation.specs.Text.{registers_text_of, writes_registers, jumps, assignment_text_of, memory_text_of, destination_text_of, test_text_of, successor_text_of, operations_text_of};

use crate::digits::Address;
use crate::values::{Value, When};
use control::{CBits, ControlWord};
use std::alloc::{AllocError, Global};
use std::fmt;

// The registers that are written from the C bus, each with an equals sign behind it.
#[derive(Drop)]
struct Registers<'a>(&'a CBits);

impl fmt::Display for Registers<'_> {
    ghost output = { λ r. Some (registers_text_of r.0.now) };

    fn fmt<W: fmt::Write>(&self, f: &mut fmt::Formatter<W>) -> fmt::Result {
        let c = self.0;
        let mar = When(c.mar, "MAR = ");
        let mdr = When(c.mdr, "MDR = ");
        let pc = When(c.pc, "PC = ");
        let sp = When(c.sp, "SP = ");
        let lv = When(c.lv, "LV = ");
        let cpp = When(c.cpp, "CPP = ");
        let tos = When(c.tos, "TOS = ");
        let opc = When(c.opc, "OPC = ");
        let h = When(c.h, "H = ");
        write!(f, "{mar}{mdr}{pc}{sp}{lv}{cpp}{tos}{opc}{h}")
    }
}

// Whether some register is written from the C bus.
fn writes_any(c: &CBits) -> bool
    ensures { result ≡ writes_registers c.now }
{
    c.mar || c.mdr || c.pc || c.sp || c.lv || c.cpp || c.tos || c.opc || c.h
}

// Whether the word jumps on a flag.
fn jumps_on_flag(word: &ControlWord) -> bool
    ensures { result ≡ jumps word.now }
{
    word.jamn || word.jamz
}

// What is assigned, and to which registers or flags.
#[derive(Drop)]
struct Assignment<'a>(&'a ControlWord);

impl fmt::Display for Assignment<'_> {
    ghost output = { λ a. Some (assignment_text_of a.0.now) };

    fn fmt<W: fmt::Write>(&self, f: &mut fmt::Formatter<W>) -> fmt::Result {
        let word = self.0;
        let value = Value(word);
        if writes_any(&word.c) {
            let registers = Registers(&word.c);
            return write!(f, "{registers}{value}; ");
        }
        if jumps_on_flag(word) {
            let n = When(word.jamn, "N = ");
            let z = When(word.jamz, "Z = ");
            return write!(f, "{n}{z}{value}; ");
        }
        Ok(())
    }
}

// The memory operations.
#[derive(Drop)]
struct MemoryOperations<'a>(&'a ControlWord);

impl fmt::Display for MemoryOperations<'_> {
    ghost output = { λ m. Some (memory_text_of m.0.now) };

    fn fmt<W: fmt::Write>(&self, f: &mut fmt::Formatter<W>) -> fmt::Result {
        let write = When(self.0.write, "wr; ");
        let read = When(self.0.read, "rd; ");
        let fetch = When(self.0.fetch, "fetch; ");
        write!(f, "{write}{read}{fetch}")
    }
}

// Where a word goes: to NEXT, or to NEXT ORed with MBR.
#[derive(Drop)]
struct Destination {
    jmpc: bool,
    next: u16,
}

impl fmt::Display for Destination {
    ghost output = { λ d. Some (destination_text_of d.jmpc d.next) };

    fn fmt<W: fmt::Write>(&self, f: &mut fmt::Formatter<W>) -> fmt::Result {
        let address = Address(self.next);
        match (self.jmpc, self.next) {
            (false, _) => write!(f, "{address}"),
            (true, 0) => write!(f, "(MBR)"),
            (true, _) => write!(f, "(MBR OR {address})"),
        }
    }
}

// The flag or the flags on which a word jumps.
fn test_name(jamn: bool, jamz: bool) -> &'static str
    ensures { result.now ≡ test_text_of jamn jamz }
{
    match (jamn, jamz) {
        (false, _) => "Z",
        (true, false) => "N",
        (true, true) => "N OR Z",
    }
}

// Where a word goes, and where it jumps on a flag.
#[derive(Drop)]
struct Successor<'a>(&'a ControlWord);

impl fmt::Display for Successor<'_> {
    ghost output = { λ s. Some (successor_text_of s.0.now) };

    fn fmt<W: fmt::Write>(&self, f: &mut fmt::Formatter<W>) -> fmt::Result {
        let word = self.0;
        let jmpc = word.jmpc;
        let destination = Destination {
            jmpc,
            next: word.next,
        };
        if !jumps_on_flag(word) {
            return write!(f, "goto {destination}");
        }
        let test = test_name(word.jamn, word.jamz);
        let jump = Destination {
            jmpc,
            next: word.next | 0x100,
        };
        write!(f, "if ({test}) goto {jump}; else goto {destination}")
    }
}

/// The operations of a control word, displayed as text: what is assigned, `wr`, `rd` and `fetch`, and the successor (docs/control-words.md).
#[derive(Clone, Copy, Debug, PartialEq, Eq)]
pub struct Operations<'a>(pub &'a ControlWord);

impl fmt::Display for Operations<'_> {
    ghost output = { λ o. Some (operations_text_of o.0.now) };

    fn fmt<W: fmt::Write>(&self, f: &mut fmt::Formatter<W>) -> fmt::Result {
        let word = self.0;
        let assignment = Assignment(word);
        let memory = MemoryOperations(word);
        let successor = Successor(word);
        write!(f, "{assignment}{memory}{successor}")
    }
}

/// The text that `Operations` displays, in a `String`. An error only where there is no memory for it (docs/control-words.md).
pub fn operations_text(heap: Global, word: &ControlWord) -> Result<String, AllocError>
    ensures { IfOk result (λ s. string_bytes s ≡ operations_text_of word.now) }
{
    Operations(word).to_string(heap)
}
