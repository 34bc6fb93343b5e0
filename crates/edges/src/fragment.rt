// The slides' compiled fragment: i = j + k; if (i == 3) k = 0; else j = j - 1;
use crate::sketch::Sketch;
use crate::trial::loaded;
use anyhow::Result;
use ijvm::Machine;
use memory::{Memory, WordMemory};
use std::alloc::Global;

// An instruction of the fragment: the byte address where it lies here, its number and text on the slide, and its bytes.
type Line = (u32, u8, &'static str, &'static [u8]);

// The variables i, j and k have the numbers 1, 2 and 3.
const LINES: [Line; 14] = [
    (12, 1, "ILOAD j", &[0x15, 0x02]),
    (14, 2, "ILOAD k", &[0x15, 0x03]),
    (16, 3, "IADD", &[0x60]),
    (17, 4, "ISTORE i", &[0x36, 0x01]),
    (19, 5, "ILOAD i", &[0x15, 0x01]),
    (21, 6, "BIPUSH 3", &[0x10, 0x03]),
    (23, 7, "IF_ICMPEQ L1", &[0x9F, 0x00, 0x0D]),
    (26, 8, "ILOAD j", &[0x15, 0x02]),
    (28, 9, "BIPUSH 1", &[0x10, 0x01]),
    (30, 10, "ISUB", &[0x64]),
    (31, 11, "ISTORE j", &[0x36, 0x02]),
    (33, 12, "GOTO L2", &[0xA7, 0x00, 0x07]),
    (36, 13, "BIPUSH 0", &[0x10, 0x00]),
    (38, 14, "ISTORE k", &[0x36, 0x03]),
];

// A program that gives j and k their values, then has the fragment, then returns i.
fn program(heap: Global, j: u8, k: u8) -> Result<Vec<u8>> {
    let mut code = Vec::new(heap);
    code.extend_from_slice(&[0x10, j, 0x36, 0x02, 0x10, k, 0x36, 0x03])?;
    for (_, _, _, bytes) in LINES {
        code.extend_from_slice(bytes)?;
    }
    code.extend_from_slice(&[0x15, 0x01, 0xAC])?;
    let sketch = Sketch {
        size: 32,
        mark: 11,
        locals: 3,
        cpp: 11,
        pool: &[],
        code: code.as_slice(),
    };
    sketch.image(heap)
}

// An instruction as the slide has it.
fn print_line(rt: &impl Print, line: &Line) -> Result<()> {
    let (address, number, text, bytes) = *line;
    print!(rt; "  {number:>2} {text:<12} [")?;
    for (index, byte) in bytes.iter().enumerate() {
        let blank = if index == 0 { "" } else { " " };
        print!(rt; "{blank}0x{byte:02X}")?;
    }
    print!(rt; "] at byte {address}")?;
    Ok(())
}

// The operand stack, from the bottom: the words above base, which is the link + 1.
fn print_stack<M: Memory>(rt: &impl Print, machine: &Machine<M>) -> Result<()> {
    let registers = machine.state().registers;
    let link = machine.look(registers.lv)?;
    print!(rt; "stack")?;
    for address in link.saturating_add(2)..registers.sp.saturating_add(1) {
        print!(rt; " {}", machine.look(address)?.cast_signed())?;
    }
    println!(rt)?;
    Ok(())
}

// The fragment in a memory, an instruction a line.
fn run<M: Memory + Drop>(rt: &impl Print, memory: M, program: &[u8]) -> Result<()> {
    let mut machine = loaded(memory, program)?;
    machine.run(4);
    for _ in LINES {
        let pc = machine.state().registers.pc;
        if let Some(line) = LINES.iter().find(|(address, ..)| *address == pc) {
            print_line(rt, line)?;
            let cycles = machine.step()?;
            print!(rt; ", {cycles} cycles: ")?;
            print_stack(rt, &machine)?;
        }
    }
    let lv = machine.state().registers.lv;
    let i = machine.look(lv.saturating_add(1))?.cast_signed();
    let j = machine.look(lv.saturating_add(2))?.cast_signed();
    let k = machine.look(lv.saturating_add(3))?.cast_signed();
    let pc = machine.state().registers.pc;
    println!(rt; "  15 L2: at byte {pc}: i = {i}, j = {j}, k = {k}")?;
    Ok(())
}

/// Prints the compiled fragment, instruction by instruction with its cycles and the operand stack, for two pairs of j and k (docs/edges.md).
pub fn fragment(rt: &impl Print, heap: Global) -> Result<()> {
    println!(rt; "THE COMPILED FRAGMENT: i = j + k; if (i == 3) k = 0; else j = j - 1;")?;
    for (j, k) in [(1, 2), (4, 3)] {
        println!(rt; "j = {j}, k = {k}")?;
        let program = program(heap, j, k)?;
        run(rt, WordMemory::make(&mut [0; 32]), program.as_slice())?;
    }
    Ok(())
}
