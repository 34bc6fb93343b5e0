// The slides' tables: the ALU's functions, the bus codes, the shifter, control words in the slides' notation, and microinstruction control.
use anyhow::Result;
use control::{ControlStore, ControlWord, Registers, Source, alu, bus, decode, encode, shift};
use datapath::Datapath;
use memory::WordMemory;
use notation::{Bits, Operations};

const O: bool = false;

const I: bool = true;

// F0, F1, ENA, ENB, INVA and INC, and the function, in the slides' order.
const ALU_ROWS: [([bool; 6], &str); 16] = [
    ([O, I, I, O, O, O], "A"),
    ([O, I, O, I, O, O], "B"),
    ([O, I, I, O, I, O], "NOT A"),
    ([I, O, I, I, O, O], "NOT B"),
    ([I, I, I, I, O, O], "A + B"),
    ([I, I, I, I, O, I], "A + B + 1"),
    ([I, I, I, O, O, I], "A + 1"),
    ([I, I, O, I, O, I], "B + 1"),
    ([I, I, I, I, I, I], "B - A"),
    ([I, I, O, I, I, O], "B - 1"),
    ([I, I, I, O, I, I], "-A"),
    ([O, O, I, I, O, O], "A AND B"),
    ([O, I, I, I, O, O], "A OR B"),
    ([O, I, O, O, O, O], "0"),
    ([I, I, O, O, O, I], "1"),
    ([I, I, O, O, I, O], "-1"),
];

// What the ALU is tried on: A and B.
const OPERANDS: [(i32, i32); 3] = [(12, 10), (-1, 1), (i32::MIN, i32::MAX)];

// The control word with these signals, and nothing else.
fn word_of([f0, f1, ena, enb, inva, inc]: [bool; 6]) -> ControlWord {
    ControlWord {
        f0,
        f1,
        ena,
        enb,
        inva,
        inc,
        ..ControlWord::default()
    }
}

// The ALU's table for one pair of operands.
fn alu_table(rt: &impl Print, a: i32, b: i32) -> Result<()> {
    println!(rt; "A = {a}, B = {b}")?;
    for (signals, name) in ALU_ROWS {
        let (result, n, z) = alu(&word_of(signals), a.cast_unsigned(), b.cast_unsigned());
        let [f0, f1, ena, enb, inva, inc] = signals.map(u8::from);
        let (result, n, z) = (result.cast_signed(), u8::from(n), u8::from(z));
        println!(rt; "  {f0} {f1} {ena} {enb} {inva} {inc}  {name:<9} = {result}, N={n} Z={z}")?;
    }
    Ok(())
}

// The register's name on the slides.
fn source_name(source: Option<Source>) -> &'static str {
    match source {
        Some(Source::Mdr) => "MDR",
        Some(Source::Pc) => "PC",
        Some(Source::Mbr) => "MBR",
        Some(Source::Mbru) => "MBRU",
        Some(Source::Sp) => "SP",
        Some(Source::Lv) => "LV",
        Some(Source::Cpp) => "CPP",
        Some(Source::Tos) => "TOS",
        Some(Source::Opc) => "OPC",
        None => "none",
    }
}

// What each code puts on the bus, where every register holds another number. H and MAR do not reach the bus.
fn bus_table(rt: &impl Print) -> Result<()> {
    let registers = Registers {
        mdr: 1000,
        pc: 1001,
        sp: 1004,
        lv: 1005,
        cpp: 1006,
        tos: 1007,
        opc: 1008,
        h: 1009,
        mar: 1010,
    };
    println!(rt;
        "MBR = 0x85, MDR = 1000, PC = 1001, SP = 1004, LV = 1005, CPP = 1006, TOS = 1007, OPC = 1008, H = 1009, MAR = 1010"
    )?;
    for code in 0..16u8 {
        let source = Source::of(code);
        let word = bus(source, &registers, 0x85).cast_signed();
        println!(rt; "  {code:>2} {:<4} = {word}", source_name(source))?;
    }
    Ok(())
}

// What the shifter is tried on.
const SHIFTED: [u32; 5] = [
    0x0100_0000,
    0x1234_5678,
    0x8000_0001,
    0x7FFF_FFFF,
    0xFFFF_FFFF,
];

fn shift_table(rt: &impl Print) -> Result<()> {
    let plain = ControlWord::default();
    let sll8 = ControlWord {
        sll8: true,
        ..plain
    };
    let sra1 = ControlWord {
        sra1: true,
        ..plain
    };
    for value in SHIFTED {
        let [none, left, right] = [plain, sll8, sra1].map(|word| shift(&word, value));
        println!(rt; "  0x{value:08X}: none 0x{none:08X}, SLL8 0x{left:08X}, SRA1 0x{right:08X}")?;
    }
    // Z is taken before the shifter: 0 OR B, shifted left.
    let word = ControlWord {
        sll8: true,
        ..word_of([O, I, O, I, O, O])
    };
    let (result, _, z) = alu(&word, 0, 0x0100_0000);
    let (on_c, z) = (shift(&word, result), u8::from(z));
    println!(rt; "  B under SLL8, of 0x01000000: C bus 0x{on_c:08X}, Z={z}")?;
    Ok(())
}

// Numbers of control words.
const WORDS: [u64; 3] = [0x14_8007, 0x3C_0408, 0x435_0211];

fn word_table(rt: &impl Print) -> Result<()> {
    for number in WORDS {
        let word = decode(number)?;
        let back = Bits(encode(&word)?);
        println!(rt; "  0x{number:09X} {} [{back}]", Operations(&word))?;
    }
    Ok(())
}

// A word that jumps on Z, and its address: NEXT is 0x092, JAM 001, the ALU's function B, and OPC is on the bus.
const JUMP: u64 = 0x4_9114_0008;

const JUMP_ADDRESS: u16 = 0x75;

// The word is done with 0 and with other numbers in OPC: Z, and the successor that it goes to.
fn successor_table(rt: &impl Print) -> Result<()> {
    let word = decode(JUMP)?;
    println!(rt; "  0x{JUMP_ADDRESS:03X} {}", Operations(&word))?;
    let mut numbers = [0u64; 512];
    numbers[usize::from(JUMP_ADDRESS)] = JUMP;
    let mut store = ControlStore::new();
    store.fill(&numbers)?;
    for value in [0, 1, -1i32] {
        let registers = Registers {
            opc: value.cast_unsigned(),
            ..Registers::default()
        };
        let on_bus = bus(Source::of(word.b), &registers, 0);
        let (_, _, z) = alu(&word, registers.h, on_bus);
        let mut words = [0; 16];
        let memory = WordMemory::make(&mut words);
        let mut machine = Datapath::power(memory, registers, 0, JUMP_ADDRESS);
        machine.cycle(&store)?;
        let (z, mpc) = (u8::from(z), machine.state().mpc);
        println!(rt; "    OPC = {value}: Z={z}, then MPC 0x{mpc:03X}")?;
    }
    Ok(())
}

/// Prints the tables as the machine computes them: the ALU's functions, the bus codes, the shifter, control words as text, and the successors of a word that jumps (docs/edges.md).
pub fn tables(rt: &impl Print) -> Result<()> {
    println!(rt; "THE ALU: F0 F1 ENA ENB INVA INC, the function, its result")?;
    for (a, b) in OPERANDS {
        alu_table(rt, a, b)?;
    }
    println!(rt; "THE B BUS: code, what it puts on the bus")?;
    bus_table(rt)?;
    println!(rt; "THE SHIFTER")?;
    shift_table(rt)?;
    println!(rt; "CONTROL WORDS: number, operations, and the number that encode gives back")?;
    word_table(rt)?;
    println!(rt;
        "MICROINSTRUCTION CONTROL: a word at 0x075 with NEXT 0x092 and JAM 001, which has two successors"
    )?;
    successor_table(rt)?;
    Ok(())
}
