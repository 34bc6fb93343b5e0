// What power refuses, and the faults of a cycle.
use crate::outcome::Outcome;
use anyhow::Result;
use control::{ControlStore, Registers};
use datapath::{Datapath, Fault, PowerRefusal, power_refusal};
use memory::{ByteMemory, Memory, WordMemory};

const MPCS: [u16; 4] = [0, 511, 512, u16::MAX];

fn power_edges(rt: &impl Print) -> Result<()> {
    for mpc in MPCS {
        let outcome = Outcome(power_refusal(mpc).map(PowerRefusal::number));
        let mut words = [0; 16];
        let memory = WordMemory::make(&mut words);
        let state = Datapath::power(memory, Registers::default(), 0, mpc).state();
        let (mpc_then, counter) = (state.mpc, state.counter);
        println!(rt;
            "  power at MPC {mpc}: {outcome}; it starts at MPC {mpc_then}, counter {counter}"
        )?;
    }
    Ok(())
}

// Control words that begin accesses and go to address 6, with the H and the PC that they begin them by. The memory has 16 words with mark 4, so the last byte is 63.
const BEGUN: [(&str, u64, u32, u32); 16] = [
    ("fetch", 0x3000_0010, 0, 63),
    ("fetch", 0x3000_0010, 0, 64),
    ("fetch", 0x3000_0010, 0, u32::MAX),
    ("MAR = H; rd", 0x3018_00A0, 0, 0),
    ("MAR = H; rd", 0x3018_00A0, 15, 0),
    ("MAR = H; rd", 0x3018_00A0, 16, 0),
    ("MAR = H; rd", 0x3018_00A0, u32::MAX, 0),
    ("MAR = H; wr", 0x3018_00C0, 3, 0),
    ("MAR = H; wr", 0x3018_00C0, 4, 0),
    ("MAR = H; wr", 0x3018_00C0, 15, 0),
    ("MAR = H; wr", 0x3018_00C0, 16, 0),
    ("MAR = H; rd; fetch", 0x3018_00B0, 15, 63),
    ("MAR = H; rd; fetch", 0x3018_00B0, 16, 64),
    ("MAR = H; rd; fetch", 0x3018_00B0, 16, 63),
    ("MAR = H; wr; fetch", 0x3018_00D0, 3, 68),
    ("MAR = H; wr; fetch", 0x3018_00D0, 3, 63),
];

// One word at every address of a store, begun at MPC 5, for two cycles and one more: how many of the two were done, the fault, the counter, and how many more are done.
fn begin<M: Memory + Drop>(
    mut memory: M,
    number: u64,
    h: u32,
    pc: u32,
) -> Result<(u64, Option<Fault>, u64, u64)> {
    memory.protect(4)?;
    let mut store = ControlStore::new();
    store.fill(&[number; 512])?;
    let registers = Registers {
        h,
        pc,
        ..Registers::default()
    };
    let mut machine = Datapath::power(memory, registers, 0, 5);
    let (done, fault) = machine.go(&store, 2);
    let counter = machine.state().counter;
    let (more, _) = machine.go(&store, 1);
    Ok((done, fault, counter, more))
}

fn fault_edges(rt: &impl Print) -> Result<()> {
    for (text, number, h, pc) in BEGUN {
        let over_words = begin(WordMemory::make(&mut [7; 16]), number, h, pc)?;
        let over_bytes = begin(ByteMemory::make(&mut [7; 64]), number, h, pc)?;
        let (done, fault, counter, more) = over_words;
        print!(rt; "  {text}, with H = {h}, PC = {pc}: {done} done")?;
        if let Some(fault) = fault {
            let Fault {
                cause,
                address,
                port,
                mpc,
            } = fault;
            let number = cause.number();
            print!(rt; ", then {number}: {port} of word {address}, begun at MPC {mpc}")?;
        }
        println!(rt; "; counter {counter}; {more} more")?;
        if over_words != over_bytes {
            println!(rt; "    but not over bytes")?;
        }
    }
    Ok(())
}

// MAR = H; rd; fetch; goto 0x006, and there MDR = 1; goto (MBR): the jump takes the byte that was held, and what arrives wins over what is written from the C bus.
fn arrivals(rt: &impl Print) -> Result<()> {
    let mut numbers = [0u64; 512];
    numbers[5] = 0x3018_00B0;
    numbers[6] = 0x431_0100;
    let mut store = ControlStore::new();
    store.fill(&numbers)?;
    let mut words = [0x7712_3456; 16];
    let memory = WordMemory::make(&mut words);
    let mut machine = Datapath::power(memory, Registers::default(), 0x22, 5);
    machine.go(&store, 2);
    let state = machine.state();
    let (mpc, mbr, mdr) = (state.mpc, state.mbr, state.registers.mdr);
    println!(rt; "  MBR was 0x22: MPC 0x{mpc:03X}, then MBR 0x{mbr:02X}, MDR 0x{mdr:08X}")?;
    Ok(())
}

/// Prints what power refuses, the faults of a cycle, and what arrives in a cycle (docs/edges.md).
pub fn cycle_edges(rt: &impl Print) -> Result<()> {
    println!(rt; "POWER")?;
    power_edges(rt)?;
    println!(rt;
        "FAULTS OF A CYCLE, over 16 words with mark 4: each word is done at MPC 5, and what it begins is completed in the next cycle"
    )?;
    fault_edges(rt)?;
    println!(rt;
        "ARRIVALS: goto (MBR) in the cycle in which a byte arrives, MDR = 1 in that in which a word arrives"
    )?;
    arrivals(rt)?;
    Ok(())
}
