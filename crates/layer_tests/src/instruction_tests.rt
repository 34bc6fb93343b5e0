// Examples of the instruction machine, by hand: its table, its refusals, and what the published store makes of each case.
#[cfg(test)]
mod tests {
    use control::Registers;
    use datapath::{Datapath, State};
    use instructions::{
        Case, Opcode, Shape, Stack, StepRefusal, Variable, Way, a_turn_takes_51_cycles,
        cycle_table, performed_instructions_add_up, the_loop_takes, the_summing_method_takes,
    };
    use memory::{Memory, WordMemory};
    use microprogram::published_store;
    use std::process::Abort;
    use std::test::Fail;

    // every case of the table, with its cycles
    const CASES: [(Case, u64); 24] = [
        (Case::Nop, 2),
        (Case::Bipush, 4),
        (Case::LdcW, 8),
        (Case::Iload, 6),
        (Case::Istore, 7),
        (Case::Pop, 4),
        (Case::Dup, 3),
        (Case::Swap, 7),
        (Case::Iadd, 4),
        (Case::Isub, 4),
        (Case::Iand, 4),
        (Case::Ior, 4),
        (Case::Iinc, 7),
        (Case::IfeqFalls, 8),
        (Case::IfeqTaken, 11),
        (Case::IfltFalls, 8),
        (Case::IfltTaken, 11),
        (Case::IfIcmpeqFalls, 10),
        (Case::IfIcmpeqTaken, 13),
        (Case::Goto, 7),
        (Case::Ireturn, 9),
        (Case::Invokevirtual, 23),
        (Case::WideIload, 10),
        (Case::WideIstore, 11),
    ];

    #[test]
    fn the_cycle_table(rt: HostRuntime) {
        for (case, cycles) in CASES {
            assert_eq!(rt; case.cycles(), cycles);
        }
        let table = cycle_table();
        assert_eq!(rt; (table[0], table[6], table[21], table[23]), (2, 3, 23, 11));
    }

    #[test]
    fn the_opcodes(rt: HostRuntime) {
        assert_eq!(rt; Opcode::of(0x00), Some(Opcode::One(Case::Nop)));
        assert_eq!(rt; Opcode::of(0x10), Some(Opcode::One(Case::Bipush)));
        assert_eq!(rt; Opcode::of(0x13), Some(Opcode::One(Case::LdcW)));
        assert_eq!(rt; Opcode::of(0x5F), Some(Opcode::One(Case::Swap)));
        assert_eq!(rt; Opcode::of(0x64), Some(Opcode::One(Case::Isub)));
        assert_eq!(rt; Opcode::of(0x7E), Some(Opcode::One(Case::Iand)));
        assert_eq!(rt; Opcode::of(0x80), Some(Opcode::One(Case::Ior)));
        assert_eq!(rt; Opcode::of(0x99), Some(Opcode::Ifeq));
        assert_eq!(rt; Opcode::of(0x9B), Some(Opcode::Iflt));
        assert_eq!(rt; Opcode::of(0x9F), Some(Opcode::IfIcmpeq));
        assert_eq!(rt; Opcode::of(0xAC), Some(Opcode::One(Case::Ireturn)));
        assert_eq!(rt; Opcode::of(0xB6), Some(Opcode::One(Case::Invokevirtual)));
        assert_eq!(rt; Opcode::of(0xC4), Some(Opcode::Wide));
        assert_eq!(rt; (Opcode::of(0x01), Opcode::of(0xFF)), (None, None));
    }

    #[test]
    fn rows_of_the_table(rt: HostRuntime) {
        let iinc = Shape::of(Case::Iinc);
        assert_eq!(rt; (iinc.bytes, iinc.depth), (3, 0));
        assert_eq!(rt;
            (iinc.variable, iinc.stack),
            (Some(Variable::ByByte), Stack::Same)
        );
        let taken = Shape::of(Case::IfIcmpeqTaken);
        assert_eq!(rt; (taken.bytes, taken.depth), (3, 2));
        assert_eq!(rt; (taken.stack, taken.way), (Stack::PopTwo, Way::Branch));
        let call = Shape::of(Case::Invokevirtual);
        assert_eq!(rt; (call.bytes, call.pool), (3, true));
        assert_eq!(rt; (call.stack, call.way), (Stack::Enter, Way::Call));
        let wide = Shape::of(Case::WideIstore);
        assert_eq!(rt; (wide.bytes, wide.depth), (4, 1));
        assert_eq!(rt;
            (wide.variable, wide.stack),
            (Some(Variable::ByShort), Stack::Pop)
        );
    }

    #[test]
    fn the_numbers_of_a_step_s_refusals(rt: HostRuntime) -> Result<(), Fail> {
        let refusals = [
            (StepRefusal::OutsideCode, 30),
            (StepRefusal::UnknownOpcode, 31),
            (StepRefusal::TooShallow, 32),
            (StepRefusal::NoVariable, 33),
            (StepRefusal::NotInPool, 34),
            (StepRefusal::WrongMethod, 35),
            (StepRefusal::NoRoom, 36),
            (StepRefusal::NextOutside, 37),
            (StepRefusal::End, 38),
            (StepRefusal::NotLoaded, 39),
        ];
        for (refusal, number) in refusals {
            assert_eq!(rt; refusal.number(), number);
        }
        let text = format!(in rt.alloc(); "{}", StepRefusal::End)?;
        assert_eq!(rt; text.as_str(), "refused 38: main returns");
        Ok(())
    }

    #[test]
    fn what_the_summing_method_takes(rt: HostRuntime) {
        assert_eq!(rt; a_turn_takes_51_cycles(), 51);
        // the last turn alone; one before it; the longest loop
        assert_eq!(rt; the_loop_takes(0), 47);
        assert_eq!(rt; the_loop_takes(1), 98);
        assert_eq!(rt; the_loop_takes(4_294_967_294), 219_043_332_041);
        assert_eq!(rt; the_summing_method_takes(0), None);
        assert_eq!(rt; the_summing_method_takes(1), Some(75));
        assert_eq!(rt; the_summing_method_takes(3), Some(177));
        assert_eq!(rt; the_summing_method_takes(127), Some(6501));
        assert_eq!(rt; the_summing_method_takes(128), None);
        let turn = [Case::Bipush, Case::Dup, Case::Iadd, Case::IfeqTaken];
        assert_eq!(rt; performed_instructions_add_up(&turn), 22);
        assert_eq!(rt; performed_instructions_add_up(&[]), 0);
    }

    // what was left by one instruction: how many cycles it took, the state, and the words
    #[derive(Drop)]
    struct Left {
        cycles: u64,
        state: State,
        words: [u32; 32],
    }

    // One instruction on the published store. Its bytes stand at byte 4 of a memory of 32 words, of which nine are protected;
    // the pool is at word 7, with the words 5 and 24, where a method with one param and two locals begins.
    // LV is 9, the variables 1 and 2 are 100 and 200, the link is 12, and second and top are given.
    fn performed(rt: &impl Abort, bytes: [u8; 4], second: u32, top: u32) -> Left {
        let mut words = [0u32; 32];
        words[1] = u32::from_be_bytes(bytes);
        words[6] = 0x0001_0002;
        words[7] = 5;
        words[8] = 24;
        words[9] = 12;
        words[10] = 100;
        words[11] = 200;
        words[12] = 8;
        words[13] = 20;
        words[14] = second;
        words[15] = top;
        let mut memory = WordMemory::make(&mut words);
        assert_eq!(rt; memory.protect(9), Ok(()));
        let registers = Registers {
            pc: 4,
            sp: 15,
            lv: 9,
            cpp: 7,
            tos: top,
            ..Registers::default()
        };
        let mut machine = Datapath::power(memory, registers, bytes[0], 0x100);
        let store = published_store();
        let mut cycles = 0;
        // a bound: more cycles than any instruction takes
        for done in 1..=100u64 {
            assert_eq!(rt; machine.cycle(&store), Ok(()));
            if machine.state().mpc == 0x100 {
                cycles = done;
                break;
            }
        }
        let state = machine.state();
        // one cycle more completes a write under way: Main1 begins none
        assert_eq!(rt; machine.cycle(&store), Ok(()));
        let memory = machine.into_memory();
        let mut left = [0u32; 32];
        for (address, word) in (0..).zip(&mut left) {
            *word = memory.read(address).unwrap_or(0);
        }
        Left {
            cycles,
            state,
            words: left,
        }
    }

    #[test]
    fn every_case_takes_its_cycles(rt: HostRuntime) {
        assert_eq!(rt; performed(&rt, [0x00, 0, 0, 0], 7, 5).cycles, 2);
        assert_eq!(rt; performed(&rt, [0x10, 0xFE, 0, 0], 7, 5).cycles, 4);
        assert_eq!(rt; performed(&rt, [0x13, 0, 1, 0], 7, 5).cycles, 8);
        assert_eq!(rt; performed(&rt, [0x15, 1, 0, 0], 7, 5).cycles, 6);
        assert_eq!(rt; performed(&rt, [0x36, 2, 0, 0], 7, 5).cycles, 7);
        assert_eq!(rt; performed(&rt, [0x57, 0, 0, 0], 7, 5).cycles, 4);
        assert_eq!(rt; performed(&rt, [0x59, 0, 0, 0], 7, 5).cycles, 3);
        assert_eq!(rt; performed(&rt, [0x5F, 0, 0, 0], 7, 5).cycles, 7);
        assert_eq!(rt; performed(&rt, [0x60, 0, 0, 0], 7, 5).cycles, 4);
        assert_eq!(rt; performed(&rt, [0x64, 0, 0, 0], 7, 5).cycles, 4);
        assert_eq!(rt; performed(&rt, [0x7E, 0, 0, 0], 7, 5).cycles, 4);
        assert_eq!(rt; performed(&rt, [0x80, 0, 0, 0], 7, 5).cycles, 4);
        assert_eq!(rt; performed(&rt, [0x84, 1, 0xFF, 0], 7, 5).cycles, 7);
        assert_eq!(rt; performed(&rt, [0xA7, 0, 8, 0], 7, 5).cycles, 7);
        assert_eq!(rt; performed(&rt, [0xAC, 0, 0, 0], 7, 5).cycles, 9);
        assert_eq!(rt; performed(&rt, [0xB6, 0, 1, 0], 7, 5).cycles, 23);
        assert_eq!(rt; performed(&rt, [0xC4, 0x15, 0, 1], 7, 5).cycles, 10);
        assert_eq!(rt; performed(&rt, [0xC4, 0x36, 0, 2], 7, 5).cycles, 11);
    }

    #[test]
    fn every_branch_takes_its_cycles(rt: HostRuntime) {
        assert_eq!(rt; performed(&rt, [0x99, 0, 8, 0], 7, 5).cycles, 8);
        assert_eq!(rt; performed(&rt, [0x99, 0, 8, 0], 7, 0).cycles, 11);
        assert_eq!(rt; performed(&rt, [0x9B, 0, 8, 0], 7, 5).cycles, 8);
        assert_eq!(rt; performed(&rt, [0x9B, 0, 8, 0], 7, 0x8000_0000).cycles, 11);
        assert_eq!(rt; performed(&rt, [0x9F, 0, 8, 0], 7, 5).cycles, 10);
        assert_eq!(rt; performed(&rt, [0x9F, 0, 8, 0], 7, 7).cycles, 13);
        // an offset counts from the opcode's own address, 4; falling through goes 3 bytes on
        assert_eq!(rt;
            performed(&rt, [0x99, 0, 8, 0], 7, 0).state.registers.pc,
            12
        );
        assert_eq!(rt;
            performed(&rt, [0xA7, 0xFF, 0xFC, 0], 7, 0)
                .state
                .registers
                .pc,
            0
        );
        assert_eq!(rt; performed(&rt, [0x9F, 0, 8, 0], 7, 5).state.registers.pc, 7);
    }

    #[test]
    fn what_arithmetic_leaves(rt: HostRuntime) {
        // second − top, and modulo 2^32
        let isub = performed(&rt, [0x64, 0, 0, 0], 7, 5);
        assert_eq!(rt; (isub.words[14], isub.state.registers.sp), (2, 14));
        assert_eq!(rt;
            performed(&rt, [0x64, 0, 0, 0], 5, 7).words[14],
            0xFFFF_FFFE
        );
        assert_eq!(rt;
            performed(&rt, [0x60, 0, 0, 0], 0xFFFF_FFFF, 3).words[14],
            2
        );
        assert_eq!(rt; performed(&rt, [0x7E, 0, 0, 0], 12, 10).words[14], 8);
        assert_eq!(rt; performed(&rt, [0x80, 0, 0, 0], 12, 10).words[14], 14);
        let swap = performed(&rt, [0x5F, 0, 0, 0], 7, 5);
        assert_eq!(rt; (swap.words[14], swap.words[15]), (5, 7));
        // the byte of BIPUSH and the constant of IINC are signed, var is not
        assert_eq!(rt;
            performed(&rt, [0x10, 0xFE, 0, 0], 7, 5).words[16],
            0xFFFF_FFFE
        );
        assert_eq!(rt; performed(&rt, [0x84, 1, 0xFF, 0], 7, 5).words[10], 99);
        assert_eq!(rt; performed(&rt, [0x36, 2, 0, 0], 7, 5).words[11], 5);
        assert_eq!(rt; performed(&rt, [0xC4, 0x15, 0, 2], 7, 5).words[16], 200);
        assert_eq!(rt; performed(&rt, [0x13, 0, 1, 0], 7, 5).words[16], 24);
    }

    #[test]
    fn a_call_and_a_return(rt: HostRuntime) {
        // one param, the OBJREF: the new LV is 15, its word the new link 18; above it the return PC 7 and the old LV 9
        let call = performed(&rt, [0xB6, 0, 1, 0], 7, 5);
        let r = call.state.registers;
        assert_eq!(rt; (r.lv, r.sp, r.pc), (15, 19, 28));
        assert_eq!(rt; (call.words[15], call.words[18]), (18, 7));
        assert_eq!(rt; (call.words[14], call.words[19]), (7, 9));
        // the value goes to LV; PC and the old LV come back from the link
        let back = performed(&rt, [0xAC, 0, 0, 0], 7, 5);
        let r = back.state.registers;
        assert_eq!(rt; (r.lv, r.sp, r.pc), (20, 9, 8));
        assert_eq!(rt; back.words[9], 5);
    }
}
