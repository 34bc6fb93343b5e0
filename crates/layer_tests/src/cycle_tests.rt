// Examples of the cycle, by hand.
#[cfg(test)]
mod tests {
    use control::{ControlStore, Registers};
    use datapath::{Datapath, Fault, Port, PowerRefusal, power_refusal};
    use memory::{AccessRefusal, ByteMemory, Memory, WordMemory};
    use std::test::Fail;

    // a store of zeros with two words at 0 and 1
    fn store_of(first: u64, second: u64) -> Result<ControlStore, Fail> {
        let mut numbers = [0u64; 512];
        numbers[0] = first;
        numbers[1] = second;
        let mut store = ControlStore::new();
        store.fill(&numbers)?;
        Ok(store)
    }

    // the cause's number, as the manual has it, the word address, the port and the MPC of a fault
    fn parts_of(fault: Fault) -> (u32, u32, Port, u16) {
        (fault.cause.number(), fault.address, fault.port, fault.mpc)
    }

    #[test]
    fn power_starts_at_0_where_mpc_is_refused(rt: HostRuntime) {
        assert_eq!(rt; power_refusal(511), None);
        assert_eq!(rt; power_refusal(512).map(PowerRefusal::number), Some(11));
        let mut words = [0u32; 16];
        let machine = Datapath::power(WordMemory::make(&mut words), Registers::default(), 7, 512);
        assert_eq!(rt; (machine.state().mpc, machine.state().mbr), (0, 7));
        assert_eq!(rt; machine.state().counter, 0);
    }

    #[test]
    fn a_fetch_out_of_range_stops_go(rt: HostRuntime) -> Result<(), Fail> {
        let mut words = [0u32; 16];
        // 0: PC = PC + 1; fetch; goto 0x001    1: goto 0x001
        let store = store_of(0x835_0211, 0x800_0000)?;
        let mut machine = Datapath::power(
            WordMemory::make(&mut words),
            Registers {
                pc: 63,
                ..Registers::default()
            },
            0,
            0,
        );
        let (done, fault) = machine.go(&store, 10);
        assert_eq!(rt; done, 1);
        assert_eq!(rt; fault.map(parts_of), Some((4, 16, Port::Fetch, 0)));
        assert_eq!(rt; (machine.state().counter, machine.state().mpc), (1, 1));
        // a refused cycle changes nothing: it is refused again
        let (done, fault) = machine.go(&store, 10);
        assert_eq!(rt; done, 0);
        assert_eq!(rt; fault.map(parts_of), Some((4, 16, Port::Fetch, 0)));
        Ok(())
    }

    #[test]
    fn a_word_writes_three_registers_and_a_start_leaves_none_of_it(
        rt: HostRuntime,
    ) -> Result<(), Fail> {
        let mut words = [0u32; 16];
        // OPC = TOS = MAR = H; goto 0x001
        let store = store_of(0x818_6080, 0x800_0000)?;
        let registers = Registers {
            h: 5,
            sp: 3,
            ..Registers::default()
        };
        let mut machine = Datapath::power(WordMemory::make(&mut words), registers, 0, 0);
        let (done, fault) = machine.go(&store, 1);
        assert_eq!(rt; (done, fault.map(parts_of)), (1, None));
        let written = Registers {
            opc: 5,
            tos: 5,
            mar: 5,
            ..registers
        };
        assert_eq!(rt; machine.state().registers, written);
        machine.start(&registers, 9, 2);
        let state = machine.state();
        assert_eq!(rt; state.registers, registers);
        assert_eq!(rt; (state.mbr, state.mpc, state.counter), (9, 2, 0));
        Ok(())
    }

    #[test]
    fn a_read_out_of_range_and_a_write_to_a_protected_word(rt: HostRuntime) -> Result<(), Fail> {
        let mut words = [0u32; 16];
        // 0: MAR = H; rd; goto 0x001, then MAR = H; wr; goto 0x001
        let reads = store_of(0x818_00A0, 0x800_0000)?;
        let writes = store_of(0x818_00C0, 0x800_0000)?;
        let mut machine = Datapath::power(
            WordMemory::make(&mut words),
            Registers {
                h: 16,
                ..Registers::default()
            },
            0,
            0,
        );
        let (done, fault) = machine.go(&reads, 5);
        assert_eq!(rt; done, 1);
        assert_eq!(rt; fault.map(parts_of), Some((4, 16, Port::Read, 0)));
        let mut memory = machine.into_memory();
        assert_eq!(rt; memory.protect(9), Ok(()));
        let mut machine = Datapath::power(
            memory,
            Registers {
                h: 8,
                mdr: 5,
                ..Registers::default()
            },
            0,
            0,
        );
        let (done, fault) = machine.go(&writes, 5);
        assert_eq!(rt; done, 1);
        assert_eq!(rt; fault.map(parts_of), Some((5, 8, Port::Write, 0)));
        Ok(())
    }

    #[test]
    fn a_refused_cycle_leaves_each_byte(rt: HostRuntime) -> Result<(), Fail> {
        // 66 bytes end within a word, so the memory over them has size 0
        let mut bytes = [7u8; 66];
        // 0: MAR = MDR = H; wr; goto 0x001
        let store = store_of(0x818_01C0, 0x800_0000)?;
        let mut machine = Datapath::power(ByteMemory::make(&mut bytes), Registers::default(), 0, 0);
        assert_eq!(rt; machine.cycle(&store), Ok(()));
        let before = machine.state();
        let refused = machine.cycle(&store);
        assert_eq!(rt; refused.err().map(parts_of), Some((4, 0, Port::Write, 0)));
        assert_eq!(rt; machine.state(), before);
        let back = machine.into_memory().into_cells();
        assert!(rt; back.len() == 66);
        assert_eq!(rt; (back[0], back[3], back[64], back[65]), (7, 7, 7, 7));
        Ok(())
    }

    #[test]
    fn the_fetch_comes_before_the_write(rt: HostRuntime) -> Result<(), Fail> {
        let mut words = [0x1122_3344u32; 16];
        // 0: MAR = MDR = H; wr; fetch; goto 0x001: both accesses are to word 0
        let store = store_of(0x818_01D0, 0x800_0000)?;
        let mut machine = Datapath::power(WordMemory::make(&mut words), Registers::default(), 0, 0);
        let (done, _) = machine.go(&store, 2);
        assert_eq!(rt; done, 2);
        // the fetch saw the old word, and the write is done
        assert_eq!(rt; machine.state().mbr, 0x11);
        let memory = machine.into_memory();
        assert!(rt; memory.read(0).is_ok());
        assert_eq!(rt; memory.into_cells()[0], 0);
        Ok(())
    }

    #[test]
    fn dispatch_takes_the_old_byte_and_an_arriving_word_wins(rt: HostRuntime) -> Result<(), Fail> {
        let mut words = [0x7700_0000u32; 16];
        // 0: MAR = H; rd; fetch; goto 0x001    1: MDR = 1; goto (MBR)
        let store = store_of(0x818_00B0, 0x431_0100)?;
        let mut machine = Datapath::power(
            WordMemory::make(&mut words),
            Registers::default(),
            0x22,
            0,
        );
        let (done, _) = machine.go(&store, 2);
        assert_eq!(rt; done, 2);
        let state = machine.state();
        assert_eq!(rt; (state.mpc, state.mbr), (0x22, 0x77));
        assert_eq!(rt; state.registers.mdr, 0x7700_0000);
        Ok(())
    }

    #[test]
    fn refusals_and_faults_as_text(rt: HostRuntime) -> Result<(), Fail> {
        let mut words = [0u32; 16];
        let mut memory = WordMemory::make(&mut words);
        memory.protect(9)?;
        let refused = memory.write(8, 1).err().ok_or("written")?;
        let text = format!(in rt.alloc(); "{refused}")?;
        assert_eq!(rt; text.as_str(), "refused 5: the word is protected");
        let mut numbers = [0u64; 512];
        numbers[7] = 0x60;
        let refused = ControlStore::new().fill(&numbers).err().ok_or("filled")?;
        let text = format!(in rt.alloc(); "{refused}")?;
        assert_eq!(rt; text.as_str(), "refused 9: WRITE with READ, at address 7");
        let fault = Fault {
            cause: AccessRefusal::OutOfRange,
            address: 16,
            port: Port::Fetch,
            mpc: 256,
        };
        let text = format!(in rt.alloc(); "{fault}")?;
        assert_eq!(rt;
            text.as_str(),
            "refused 4: the address is not below the size: fetch of word 16, begun at MPC 256"
        );
        Ok(())
    }
}
