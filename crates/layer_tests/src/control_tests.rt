// Examples of control words, the store, the bus, the ALU and the shifter, by hand.
#[cfg(test)]
mod tests {
    use control::{
        CBits, ControlRefusal, ControlStore, ControlWord, FillRefusal, Registers, Source, alu, bus,
        decode, encode, shift,
    };
    use std::process::Abort;
    use std::test::Fail;

    // the number of a refused fill, and the address that it carries, if it carries one
    fn number_and_address(refusal: FillRefusal) -> (u32, Option<u16>) {
        let address = match refusal {
            FillRefusal::WrongCount => None,
            FillRefusal::WrongWord { address, cause: _ } => Some(address),
        };
        (refusal.number(), address)
    }

    #[test]
    fn three_words_of_the_textbook(rt: HostRuntime) -> Result<(), Fail> {
        // 0x148007 = 0b0001_0100_1000_0000_0000_0111: F1, ENB, C bit H, B = 7
        let w = decode(0x148007)?;
        assert_eq!(rt; (w.next, w.b), (0, 7));
        assert!(rt; !w.f0 && w.f1 && !w.ena && w.enb && !w.inva && !w.inc);
        assert!(rt; w.c.h && !w.c.sp && !w.c.pc && !w.fetch && !w.jmpc);
        // 0x3C0408 = 0b0011_1100_0000_0100_0000_1000: F0, F1, ENA, ENB, C bit SP, B = 8
        let w = decode(0x3C0408)?;
        assert_eq!(rt; (w.next, w.b), (0, 8));
        assert!(rt; w.f0 && w.f1 && w.ena && w.enb && !w.inva && !w.inc);
        assert!(rt; w.c.sp && !w.c.h);
        // 0x4350211 = 0b0100_0011_0101_0000_0010_0001_0001: JMPC, F0, F1, ENB, INC, C bit PC, FETCH, B = 1
        let w = decode(0x4350211)?;
        assert_eq!(rt; (w.next, w.b), (0, 1));
        assert!(rt; w.jmpc && w.f0 && w.f1 && !w.ena && w.enb && !w.inva && w.inc);
        assert!(rt; w.c.pc && w.fetch && !w.read && !w.write && !w.jamn && !w.jamz);
        Ok(())
    }

    #[test]
    fn decode_refuses_in_order(rt: HostRuntime) {
        assert!(rt; decode(0xF_FF9F_FFBF).is_ok());
        assert_eq!(rt;
            decode(0x10_0000_0000).err().map(ControlRefusal::number),
            Some(7)
        );
        assert_eq!(rt;
            decode(0xFFFF_FFFF_FFFF_FFFF)
                .err()
                .map(ControlRefusal::number),
            Some(7)
        );
        assert_eq!(rt;
            decode(0xC0_0000).err().map(ControlRefusal::number),
            Some(8)
        );
        assert_eq!(rt; decode(0x60).err().map(ControlRefusal::number), Some(9));
        assert_eq!(rt;
            decode(0xC0_0060).err().map(ControlRefusal::number),
            Some(8)
        );
        assert_eq!(rt;
            decode(0x10_00C0_0060).err().map(ControlRefusal::number),
            Some(7)
        );
    }

    #[test]
    fn encode_puts_each_field_in_its_bits(rt: HostRuntime) -> Result<(), Fail> {
        let zero = decode(0)?;
        assert_eq!(rt; encode(&zero), Ok(0));
        assert_eq!(rt;
            encode(&ControlWord { next: 511, ..zero }),
            Ok(0xF_F800_0000)
        );
        assert_eq!(rt;
            encode(&ControlWord {
                jmpc: true,
                jamz: true,
                ..zero
            }),
            Ok(0x500_0000)
        );
        assert_eq!(rt;
            encode(&ControlWord {
                f0: true,
                inc: true,
                b: 15,
                ..zero
            }),
            Ok(0x21_000F)
        );
        let c = CBits {
            h: true,
            mar: true,
            ..CBits::default()
        };
        assert_eq!(rt;
            encode(&ControlWord {
                c,
                fetch: true,
                ..zero
            }),
            Ok(0x8090)
        );
        Ok(())
    }

    #[test]
    fn encode_refuses_in_order(rt: HostRuntime) -> Result<(), Fail> {
        let zero = decode(0)?;
        assert_eq!(rt;
            encode(&ControlWord { next: 512, ..zero }).map_err(ControlRefusal::number),
            Err(7)
        );
        assert_eq!(rt;
            encode(&ControlWord { b: 16, ..zero }).map_err(ControlRefusal::number),
            Err(7)
        );
        assert_eq!(rt;
            encode(&ControlWord {
                sll8: true,
                sra1: true,
                ..zero
            })
            .map_err(ControlRefusal::number),
            Err(8)
        );
        assert_eq!(rt;
            encode(&ControlWord {
                write: true,
                read: true,
                ..zero
            })
            .map_err(ControlRefusal::number),
            Err(9)
        );
        assert_eq!(rt;
            encode(&ControlWord {
                sll8: true,
                sra1: true,
                write: true,
                read: true,
                ..zero
            })
            .map_err(ControlRefusal::number),
            Err(8)
        );
        assert_eq!(rt;
            encode(&ControlWord {
                b: 16,
                sll8: true,
                sra1: true,
                ..zero
            })
            .map_err(ControlRefusal::number),
            Err(7)
        );
        Ok(())
    }

    #[test]
    fn a_store_is_filled_with_all_numbers_or_none(rt: HostRuntime) {
        let mut store = ControlStore::new();
        let mut numbers = [0x148007u64; 512];
        assert_eq!(rt; store.number(0), Some(0));
        assert_eq!(rt; store.number(511), Some(0));
        assert_eq!(rt; store.number(512), None);
        assert_eq!(rt;
            store.fill(&numbers[0..511]).map_err(number_and_address),
            Err((10, None))
        );
        assert_eq!(rt;
            store.fill(&[]).map_err(number_and_address),
            Err((10, None))
        );
        assert_eq!(rt; store.number(0), Some(0));
        numbers[7] = 0x60;
        numbers[5] = 0xC0_0000;
        assert_eq!(rt;
            store.fill(&numbers).map_err(number_and_address),
            Err((8, Some(5)))
        );
        assert_eq!(rt; store.number(0), Some(0));
        numbers[5] = 0x4350211;
        assert_eq!(rt;
            store.fill(&numbers).map_err(number_and_address),
            Err((9, Some(7)))
        );
        numbers[7] = 0x3C0408;
        assert_eq!(rt; store.fill(&numbers), Ok(()));
        assert_eq!(rt;
            (store.number(4), store.number(5)),
            (Some(0x148007), Some(0x4350211))
        );
        assert_eq!(rt;
            (store.number(7), store.number(511)),
            (Some(0x3C0408), Some(0x148007))
        );
    }

    #[test]
    fn the_bus_codes(rt: HostRuntime) {
        let r = Registers {
            h: 1,
            opc: 2,
            tos: 3,
            cpp: 4,
            lv: 5,
            sp: 6,
            pc: 7,
            mdr: 8,
            mar: 9,
        };
        assert_eq!(rt;
            (bus(Source::of(0), &r, 0x7F), bus(Source::of(1), &r, 0x7F)),
            (8, 7)
        );
        assert_eq!(rt;
            (bus(Source::of(2), &r, 0x7F), bus(Source::of(3), &r, 0x7F)),
            (0x7F, 0x7F)
        );
        assert_eq!(rt;
            (bus(Source::of(2), &r, 0x80), bus(Source::of(3), &r, 0x80)),
            (0xFFFF_FF80, 0x80)
        );
        assert_eq!(rt;
            (bus(Source::of(2), &r, 0xFF), bus(Source::of(3), &r, 0xFF)),
            (0xFFFF_FFFF, 0xFF)
        );
        assert_eq!(rt;
            (bus(Source::of(4), &r, 1), bus(Source::of(5), &r, 1)),
            (6, 5)
        );
        assert_eq!(rt;
            (bus(Source::of(6), &r, 1), bus(Source::of(7), &r, 1)),
            (4, 3)
        );
        assert_eq!(rt;
            (bus(Source::of(8), &r, 1), bus(Source::of(9), &r, 1)),
            (2, 0)
        );
        assert_eq!(rt;
            (bus(Source::of(15), &r, 1), bus(Source::of(255), &r, 1)),
            (0, 0)
        );
    }

    // the ALU under six signals: F0 F1 ENA ENB INVA INC stand in bits 21 to 16
    fn computed(
        rt: &impl Abort,
        signals: u64,
        h: u32,
        bus: u32,
    ) -> Result<(u32, bool, bool), Fail> {
        assert!(rt; signals < 64);
        let word = decode(signals * 0x1_0000)?;
        Ok(alu(&word, h, bus))
    }

    #[test]
    fn the_first_eight_rows_of_the_alu_table(rt: HostRuntime) -> Result<(), Fail> {
        assert_eq!(rt; computed(&rt, 0b01_10_00, 12, 10)?, (12, false, false));
        assert_eq!(rt; computed(&rt, 0b01_01_00, 12, 10)?, (10, false, false));
        assert_eq!(rt;
            computed(&rt, 0b01_10_10, 12, 10)?,
            (0xFFFF_FFF3, true, false)
        );
        assert_eq!(rt;
            computed(&rt, 0b10_11_00, 12, 10)?,
            (0xFFFF_FFF5, true, false)
        );
        assert_eq!(rt; computed(&rt, 0b11_11_00, 12, 10)?, (22, false, false));
        assert_eq!(rt; computed(&rt, 0b11_11_01, 12, 10)?, (23, false, false));
        assert_eq!(rt; computed(&rt, 0b11_10_01, 12, 10)?, (13, false, false));
        assert_eq!(rt; computed(&rt, 0b11_01_01, 12, 10)?, (11, false, false));
        Ok(())
    }

    #[test]
    fn the_last_eight_rows_of_the_alu_table(rt: HostRuntime) -> Result<(), Fail> {
        assert_eq!(rt;
            computed(&rt, 0b11_11_11, 12, 10)?,
            (0xFFFF_FFFE, true, false)
        );
        assert_eq!(rt; computed(&rt, 0b11_01_10, 12, 10)?, (9, false, false));
        assert_eq!(rt;
            computed(&rt, 0b11_10_11, 12, 10)?,
            (0xFFFF_FFF4, true, false)
        );
        assert_eq!(rt; computed(&rt, 0b00_11_00, 12, 10)?, (8, false, false));
        assert_eq!(rt; computed(&rt, 0b01_11_00, 12, 10)?, (14, false, false));
        assert_eq!(rt; computed(&rt, 0b01_00_00, 12, 10)?, (0, false, true));
        assert_eq!(rt; computed(&rt, 0b11_00_01, 12, 10)?, (1, false, false));
        assert_eq!(rt;
            computed(&rt, 0b11_00_10, 12, 10)?,
            (0xFFFF_FFFF, true, false)
        );
        Ok(())
    }

    #[test]
    fn sums_wrap(rt: HostRuntime) -> Result<(), Fail> {
        assert_eq!(rt;
            computed(&rt, 0b11_11_00, 0xFFFF_FFFF, 1)?,
            (0, false, true)
        );
        assert_eq!(rt;
            computed(&rt, 0b11_11_01, 0xFFFF_FFFF, 0xFFFF_FFFF)?,
            (0xFFFF_FFFF, true, false)
        );
        assert_eq!(rt;
            computed(&rt, 0b11_01_10, 7, 0)?,
            (0xFFFF_FFFF, true, false)
        );
        assert_eq!(rt;
            computed(&rt, 0b11_11_00, 0x7FFF_FFFF, 1)?,
            (0x8000_0000, true, false)
        );
        Ok(())
    }

    #[test]
    fn flags_are_taken_before_the_shifter(rt: HostRuntime) -> Result<(), Fail> {
        // F1 and ENB: the bus; with SLL8, then with SRA1
        let left = decode(0x94_0000)?;
        let (result, n, z) = alu(&left, 0, 0x0100_0000);
        assert_eq!(rt; (result, n, z), (0x0100_0000, false, false));
        assert_eq!(rt; shift(&left, result), 0);
        assert_eq!(rt; shift(&left, 0x1234_5678), 0x3456_7800);
        let right = decode(0x54_0000)?;
        assert_eq!(rt;
            (shift(&right, 0x8000_0001), shift(&right, 0x7FFF_FFFF)),
            (0xC000_0000, 0x3FFF_FFFF)
        );
        assert_eq!(rt;
            (shift(&right, 1), shift(&right, 0xFFFF_FFFF)),
            (0, 0xFFFF_FFFF)
        );
        let plain = decode(0x14_0000)?;
        assert_eq!(rt; shift(&plain, 0x8000_0001), 0x8000_0001);
        Ok(())
    }
}
