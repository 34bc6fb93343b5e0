// Examples of the memories, by hand.
#[cfg(test)]
mod tests {
    use crate::{move_word, moved_in};
    use memory::{AccessRefusal, ByteMemory, MakeRefusal, Memory, ProtectRefusal, WordMemory};
    use std::process::Abort;
    use std::test::Fail;

    // mark 9, size 32: write refuses 8 with 5 and 32 with 4, and takes 9 and 31
    fn marks<M: Memory>(rt: &impl Abort, memory: &mut M) {
        assert_eq!(rt; memory.size(), 32);
        assert_eq!(rt; memory.mark(), 0);
        assert_eq!(rt; memory.write(8, 1), Ok(()));
        assert_eq!(rt; memory.protect(9), Ok(()));
        assert_eq!(rt; memory.mark(), 9);
        assert_eq!(rt; memory.write(8, 7).map_err(AccessRefusal::number), Err(5));
        assert_eq!(rt; memory.write(32, 7).map_err(AccessRefusal::number), Err(4));
        assert_eq!(rt; memory.write(9, 7), Ok(()));
        assert_eq!(rt; memory.write(31, 8), Ok(()));
        assert_eq!(rt; memory.read(8), Ok(1));
        assert_eq!(rt; memory.read(9), Ok(7));
        assert_eq!(rt; memory.read(31), Ok(8));
        assert_eq!(rt; memory.read(32).map_err(AccessRefusal::number), Err(4));
    }

    #[test]
    fn words_below_the_mark_are_protected(rt: HostRuntime) {
        let mut words = [0u32; 32];
        marks(&rt, &mut WordMemory::make(&mut words));
        let mut bytes = [0u8; 128];
        marks(&rt, &mut ByteMemory::make(&mut bytes));
    }

    // the mark rises, as far as the size, and never falls
    fn rises<M: Memory>(rt: &impl Abort, memory: &mut M) {
        assert_eq!(rt; memory.protect(17).map_err(ProtectRefusal::number), Err(6));
        assert_eq!(rt; memory.protect(5), Ok(()));
        assert_eq!(rt; memory.protect(4).map_err(ProtectRefusal::number), Err(6));
        assert_eq!(rt; memory.protect(5), Ok(()));
        assert_eq!(rt; memory.mark(), 5);
        assert_eq!(rt; memory.protect(16), Ok(()));
        assert_eq!(rt; memory.write(15, 1).map_err(AccessRefusal::number), Err(5));
        assert_eq!(rt; memory.write(16, 1).map_err(AccessRefusal::number), Err(4));
    }

    #[test]
    fn the_mark_only_rises(rt: HostRuntime) {
        let mut words = [0u32; 16];
        rises(&rt, &mut WordMemory::make(&mut words));
        let mut bytes = [0u8; 64];
        rises(&rt, &mut ByteMemory::make(&mut bytes));
    }

    #[test]
    fn bytes_are_big_endian(rt: HostRuntime) {
        let mut bytes = [0u8; 64];
        bytes[0] = 0x12;
        bytes[1] = 0x34;
        bytes[2] = 0x56;
        bytes[3] = 0x78;
        bytes[7] = 0xFF;
        let mut memory = ByteMemory::make(&mut bytes);
        assert_eq!(rt; memory.read(0), Ok(0x1234_5678));
        assert_eq!(rt; memory.read(1), Ok(0xFF));
        assert_eq!(rt; memory.write(15, 0xCAFE_BABE), Ok(()));
        let back = memory.into_cells();
        assert!(rt; back.len() == 64);
        assert_eq!(rt; (back[59], back[60], back[61]), (0, 0xCA, 0xFE));
        assert_eq!(rt; (back[62], back[63]), (0xBA, 0xBE));
    }

    #[test]
    fn byte_lengths_around_sixteen_words(rt: HostRuntime) {
        let bytes = [0u8; 66];
        assert_eq!(rt;
            ByteMemory::refusal(&bytes[0..63]).map(MakeRefusal::number),
            Some(2)
        );
        assert_eq!(rt; ByteMemory::refusal(&bytes[0..64]), None);
        assert_eq!(rt;
            ByteMemory::refusal(&bytes[0..65]).map(MakeRefusal::number),
            Some(2)
        );
        assert_eq!(rt;
            ByteMemory::refusal(&bytes[0..66]).map(MakeRefusal::number),
            Some(2)
        );
        assert_eq!(rt;
            ByteMemory::refusal(&bytes[0..60]).map(MakeRefusal::number),
            Some(1)
        );
        assert_eq!(rt;
            ByteMemory::refusal(&bytes[0..0]).map(MakeRefusal::number),
            Some(1)
        );
        assert_eq!(rt;
            ByteMemory::refusal(&bytes[0..3]).map(MakeRefusal::number),
            Some(2)
        );
    }

    #[test]
    fn sizes_at_the_limits(rt: HostRuntime) -> Result<(), Fail> {
        let words = vec![in rt.alloc(); 0u32; 1_048_577]?;
        let words = words.as_slice();
        assert!(rt; words.len() == 1_048_577);
        assert_eq!(rt;
            WordMemory::refusal(&words[0..15]).map(MakeRefusal::number),
            Some(1)
        );
        assert_eq!(rt; WordMemory::refusal(&words[0..16]), None);
        assert_eq!(rt; WordMemory::refusal(&words[0..1_048_576]), None);
        assert_eq!(rt;
            WordMemory::refusal(words).map(MakeRefusal::number),
            Some(1)
        );
        let bytes = vec![in rt.alloc(); 0u8; 4_194_308]?;
        let bytes = bytes.as_slice();
        assert!(rt; bytes.len() == 4_194_308);
        assert_eq!(rt; ByteMemory::refusal(&bytes[0..4_194_304]), None);
        assert_eq!(rt;
            ByteMemory::refusal(&bytes[0..4_194_305]).map(MakeRefusal::number),
            Some(2)
        );
        assert_eq!(rt;
            ByteMemory::refusal(bytes).map(MakeRefusal::number),
            Some(1)
        );
        Ok(())
    }

    // a buffer that is refused makes a memory of size 0, and stays as it is
    fn empty<M: Memory>(rt: &impl Abort, memory: &mut M) {
        assert_eq!(rt; memory.size(), 0);
        assert_eq!(rt; memory.mark(), 0);
        assert_eq!(rt; memory.read(0).map_err(AccessRefusal::number), Err(4));
        assert_eq!(rt; memory.write(0, 9).map_err(AccessRefusal::number), Err(4));
        assert_eq!(rt; memory.protect(1).map_err(ProtectRefusal::number), Err(6));
        assert_eq!(rt; memory.protect(0), Ok(()));
    }

    #[test]
    fn refused_buffers_make_empty_memories(rt: HostRuntime) {
        let mut words = [7u32; 15];
        let mut memory = WordMemory::make(&mut words);
        empty(&rt, &mut memory);
        let back = memory.into_cells();
        assert!(rt; back.len() == 15);
        assert_eq!(rt; (back[0], back[14]), (7, 7));
        let mut bytes = [7u8; 65];
        empty(&rt, &mut ByteMemory::make(&mut bytes));
        assert_eq!(rt; (bytes[0], bytes[64]), (7, 7));
    }

    // one generic function with both makes
    fn moves<M: Memory>(rt: &impl Abort, memory: &mut M) {
        assert_eq!(rt; memory.write(3, 0x0102_0304), Ok(()));
        assert_eq!(rt; move_word(memory, 3, 15), Ok(()));
        assert_eq!(rt; memory.read(15), Ok(0x0102_0304));
        assert_eq!(rt;
            move_word(memory, 16, 0).map_err(AccessRefusal::number),
            Err(4)
        );
        assert_eq!(rt;
            move_word(memory, 0, 16).map_err(AccessRefusal::number),
            Err(4)
        );
        assert_eq!(rt; memory.protect(16), Ok(()));
        assert_eq!(rt;
            move_word(memory, 3, 15).map_err(AccessRefusal::number),
            Err(5)
        );
    }

    #[test]
    fn a_generic_function_with_both_makes(rt: HostRuntime) {
        let mut words = [0u32; 16];
        moves(&rt, &mut WordMemory::make(&mut words));
        let mut bytes = [0u8; 64];
        moves(&rt, &mut ByteMemory::make(&mut bytes));
    }

    #[test]
    fn a_lent_buffer_comes_back(rt: HostRuntime) {
        let mut bytes = [0u8; 64];
        bytes[4] = 0xAB;
        bytes[7] = 0xCD;
        let back = moved_in(&mut bytes, 1, 2);
        assert!(rt; back.len() == 64);
        assert_eq!(rt; (back[8], back[11]), (0xAB, 0xCD));
        assert_eq!(rt; (back[4], back[7]), (0xAB, 0xCD));
    }
}
