// The B bus.
ghost use Rattle.std.specs.Prelude.{◌≡◌};
ghost use Rattle.control.specs.Bus.{source_of, driven_by, bus_of};

use crate::Registers;

/// What drives the B bus (docs/control-words.md).
#[derive(Clone, Copy, Debug, PartialEq, Eq)]
pub enum Source {
    /// Code 0: MDR.
    Mdr,
    /// Code 1: PC.
    Pc,
    /// Code 2: MBR with its sign extended.
    Mbr,
    /// Code 3: MBR filled with zeros.
    Mbru,
    /// Code 4: SP.
    Sp,
    /// Code 5: LV.
    Lv,
    /// Code 6: CPP.
    Cpp,
    /// Code 7: TOS.
    Tos,
    /// Code 8: OPC.
    Opc,
}

impl Source {
    /// The source that a code B names, and none from 9 on (docs/control-words.md).
    pub fn of(b: u8) -> Option<Source>
        ensures { result ≡ source_of b }
    {
        match b {
            0 => Some(Source::Mdr),
            1 => Some(Source::Pc),
            2 => Some(Source::Mbr),
            3 => Some(Source::Mbru),
            4 => Some(Source::Sp),
            5 => Some(Source::Lv),
            6 => Some(Source::Cpp),
            7 => Some(Source::Tos),
            8 => Some(Source::Opc),
            _ => None,
        }
    }

    // The word that a source puts on the bus. MBR stands beside the registers: it has 8 bits, and is not written from the C bus.
    fn word(self, registers: &Registers, mbr: u8) -> u32
        ensures { result ≡ driven_by self registers.now mbr }
    {
        match self {
            Source::Mdr => registers.mdr,
            Source::Pc => registers.pc,
            Source::Mbr => i32::from(mbr.cast_signed()).cast_unsigned(),
            Source::Mbru => u32::from(mbr),
            Source::Sp => registers.sp,
            Source::Lv => registers.lv,
            Source::Cpp => registers.cpp,
            Source::Tos => registers.tos,
            Source::Opc => registers.opc,
        }
    }
}

/// The word on the B bus, and 0 where nothing drives it. As MBR the byte comes with its sign extended, as MBRU filled with zeros (docs/control-words.md).
pub fn bus(source: Option<Source>, registers: &Registers, mbr: u8) -> u32
    ensures { result ≡ bus_of source registers.now mbr }
{
    source.map_or(0, |source| source.word(registers, mbr))
}
