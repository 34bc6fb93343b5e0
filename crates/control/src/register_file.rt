/// The nine registers of 32 bits that can be written from the C bus (docs/cycle.md).
#[derive(Clone, Copy, Debug, Default, PartialEq, Eq)]
pub struct Registers {
    /// H, which is A of the ALU.
    pub h: u32,
    /// OPC.
    pub opc: u32,
    /// TOS.
    pub tos: u32,
    /// CPP, for the word address of the constant pool.
    pub cpp: u32,
    /// LV, for the word address of the frame.
    pub lv: u32,
    /// SP, for the word address of the top of the operand stack.
    pub sp: u32,
    /// PC, the byte address of a fetch.
    pub pc: u32,
    /// MDR, the word that a read brings or a write takes.
    pub mdr: u32,
    /// MAR, the word address of a read or a write.
    pub mar: u32,
}
