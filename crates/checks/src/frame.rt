// What the checks speak of: code, the frame, the operand stack, a branch's target and the method that a call names.
ghost use Rattle.std.specs.Prelude.{◌≡◌, ◌+◌, ◌*◌, ◌^◌, ◌<◌};
ghost use Rattle.instructions.specs.Ijvm.{base_of, deep_enough, in_code, is_variable, method_of, new_link_of, params_of, second_of, short_at, target_of, top_of};
ghost use Rattle.instructions.specs.Table.{new_sp, next_pc, variable_of};
ghost use Rattle.checks.specs.View.{ijvm_in, top_there};

use crate::View;
use instructions::{Shape, Stack, Variable, Way};
use memory::Memory;

// Addresses have 64 bits, so that no sum of theirs wraps.
impl<M: Memory> View<'_, M> {
    // PC, a byte address.
    pub(crate) fn pc(&self) -> u64
        ensures value { result ≡ (ijvm_in M.Memory.meaning self.now).pc }
        ensures small { result < 2 ^ 32 }
    {
        u64::from(self.datapath.file.registers().pc)
    }

    // SP, a word address.
    pub(crate) fn sp(&self) -> u64
        ensures value { result ≡ (ijvm_in M.Memory.meaning self.now).sp }
        ensures small { result < 2 ^ 32 }
    {
        u64::from(self.datapath.file.registers().sp)
    }

    // LV, a word address.
    pub(crate) fn lv(&self) -> u64
        ensures value { result ≡ (ijvm_in M.Memory.meaning self.now).lv }
        ensures small { result < 2 ^ 32 }
    {
        u64::from(self.datapath.file.registers().lv)
    }

    // The byte address at which code ends.
    pub(crate) fn code_end(&self) -> u64
        ensures { result ≡ 4 * (ijvm_in M.Memory.meaning self.now).mark }
    {
        4 * u64::from(self.datapath.memory.mark())
    }

    // Whether a byte address lies in code.
    pub(crate) fn in_code(&self, address: u64) -> bool
        ensures { result ≡ in_code (ijvm_in M.Memory.meaning self.now) address }
    {
        address < self.code_end()
    }

    // Link: the word at LV.
    pub(crate) fn link(&self) -> u64
        ensures value { result + 1 ≡ base_of (ijvm_in M.Memory.meaning self.now) }
        ensures small { result < 2 ^ 32 }
    {
        u64::from(self.word(self.lv()))
    }

    // Whether the operand stack has at least so many words.
    pub(crate) fn deep_enough(&self, depth: u64) -> bool
        requires { depth < 2 ^ 32 }
        ensures { result ≡ deep_enough (ijvm_in M.Memory.meaning self.now) depth }
    {
        self.link() + 1 + depth <= self.sp()
    }

    // The word at SP, which is the top where the depth is at least 1.
    pub(crate) fn top_word(&self) -> u32
        ensures { result ≡ top_of (ijvm_in M.Memory.meaning self.now) }
    {
        self.word(self.sp())
    }

    // Second: the word at SP − 1, and at SP 0 the word at 0.
    pub(crate) fn second(&self) -> u32
        ensures { result ≡ second_of (ijvm_in M.Memory.meaning self.now) }
    {
        self.word(self.sp().saturating_sub(1))
    }

    /// The top of the operand stack: the word at SP where the depth is at least 1; none at depth 0 (docs/instruction-machine.md).
    pub fn top(&self) -> Option<u32>
        ensures { result ≡ top_there (ijvm_in M.Memory.meaning self.now) }
    {
        self.deep_enough(1).then_some(self.top_word())
    }

    // The number of the variable that an instruction names.
    pub(crate) fn variable(&self, variable: Variable) -> u64
        ensures value { result ≡ variable_of (ijvm_in M.Memory.meaning self.now) variable }
        ensures small { result < 2 ^ 16 }
    {
        match variable {
            Variable::ByByte => u64::from(self.byte(self.pc() + 1)),
            Variable::ByShort => u64::from(self.short(self.pc() + 2)),
        }
    }

    // Whether the frame has a variable of this number.
    pub(crate) fn is_variable(&self, number: u64) -> bool
        requires { number < 2 ^ 16 }
        ensures { result ≡ is_variable (ijvm_in M.Memory.meaning self.now) number }
    {
        number >= 1 && self.lv() + number < self.link()
    }

    // The index or disp in the two bytes behind the opcode.
    pub(crate) fn index(&self) -> u64
        ensures value { result ≡ short_at (ijvm_in M.Memory.meaning self.now) ((ijvm_in M.Memory.meaning self.now).pc + 1) }
        ensures small { result < 2 ^ 16 }
    {
        u64::from(self.short(self.pc() + 1))
    }

    // The byte address of the method that a call names.
    pub(crate) fn method(&self) -> u64
        ensures value { result ≡ method_of (ijvm_in M.Memory.meaning self.now) }
        ensures small { result < 2 ^ 32 }
    {
        let cpp = u64::from(self.datapath.file.registers().cpp);
        u64::from(self.word(cpp + self.index()))
    }

    // The params of the method that a call names, OBJREF counted.
    pub(crate) fn params(&self) -> u64
        ensures value { result ≡ params_of (ijvm_in M.Memory.meaning self.now) }
        ensures small { result < 2 ^ 16 }
    {
        u64::from(self.short(self.method()))
    }

    // The link of the called method's frame.
    pub(crate) fn new_link(&self) -> u64
        ensures value { result ≡ new_link_of (ijvm_in M.Memory.meaning self.now) }
        ensures small { result < 2 ^ 33 }
    {
        self.sp() + u64::from(self.short(self.method() + 2)) + 1
    }

    // A branch's target; none where it lies below 0.
    pub(crate) fn target(&self) -> Option<u64>
        ensures { result ≡ target_of (ijvm_in M.Memory.meaning self.now) }
    {
        let there = self.pc() + self.index();
        if self.byte(self.pc() + 1) >= 0x80 {
            there.checked_sub(0x1_0000)
        } else {
            Some(there)
        }
    }

    // The new SP; 0 where more words would be popped than SP has below it.
    pub(crate) fn new_sp(&self, stack: Stack) -> u64
        ensures { result ≡ new_sp (ijvm_in M.Memory.meaning self.now) stack }
    {
        match stack {
            Stack::Same => self.sp(),
            Stack::Push => self.sp() + 1,
            Stack::Pop => self.sp().saturating_sub(1),
            Stack::PopTwo => self.sp().saturating_sub(2),
            Stack::Enter => self.new_link() + 1,
            Stack::Leave => self.lv(),
        }
    }

    // The next PC, if there is one.
    #[inline(always)]
    pub(crate) fn next_pc(&self, shape: Shape) -> Option<u64>
        ensures { result ≡ next_pc (ijvm_in M.Memory.meaning self.now) shape.bytes shape.way }
    {
        match shape.way {
            Way::On => Some(self.pc() + u64::from(shape.bytes)),
            Way::Branch => self.target(),
            Way::Return => Some(u64::from(self.word(self.link()))),
            Way::Call => Some(self.method() + 4),
        }
    }
}
