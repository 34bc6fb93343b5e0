// What a cycle changed, as text.
use datapath::{DataAccess, State};
use std::fmt;

/// The state before a cycle and the state after it. Displayed is, behind a bar, what changed: the registers and MBR with their new values as signed numbers, the word that was written, and in parentheses what is under way after the cycle. Where there is nothing to tell, nothing is displayed (docs/trace.md).
#[derive(Clone, Copy)]
pub struct Changes {
    /// The state before the cycle.
    pub before: State,
    /// The state after the cycle.
    pub after: State,
}

impl Changes {
    // Whether there is something to tell.
    fn is_told(&self) -> bool {
        let Changes { before, after } = self;
        before.registers != after.registers
            || before.mbr != after.mbr
            || matches!(before.access, Some(DataAccess::Write { .. }))
            || after.access.is_some()
            || after.fetch.is_some()
    }

    // The registers that changed, with their new values as signed numbers.
    fn registers<W: fmt::Write>(&self, f: &mut fmt::Formatter<W>) -> fmt::Result {
        let old = self.before.registers;
        let new = self.after.registers;
        for (name, before, after) in [
            ("PC", old.pc, new.pc),
            ("SP", old.sp, new.sp),
            ("LV", old.lv, new.lv),
            ("CPP", old.cpp, new.cpp),
            ("TOS", old.tos, new.tos),
            ("OPC", old.opc, new.opc),
            ("H", old.h, new.h),
            ("MAR", old.mar, new.mar),
            ("MDR", old.mdr, new.mdr),
        ] {
            if before != after {
                write!(f, " {name}={}", after.cast_signed())?;
            }
        }
        Ok(())
    }

    // What is under way after the cycle.
    fn under_way<W: fmt::Write>(&self, f: &mut fmt::Formatter<W>) -> fmt::Result {
        match self.after.access {
            Some(DataAccess::Read { address, .. }) => write!(f, " (rd {address})")?,
            Some(DataAccess::Write { address, .. }) => write!(f, " (wr {address})")?,
            None => {}
        }
        if let Some(fetch) = self.after.fetch {
            write!(f, " (fetch {})", fetch.address)?;
        }
        Ok(())
    }
}

impl fmt::Display for Changes {
    fn fmt<W: fmt::Write>(&self, f: &mut fmt::Formatter<W>) -> fmt::Result {
        if self.is_told() {
            f.write_str(" |")?;
        }
        self.registers(f)?;
        if self.before.mbr != self.after.mbr {
            write!(f, " MBR={}", self.after.mbr)?;
        }
        if let Some(DataAccess::Write { address, word, .. }) = self.before.access {
            write!(f, " word{address}={}", word.cast_signed())?;
        }
        self.under_way(f)
    }
}
