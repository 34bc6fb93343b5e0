// Memory accesses under way, and the faults of those that the memory refuses.
ghost use Rattle.std.specs.Prelude.{Some};
ghost use Rattle.datapath.specs.Refusals.{port_text, fault_text};

use memory::AccessRefusal;
use std::error::Error;
use std::fmt;

/// A read or a write under way: its word address, and the MPC that began it (docs/cycle.md).
#[derive(Clone, Copy, Debug, PartialEq, Eq)]
pub enum DataAccess {
    /// The word at this word address is read, and arrives in MDR. The control word at this MPC began it.
    Read { address: u32, mpc: u16 },
    /// This word is written at this word address. The control word at this MPC began it.
    Write { address: u32, mpc: u16, word: u32 },
}

/// A fetch under way: its byte address, and the MPC that began it. The byte arrives in MBR (docs/cycle.md).
#[derive(Clone, Copy, Debug, PartialEq, Eq)]
pub struct FetchAccess {
    /// The byte address.
    pub address: u32,
    /// The MPC that began the fetch.
    pub mpc: u16,
}

/// The way that an access takes to the memory (docs/cycle.md).
#[derive(Clone, Copy, Debug, PartialEq, Eq)]
pub enum Port {
    /// A fetch, which reads the word in which its byte lies.
    Fetch,
    /// A read of a word.
    Read,
    /// A write of a word.
    Write,
}

/// An access under way that the memory refused (docs/cycle.md).
#[derive(Clone, Copy, Debug, PartialEq, Eq)]
pub struct Fault {
    /// Why the memory refused it: 4 or 5.
    pub cause: AccessRefusal,
    /// The word address, of a fetch too.
    pub address: u32,
    /// Whether it was the fetch, the read or the write.
    pub port: Port,
    /// The MPC that began the access, one cycle before.
    pub mpc: u16,
}

// The name of the port.
impl fmt::Display for Port {
    ghost output = { λ port. Some (port_text port) };

    fn fmt<W: fmt::Write>(&self, f: &mut fmt::Formatter<W>) -> fmt::Result {
        f.write_str(match self {
            Port::Fetch => "fetch",
            Port::Read => "read",
            Port::Write => "write",
        })
    }
}

// The text of the memory's refusal, the port, the word address, and the MPC.
impl fmt::Display for Fault {
    ghost output = { λ fault. Some (fault_text fault) };

    fn fmt<W: fmt::Write>(&self, f: &mut fmt::Formatter<W>) -> fmt::Result {
        let Fault {
            cause,
            address,
            port,
            mpc,
        } = self;
        write!(f, "{cause}: {port} of word {address}, begun at MPC {mpc}")
    }
}

impl Error for Fault {}
