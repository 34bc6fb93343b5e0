// The completion of what is under way.
ghost use Rattle.std.specs.Prelude.{◌≡◌, OnErr};
ghost use Rattle.datapath.specs.Cycle.{as_fault, byte_in, fetched_of, accessed_of, completed_of};
ghost use Rattle.datapath.specs.Held.{registers_in, access_under_way, fetch_under_way};

use crate::{Fault, Port, RegisterFile, Sequencer};
use control::Registers;
use memory::{AccessRefusal, Memory};

// The memory's answer. Its refusal becomes a fault, with the word address, the port, and the MPC that began the access.
fn as_fault<T>(
    answer: Result<T, AccessRefusal>,
    address: u32,
    port: Port,
    mpc: u16,
) -> Result<T, Fault>
    ensures { result ≡ as_fault answer address port mpc }
{
    answer.map_err(|cause| Fault {
        cause,
        address,
        port,
        mpc,
    })
}

// The byte at a byte address, of the word in which it lies.
fn byte_of(word: u32, address: u32) -> u8
    ensures { result ≡ byte_in word address }
{
    word.to_be_bytes()[(address % 4) as usize]
}

// The byte that arrives, if a fetch is under way.
pub(crate) fn fetched<M: Memory>(
    memory: &M,
    file: &RegisterFile,
    at: &Sequencer,
) -> Result<Option<u8>, Fault>
    ensures { result ≡ fetched_of (M.Memory.meaning memory.now) (fetch_under_way (registers_in file.now.words) at.now) }
{
    if !at.fetch {
        return Ok(None);
    }
    let pc = file.registers().pc;
    let word = as_fault(memory.read(pc / 4), pc / 4, Port::Fetch, at.begun_at)?;
    Ok(Some(byte_of(word, pc)))
}

// The word that arrives, if a read is under way. A write under way is done. Refused, the memory stays as it is.
pub(crate) fn accessed<M: Memory>(
    memory: &mut M,
    file: &RegisterFile,
    at: &Sequencer,
) -> Result<Option<u32>, Fault>
    ensures answer { result ≡ accessed_of (M.Memory.meaning memory.old) (access_under_way (registers_in file.now.words) at.now) }
    ensures after { M.Memory.meaning memory.new ≡ completed_of (M.Memory.meaning memory.old) (access_under_way (registers_in file.now.words) at.now) }
    ensures kept { OnErr result (memory.new ≡ memory.old) }
    ensures loan { M.Memory.loan memory.new ≡ M.Memory.loan memory.old }
{
    let Registers { mar, mdr, .. } = file.registers();
    if at.write {
        as_fault(memory.write(mar, mdr), mar, Port::Write, at.begun_at)?;
        Ok(None)
    } else if at.read {
        let word = as_fault((*memory).read(mar), mar, Port::Read, at.begun_at)?;
        Ok(Some(word))
    } else {
        Ok(None)
    }
}
