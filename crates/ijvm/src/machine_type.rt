// The machine.
ghost use Rattle.std.specs.Prelude.{◌≡◌};
ghost use Rattle.control.specs.Numbers.{numbers_in};
ghost use Rattle.datapath.specs.Datapaths.{micro_of};
ghost use Rattle.microprogram.specs.Published.{published};
ghost use Rattle.ijvm.specs.Reached.{HasOrigin};

use control::ControlStore;
use datapath::Datapath;
use memory::Memory;

/// A Mic-1 with the published microprogram, over a memory that it holds by value, and the program that is loaded, if one is (docs/machine.md).
#[derive(Drop)]
pub struct Machine<M: Memory> {
    pub(crate) datapath: Datapath<M>,
    pub(crate) store: ControlStore,
    // the pool count of the program that is loaded; none where no program is loaded
    pub(crate) pool: Option<u32>,
    // the store is the published one
    pub ghost published: { numbers_in store ≡ published },
    // where a program is loaded, the machine has reached its state since the load of it
    pub ghost origin: { HasOrigin (record { micro = micro_of M.Memory.meaning datapath; pool = pool }) },
}
