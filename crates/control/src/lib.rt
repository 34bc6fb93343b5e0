// What drives the datapath of the Mic-1: control words, the control store, the B bus, the ALU and the shifter.
#![tactic(auto)]

mod alu_table;
mod arithmetic;
mod b_bus;
mod codec;
mod control;
mod mask;
mod prepared;
mod preparing;
mod refusal;
mod register_file;
mod store;

pub use alu_table::Function;
pub use arithmetic::{alu, shift};
pub use b_bus::{Source, bus};
pub use codec::{decode, encode};
pub use control::{CBits, ControlWord};
pub use prepared::PreparedWord;
pub use refusal::{ControlRefusal, FillRefusal};
pub use register_file::Registers;
pub use store::ControlStore;
