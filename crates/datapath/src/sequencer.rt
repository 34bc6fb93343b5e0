// The type of a sequencer.
ghost use Rattle.std.specs.Prelude.{◌≡◌, ◌^◌, ◌<◌, true, false};

/// Where the microprogram is: MPC, the counter, and of the control word that was performed last its address and its flags WRITE, READ and FETCH.
///
/// What that word began is under way where the registers say: a read or write at the word address in MAR, a write of the word in MDR, a fetch at the byte address in PC. So whoever changes the registers changes that too. A cycle does so only when it has completed what was under way, and a start leaves nothing under way (docs/cycle.md).
#[derive(Clone, Copy)]
pub struct Sequencer {
    /// The cycles that were done, modulo 2^64.
    pub counter: u64,
    /// The address of the control word to come, 0 to 511.
    pub mpc: u16,
    /// The MPC of the word that was performed last.
    pub begun_at: u16,
    /// Whether a write is under way.
    pub write: bool,
    /// Whether a read is under way, where no write is.
    pub read: bool,
    /// Whether a fetch is under way.
    pub fetch: bool,
    /// On only where none of the three is.
    pub idle: bool,
    pub ghost within: { mpc < 2 ^ 9 },
    pub ghost no_write: { idle ≡ true → write ≡ false },
    pub ghost no_read: { idle ≡ true → read ≡ false },
    pub ghost no_fetch: { idle ≡ true → fetch ≡ false },
}
