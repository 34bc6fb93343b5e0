// The control store.
ghost use Rattle.std.specs.Prelude.{◌≡◌, ◌%◌, ◌^◌, ◌<◌, length, map, replicate, IfSome, IsOk, Ok, OnErr, slice_index};
ghost use Rattle.control.specs.Control.{fields_of, decode_of};
ghost use Rattle.control.specs.PreparedWords.{word_of};
ghost use Rattle.control.specs.Store.{AllAccepted, first_refused, fill_of, filled_of, number_at};

use crate::codec::fields;
use crate::{ControlWord, FillRefusal, PreparedWord, decode};

/// The control store: 512 control words by their numbers, none of which decode refuses, at the addresses 0 to 511. Each word stands prepared beside its number (docs/control-words.md).
#[derive(Drop)]
pub struct ControlStore {
    words: [PreparedWord; 512],
    numbers: [u64; 512],
    ghost accepted: { AllAccepted numbers },
    // the word at each address is that of the number there
    ghost prepared: { map word_of words ≡ map fields_of numbers },
}

impl ControlStore {
    ghost use Rattle.control.specs.Numbers.{numbers_in};

    /// A store of 512 zeros (docs/control-words.md).
    pub fn new() -> ControlStore
        ensures numbers { numbers_in result ≡ replicate 512 0 }
        ensures accepted { AllAccepted (numbers_in result) }
    {
        ControlStore {
            words: zero_words(),
            numbers: zeros(),
        }
    }

    /// Puts 512 numbers into the store. Refused with 10 where the count is another, then as decode refuses the number at the first address whose number it refuses; then the store stays as it is (docs/control-words.md).
    pub fn fill(&mut self, numbers: &[u64]) -> Result<(), FillRefusal>
        ensures answer { result ≡ fill_of numbers.now }
        ensures after { numbers_in self.new ≡ filled_of (numbers_in self.old) numbers.now }
        ensures accepted { AllAccepted (numbers_in self.new) }
        ensures kept { OnErr result (self.new ≡ self.old) }
    {
        let numbers = <&[u64; 512]>::try_from(numbers).map_err(|_| FillRefusal::WrongCount)?;
        check_numbers(numbers)?;
        self.hold(numbers);
        Ok(())
    }

    // Holds numbers that decode accepts. Apart from `fill`, since the words that are prepared are large, and a refused fill needs no room for them.
    #[inline(never)]
    fn hold(&mut self, numbers: &[u64; 512])
        requires { AllAccepted numbers.now }
        ensures { numbers_in self.new ≡ numbers.now }
    {
        self.words = prepared(numbers);
        self.numbers = *numbers;
    }

    /// The number at an address, which decode accepts, and none above 511 (docs/control-words.md).
    pub fn number(&self, address: u16) -> Option<u64>
        ensures value { result ≡ number_at (numbers_in self.now) address }
        ensures accepted { IfSome result (λ number. IsOk (decode_of number)) }
    {
        self.numbers.get(usize::from(address)).copied()
    }

    /// The control word at an address: the fields of the number there, and those of the number 0 above 511 (docs/control-words.md).
    #[tactic(auto, using(crate::proofs::Accepted::held))]
    pub fn word(&self, address: u16) -> ControlWord
        ensures value { result ≡ fields_of (slice_index (numbers_in self.now) address) }
        ensures accepted { decode_of (slice_index (numbers_in self.now) address) ≡ Ok result }
        ensures within { result.next < 2 ^ 9 }
    {
        fields(self.number(address).unwrap_or(0))
    }

    /// The control word at an address, prepared. Of the address nine bits count, as MPC has nine (docs/control-words.md).
    #[tactic(auto, using(crate::proofs::Preparation::prepared_at))]
    pub fn prepared(&self, address: u16) -> &PreparedWord
        ensures { word_of result.now ≡ fields_of (slice_index (numbers_in self.now) (address % 512)) }
    {
        &self.words[usize::from(address % 512)]
    }
}

// The words of a new store.
fn zero_words() -> [PreparedWord; 512]
    ensures { map word_of result ≡ map fields_of (replicate 512 0) }
{
    [PreparedWord::of(fields(0)); 512]
}

// The word of the number at an address, prepared.
fn word_prepared(numbers: &[u64; 512], address: usize) -> PreparedWord
    requires address { address < 512 }
    requires accepted { AllAccepted numbers.now }
    ensures { word_of result ≡ fields_of (slice_index numbers.now address) }
{
    PreparedWord::of(fields(numbers[address]))
}

// The words of numbers that decode accepts.
#[tactic(auto, using(crate::proofs::Preparation::one_more, crate::proofs::Preparation::all_prepared))]
fn prepared(numbers: &[u64; 512]) -> [PreparedWord; 512]
    requires { AllAccepted numbers.now }
    ensures { map word_of result ≡ map fields_of numbers.now }
{
    let mut words = zero_words();
    for i in 0..512 {
        words[i] = word_prepared(numbers, i);
    }
    words
}

// The numbers of a new store.
fn zeros() -> [u64; 512]
    ensures value { result ≡ replicate 512 0 }
    ensures accepted { AllAccepted result }
{
    [0; 512]
}

// Refuses the first number that decode refuses.
fn check_numbers(numbers: &[u64; 512]) -> Result<(), FillRefusal>
    ensures answer { result ≡ first_refused 0 numbers.now }
    ensures accepted { result ≡ Ok tt → AllAccepted numbers.now }
{
    for (i, &number) in numbers.iter().enumerate() {
        // there are 512 numbers, so the cast loses nothing
        let address = i as u16;
        decode(number).map_err(|cause| FillRefusal::WrongWord { address, cause })?;
    }
    Ok(())
}
