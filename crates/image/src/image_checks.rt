// What load asks of an image, and the image as a program.
ghost use Rattle.std.specs.Prelude.{◌≡◌, IfOk};
ghost use Rattle.instructions.specs.Checks.{first_refusal};
ghost use Rattle.image.specs.Format.{numbers_of, protected_word_of};
ghost use Rattle.image.specs.Images.{bytes_in, program_numbers_in};
ghost use Rattle.image.specs.Load.{outcome_of, image_checks};

use crate::blocks::{blocks, failed_block, length_fits};
use crate::bytes::{protected_word, word};
use crate::layout::layout;
use crate::unused::all_clean;
use crate::{Image, LoadRefusal};
use ijvm::{Layout, Program};
use instructions::check;

impl<'a> Image<'a> {
    /// The image in these bytes. Refused with 20 to 24, by the first check that fails (docs/image.md).
    #[tactic(auto, using(crate::proofs::Appended::refused, crate::proofs::Appended::passed), unfolding(crate::specs::Load::image_checks))]
    pub fn of(bytes: &'a [u8]) -> Result<Image<'a>, LoadRefusal>
        ensures answer { outcome_of result ≡ first_refusal (image_checks bytes.now) }
        ensures image { IfOk result (λ image. (bytes_in image ≡ bytes.now) × (program_numbers_in image ≡ numbers_of bytes.now)) }
    {
        check(length_fits(bytes), LoadRefusal::WrongLength)?;
        if let Some(block) = failed_block(bytes) {
            return Err(LoadRefusal::FailedCheck { block });
        }
        check(
            word(bytes, 0) as usize == blocks(bytes),
            LoadRefusal::WrongCount,
        )?;
        let layout = layout(bytes)?;
        check(all_clean(layout.numbers.mark, bytes), LoadRefusal::NotZero)?;
        Ok(Image { bytes, layout })
    }
}

impl Program for Image<'_> {
    ghost numbers = { program_numbers_in };

    ghost words = { λ image. protected_word_of (bytes_in image) };

    /// The numbers of the image's program.
    fn layout(&self) -> Layout {
        self.layout
    }

    /// The protected word at a word address, from the blocks behind block 0.
    fn word(&self, address: u32) -> u32 {
        protected_word(self.bytes, address as usize)
    }
}
