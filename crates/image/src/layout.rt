// The numbers of block 0, and what is asked of them.
ghost use Rattle.std.specs.Prelude.{◌≡◌, IfOk};
ghost use Rattle.instructions.specs.Checks.{first_refusal};
ghost use Rattle.image.specs.Format.{blocks_for, blocks_of, numbers_of, main_params_of};
ghost use Rattle.image.specs.Load.{outcome_of, main_fits, mark_fits, number_checks, pool_fits, size_fits};

use crate::blocks::blocks;
use crate::bytes::{code_short, word};
use crate::{LoadRefusal, Place};
use ijvm::{Layout, Numbers};
use instructions::check;

// How many blocks carry so many protected words.
fn blocks_for(mark: u32) -> usize
    ensures { result ≡ blocks_for mark }
{
    1 + (mark as usize).div_ceil(127)
}

// The numbers that the image holds. Main's locals stand in the code, behind its params.
fn numbers(bytes: &[u8]) -> Numbers
    ensures { result ≡ numbers_of bytes.now }
{
    let main = word(bytes, 5);
    Numbers {
        size: word(bytes, 1),
        mark: word(bytes, 2),
        cpp: word(bytes, 3),
        pool: word(bytes, 4),
        main,
        locals: code_short(bytes, main as usize + 2),
    }
}

// Main's params.
fn params(bytes: &[u8]) -> u16
    ensures { result ≡ main_params_of bytes.now }
{
    code_short(bytes, word(bytes, 5) as usize)
}

// The size is within make's limits.
fn size_fits(numbers: Numbers) -> bool
    ensures { result ≡ size_fits numbers }
{
    (16..=1_048_576).contains(&numbers.size)
}

// The mark is not 0 and below the size, and there are as many blocks as it asks for.
fn mark_fits(blocks: usize, numbers: Numbers) -> bool
    ensures { result ≡ mark_fits blocks numbers }
{
    numbers.mark >= 1 && numbers.mark < numbers.size && blocks == blocks_for(numbers.mark)
}

// The pool lies below the mark. The sums are wide, so none wraps.
fn pool_fits(numbers: Numbers) -> bool
    ensures { result ≡ pool_fits numbers }
{
    u64::from(numbers.cpp) + u64::from(numbers.pool) <= u64::from(numbers.mark)
}

// Main's first instruction lies in code, its params are 1, and its SP lies below the size.
fn main_fits(params: u16, numbers: Numbers) -> bool
    ensures { result ≡ main_fits params numbers }
{
    let mark = u64::from(numbers.mark);
    u64::from(numbers.main) + 4 < 4 * mark
        && params == 1
        && mark + u64::from(numbers.locals) + 2 < u64::from(numbers.size)
}

// The numbers, which fit together; or the first place of a number that does not fit.
#[tactic(auto, unfolding(crate::specs::Load::number_checks))]
pub(crate) fn layout(bytes: &[u8]) -> Result<Layout, LoadRefusal>
    ensures answer { outcome_of result ≡ first_refusal (number_checks (blocks_of bytes.now) (main_params_of bytes.now) (numbers_of bytes.now)) }
    ensures numbers { IfOk result (λ layout. layout.numbers ≡ numbers_of bytes.now) }
{
    let numbers = numbers(bytes);
    check(size_fits(numbers), LoadRefusal::WrongNumber(Place::Size))?;
    check(
        mark_fits(blocks(bytes), numbers),
        LoadRefusal::WrongNumber(Place::Mark),
    )?;
    check(pool_fits(numbers), LoadRefusal::WrongNumber(Place::Pool))?;
    check(
        main_fits(params(bytes), numbers),
        LoadRefusal::WrongNumber(Place::Main),
    )?;
    Ok(Layout { numbers })
}
