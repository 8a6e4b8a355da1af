// The two rearrangements.
ghost use Rattle.std.specs.Prelude.{◌≡◌, length};
ghost use Rattle.layout.specs.Answers.{answer_of};
ghost use Rattle.storage.specs.Storing.{size_number, rows_number, stored_into, loaded_into};

use crate::moving::{load, store};
use field::answer::Refusal;
use field::slice::canonical;

// 1, 2 and 3.
fn size(width: u32, height: u32) -> Result<(), Refusal>
    ensures { result ≡ answer_of (size_number width height) }
{
    if height > 16777216 {
        return Err(Refusal::LimitExceeded);
    }
    if width > 4096 {
        return Err(Refusal::TooManyColumns);
    }
    if u32::count_ones(height) != 1 {
        return Err(Refusal::HeightNotOneBit);
    }
    Ok(())
}

fn number(width: u32, height: u32, from: &[u32], places: usize) -> Result<(), Refusal>
    ensures { result ≡ answer_of (rows_number width height from.now places) }
{
    size(width, height)?;
    let n = width as usize * height as usize;
    if from.len() != n {
        return Err(Refusal::WrongLength);
    }
    if places != n {
        return Err(Refusal::WrongLength);
    }
    if !canonical(from) {
        return Err(Refusal::NotCanonical);
    }
    Ok(())
}

// From a stacked matrix, stack column after stack column, to rows of `width` words in bit-reversed order.
pub fn store_rows(width: u32, height: u32, stacked: &[u32], rows: &mut [u32]) -> Result<(), Refusal>
    ensures { (result ≡ answer_of (rows_number width height stacked.now (length rows.old))) × (rows.new ≡ stored_into width height stacked.now rows.old) }
{
    number(width, height, stacked, rows.len())?;
    let bits = u32::trailing_zeros(height);
    store(width as usize, bits, stacked, rows);
    Ok(())
}

// From rows of `width` words in bit-reversed order to a stacked matrix.
pub fn load_rows(width: u32, height: u32, rows: &[u32], stacked: &mut [u32]) -> Result<(), Refusal>
    ensures { (result ≡ answer_of (rows_number width height rows.now (length stacked.old))) × (stacked.new ≡ loaded_into width height rows.now stacked.old) }
{
    number(width, height, rows, stacked.len())?;
    let bits = u32::trailing_zeros(height);
    load(width as usize, bits, rows, stacked);
    Ok(())
}
