// Rows of numbers with spaces between.
ghost use Rattle.std.specs.Prelude.{◌≤◌, length, IfSome};

use std::str::FromStr;

// The N numbers of a text. None where a word is no number of the row's type, or where there are fewer numbers or more.
pub fn row<T: FromStr + Copy + Default, const N: usize>(text: &str) -> Option<[T; N]>
where
    T::Err: Drop,
    ensures { IfSome result (λ _. N ≤ length text.now) }
{
    let mut words = text.split_whitespace();
    let mut row = [T::default(); N];
    for place in &mut row {
        *place = words.next()?.parse().ok()?;
    }
    words.next().is_none().then_some(row)
}
