// Which numbers are codes of a field.
ghost use Rattle.std.specs.Prelude.{◌≡◌, nat_lt};
ghost use Rattle.std.specs.List.{list_all};

use fields::Field;

// Whether all numbers are codes: below q.
pub fn are_codes<F: Field>(field: &F, numbers: &[u32]) -> bool
    ensures { result ≡ list_all (λ x. nat_lt x (F.Field.meaning field.now).size) numbers.now }
{
    let q = field.size();
    numbers.iter().all(|&x| x < q)
}
