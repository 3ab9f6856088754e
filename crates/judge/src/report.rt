// What a field is like.
ghost use Rattle.std.specs.Prelude.{◌≡◌, ◌+◌};
ghost use Rattle.fields.specs.Lawful.{Lawful};
ghost use Rattle.judge.specs.Report.{Reported};

use fields::Field;
use std::fmt;

// The number of elements, how many of them are units, the codes of −1 and of 1/2, and the product of the two codes in the
// middle, (q − 1)/2 and (q + 1)/2.
#[derive(Clone, Copy, Debug, PartialEq, Eq, Hash)]
pub struct Report {
    pub elements: u32,
    pub units: u32,
    pub minus_one: u32,
    pub half: u32,
    pub product: u32,
}

impl fmt::Display for Report {
    fn fmt<W: fmt::Write>(&self, f: &mut fmt::Formatter<W>) -> fmt::Result {
        let Report {
            elements,
            units,
            minus_one,
            half,
            product,
        } = *self;
        let left = elements / 2;
        let right = elements - left;
        write!(
            f,
            "{elements} elements, {units} units, -1 = {minus_one}, 1/2 = {half}, {left}*{right} = {product}"
        )
    }
}

// Reports on a lawful field.
pub fn examine<F: Field>(field: &F) -> Report
    requires { Lawful (F.Field.meaning field.now) }
    ensures { Reported (F.Field.meaning field.now) result }
{
    let q = field.size();
    Report {
        elements: q,
        units: units(field),
        minus_one: field.negative(1),
        half: field.inverse(field.sum(1, 1)),
        product: field.product(q / 2, q - q / 2),
    }
}

// How many codes have a product of 1 with their inverse.
fn units<F: Field>(field: &F) -> u32
    requires { Lawful (F.Field.meaning field.now) }
    ensures { result + 1 ≡ (F.Field.meaning field.now).size }
{
    (1..field.size())
        .filter(|&a| field.product(a, field.inverse(a)) == 1)
        .count() as u32
}
