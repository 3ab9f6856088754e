// The field that a sheet chooses: one of the two base fields, or pairs over it.
ghost use Rattle.run.specs.Choices.{one_of};

use fields::{Field, Nine, Pairs};

// A value of one of two types. It is declared here, since Field can only be implemented in the crate of Field, which does not
// know of sheets, or of the type; and Left and Right, as the kit's either::Either has them, would say no more than First and Second.
#[derive(Debug, Drop, PartialEq, Eq, Hash)]
pub enum OneOf<F, G> {
    First(F),
    Second(G),
}

// A field of one of two types has that field's meaning.
impl<F: Field, G: Field> Field for OneOf<F, G> {
    ghost meaning = { one_of F.Field.meaning G.Field.meaning };

    fn size(&self) -> u32 {
        match self {
            OneOf::First(f) => f.size(),
            OneOf::Second(g) => g.size(),
        }
    }

    fn sum(&self, a: u32, b: u32) -> u32 {
        match self {
            OneOf::First(f) => f.sum(a, b),
            OneOf::Second(g) => g.sum(a, b),
        }
    }

    fn product(&self, a: u32, b: u32) -> u32 {
        match self {
            OneOf::First(f) => f.product(a, b),
            OneOf::Second(g) => g.product(a, b),
        }
    }

    fn negative(&self, a: u32) -> u32 {
        match self {
            OneOf::First(f) => f.negative(a),
            OneOf::Second(g) => g.negative(a),
        }
    }

    fn inverse(&self, a: u32) -> u32 {
        match self {
            OneOf::First(f) => f.inverse(a),
            OneOf::Second(g) => g.inverse(a),
        }
    }
}

// The field of a record of kind 1 or 2: the residues on a ground, or the nine elements.
pub type Base<R> = OneOf<R, Nine>;

// The field of a sheet: a base field, or pairs over one.
pub type Chosen<R> = OneOf<Base<R>, Pairs<Base<R>>>;
