// The interface of a finite field.
ghost use Rattle.std.specs.Prelude.{◌≡◌};
ghost use Rattle.fields.specs.Arithmetic.{Arithmetic};

// A field of q elements, whose codes are 0 to q − 1. Its functions answer every number: one that is no code is answered
// by 0. The field's meaning is q with these answers; that the answers are those of a field is a property of the meaning,
// `Lawful`, which each making of a field promises.
pub trait Field {
    ghost meaning: { Self → Arithmetic };

    // The number of elements, q.
    fn size(&self) -> u32
        ensures { result ≡ (meaning self.now).size };

    fn sum(&self, a: u32, b: u32) -> u32
        ensures { result ≡ (meaning self.now).plus a b };

    fn product(&self, a: u32, b: u32) -> u32
        ensures { result ≡ (meaning self.now).times a b };

    fn negative(&self, a: u32) -> u32
        ensures { result ≡ (meaning self.now).minus a };

    fn inverse(&self, a: u32) -> u32
        ensures { result ≡ (meaning self.now).inverse a };
}

// A field that is lent is a field, so that two of its users can share it.
impl<F: Field> Field for &F {
    ghost meaning = { λ f. F.Field.meaning f.now };

    fn size(&self) -> u32 {
        F::size(self)
    }

    fn sum(&self, a: u32, b: u32) -> u32 {
        F::sum(self, a, b)
    }

    fn product(&self, a: u32, b: u32) -> u32 {
        F::product(self, a, b)
    }

    fn negative(&self, a: u32) -> u32 {
        F::negative(self, a)
    }

    fn inverse(&self, a: u32) -> u32 {
        F::inverse(self, a)
    }
}
