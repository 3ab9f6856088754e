// The field of nine elements, by its two tables.
ghost use Rattle.std.specs.Prelude.{◌≡◌};
ghost use Rattle.fields.specs.Lawful.{Lawful};
ghost use Rattle.fields.specs.Nine.{nine, entry_of};

use crate::field::Field;

// Code a + 3·b stands for a + b·i, with a and b modulo 3 and i² = 2.
#[derive(Clone, Copy, Debug, Default, PartialEq, Eq, Hash)]
pub struct Nine;

const SUMS: [[u8; 9]; 9] = [
    [0, 1, 2, 3, 4, 5, 6, 7, 8],
    [1, 2, 0, 4, 5, 3, 7, 8, 6],
    [2, 0, 1, 5, 3, 4, 8, 6, 7],
    [3, 4, 5, 6, 7, 8, 0, 1, 2],
    [4, 5, 3, 7, 8, 6, 1, 2, 0],
    [5, 3, 4, 8, 6, 7, 2, 0, 1],
    [6, 7, 8, 0, 1, 2, 3, 4, 5],
    [7, 8, 6, 1, 2, 0, 4, 5, 3],
    [8, 6, 7, 2, 0, 1, 5, 3, 4],
];

const PRODUCTS: [[u8; 9]; 9] = [
    [0, 0, 0, 0, 0, 0, 0, 0, 0],
    [0, 1, 2, 3, 4, 5, 6, 7, 8],
    [0, 2, 1, 6, 8, 7, 3, 5, 4],
    [0, 3, 6, 2, 5, 8, 1, 4, 7],
    [0, 4, 8, 5, 6, 1, 7, 2, 3],
    [0, 5, 7, 8, 1, 3, 4, 6, 2],
    [0, 6, 3, 1, 7, 4, 2, 8, 5],
    [0, 7, 5, 4, 2, 6, 8, 3, 1],
    [0, 8, 4, 7, 3, 2, 5, 1, 6],
];

impl Nine {
    // The field; making it never refuses.
    pub fn new() -> Nine
        ensures { Lawful nine }
    {
        Nine
    }
}

impl Field for Nine {
    ghost meaning = { λ _. nine };

    fn size(&self) -> u32 {
        9
    }

    fn sum(&self, a: u32, b: u32) -> u32 {
        entry(&SUMS, a, b)
    }

    fn product(&self, a: u32, b: u32) -> u32 {
        entry(&PRODUCTS, a, b)
    }

    // −1 has the code 2.
    fn negative(&self, a: u32) -> u32 {
        self.product(2, a)
    }

    // The units are a group of order 8, so that the inverse of a is a⁷; of 0 it is 0.
    fn inverse(&self, a: u32) -> u32 {
        let square = self.product(a, a);
        let cube = self.product(square, a);
        self.product(self.product(cube, cube), a)
    }
}

// What the table has for two codes, and 0 for other numbers.
fn entry(table: &[[u8; 9]; 9], a: u32, b: u32) -> u32
    ensures { result ≡ entry_of table.now a b }
{
    if a < 9 && b < 9 {
        u32::from(table[a as usize][b as usize])
    } else {
        0
    }
}
