// The residues modulo m, on a table of inverses that the caller lends.
ghost use Rattle.std.specs.Prelude.{◌≡◌, ◌-◌, ◌*◌, ◌/◌, ◌%◌, ◌<◌, true, length, is_ok, IfOk, OnOk, Ok, Err, MatchResult};
ghost use Rattle.fields.specs.Lawful.{Lawful};
ghost use Rattle.fields.specs.Residues.{taken, inverses, without_inverse, residues, residues_by, filled_or, fill_answer, fill_leaves, Filled, InversesTold};

use crate::field::Field;
use crate::refusal::FieldRefusal;

// The residues modulo m, m odd from 3 to 8,191, where every code but 0 has an inverse.
#[derive(Clone, Copy, Debug, PartialEq, Eq, Hash)]
pub struct Residues<'t> {
    modulus: u16,
    inverses: &'t [u16],
}

impl<'t> Residues<'t> {
    // Puts the inverse of a into entry a of the table, and 0 into entry 0; or refuses, on 2 and 3 with nothing altered, and
    // on 6 with zeros left in the table.
    #[tactic(auto, using(crate::proofs::LawfulResidues::inverses_told))]
    pub fn fill(m: u16, table: &mut [u16]) -> Result<(), FieldRefusal>
        ensures answer { result ≡ fill_answer m (length table.old) }
        ensures left { table.new ≡ fill_leaves m table.old }
        ensures filled { is_ok result ≡ true → Filled m table.new }
        ensures told { InversesTold m result }
    {
        if m % 2 == 0 || !(3..=8191).contains(&m) {
            return Err(FieldRefusal::Modulus);
        }
        if table.len() != usize::from(m) {
            return Err(FieldRefusal::TableLength);
        }
        let filled = invert_codes(m, table);
        if filled.is_err() {
            table.fill(0);
        }
        filled
    }

    // The field on a table that is filled here for m: the residues modulo m; or why it was not filled.
    pub fn filled(m: u16, table: &'t mut [u16]) -> Result<Residues<'t>, FieldRefusal>
        ensures answer { MatchResult result (λ _. fill_answer m (length table.old) ≡ Ok tt) (λ e. fill_answer m (length table.old) ≡ Err e) }
        ensures meaning { IfOk result (λ f. residues_by f.modulus f.inverses.now ≡ residues m) }
        ensures lawful { IfOk result (λ f. Lawful (residues_by f.modulus f.inverses.now)) }
    {
        Residues::fill(m, table)?;
        Ok(Residues::on(m, table))
    }

    // The field on a table that was filled for m: the residues modulo m.
    pub fn on(m: u16, table: &'t [u16]) -> Residues<'t>
        ensures modulus { result.modulus ≡ m }
        ensures inverses { result.inverses.now ≡ table.now }
        ensures meaning { Filled m table.now → residues_by result.modulus result.inverses.now ≡ residues m }
        ensures lawful { Filled m table.now → Lawful (residues_by result.modulus result.inverses.now) }
    {
        Residues {
            modulus: m,
            inverses: table,
        }
    }
}

impl Field for Residues<'_> {
    ghost meaning = { λ f. residues_by f.modulus f.inverses.now };

    fn size(&self) -> u32 {
        u32::from(self.modulus)
    }

    fn sum(&self, a: u32, b: u32) -> u32 {
        let m = u32::from(self.modulus);
        if a < m && b < m { (a + b) % m } else { 0 }
    }

    fn product(&self, a: u32, b: u32) -> u32 {
        let m = u32::from(self.modulus);
        if a < m && b < m { (a * b) % m } else { 0 }
    }

    fn negative(&self, a: u32) -> u32 {
        let m = u32::from(self.modulus);
        if a < m { (m - a) % m } else { 0 }
    }

    fn inverse(&self, a: u32) -> u32 {
        match self.inverses.get(a as usize) {
            Some(&b) if a < u32::from(self.modulus) => u32::from(b),
            _ => 0,
        }
    }
}

// Entry a becomes the inverse of a for every code; or the smallest code from 1 on without an inverse is refused.
//
// With m = q·a + r, r below a, the inverse of a is −q times that of r; and where r is 0, a divides m and has none. Each entry
// is made from an earlier one, so the loop goes by codes, and not over the entries.
fn invert_codes(m: u16, table: &mut [u16]) -> Result<(), FieldRefusal>
    requires modulus { taken m ≡ true }
    requires entries { length table.old ≡ m }
    ensures answer { result ≡ filled_or (without_inverse m) }
    ensures left { OnOk result (table.new ≡ inverses m) }
{
    table[0] = 0;
    table[1] = 1;
    for a in 2..m {
        let rest = m % a;
        if rest == 0 {
            return Err(FieldRefusal::NoInverse(a));
        }
        let back = table[usize::from(rest)];
        table[usize::from(a)] = opposite(m, m / a, back);
    }
    Ok(())
}

// −a·b modulo m.
fn opposite(m: u16, a: u16, b: u16) -> u16
    requires { 0 < m }
    ensures { result ≡ (m - (a * b) % m) % m }
{
    let modulus = u32::from(m);
    let product = u32::from(a) * u32::from(b) % modulus;
    ((modulus - product) % modulus) as u16
}
