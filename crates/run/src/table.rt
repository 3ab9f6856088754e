// Where the residues of a sheet have their table of inverses.
ghost use Rattle.std.specs.Prelude.{◌≡◌, Ok, Err, MatchResult};
ghost use Rattle.fields.specs.Lawful.{Lawful};
ghost use Rattle.fields.specs.Residues.{residues, fill_answer};

use fields::{Field, FieldRefusal, Residues};

// What makes the residues modulo any m that is taken. Making them uses it up, and a refusal hands it back. A trait, so that a stage
// need not hold a reference: an enum with a lent table in one variant and fields that borrow from it in others gets no proof.
pub(crate) trait Ground<R: Field>: Sized {
    fn residues(self, m: u16) -> Result<R, (Self, FieldRefusal)>
        ensures { MatchResult result (λ f. (fill_answer m m ≡ Ok tt) × (R.Field.meaning f ≡ residues m) × Lawful (R.Field.meaning f)) (λ e. fill_answer m m ≡ Err e.1) };
}

// A table that is large enough for every modulus, in fixed memory that the caller of a run lends. Drop alone: nothing prints or
// compares that memory.
#[derive(Drop)]
pub(crate) struct Table<'t> {
    pub(crate) entries: &'t mut [u16; 8191],
}

impl<'t> Ground<Residues<'t>> for Table<'t> {
    fn residues(self, m: u16) -> Result<Residues<'t>, (Table<'t>, FieldRefusal)> {
        let Table { entries } = self;
        let n = usize::from(m).min(8191);
        // Not `Residues::filled`, whose field borrows the entries even where it is refused, so that they could not be handed back.
        match Residues::fill(m, &mut entries[0..n]) {
            Ok(()) => Ok(Residues::on(m, &entries[0..n])),
            Err(why) => Err((Table { entries }, why)),
        }
    }
}
