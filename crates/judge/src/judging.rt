// Makes the field that is asked for, and judges it.
ghost use Rattle.std.specs.Prelude.{◌≡◌, IfOk, Ok, Err, MatchResult};
ghost use Rattle.fields.specs.Lawful.{Lawful};
ghost use Rattle.fields.specs.Pairs.{pairs as pairs_over};
ghost use Rattle.judge.specs.Verdict.{base_asked, over, pairs_asked, tower_asked, Judges};

use crate::report::examine;
use crate::request::{Base, Request, Tower};
use crate::verdict::{NoField, Verdict};
use fields::{Field, Nine, Pairs, Residues};
use std::alloc::{AllocError, Global};

// The verdict on a request: a report on the field, which is lawful, or the refusal that the rules of its making have for it.
pub fn judge(heap: Global, request: Request) -> Result<Verdict, AllocError>
    ensures { IfOk result (λ v. Judges (over (base_asked request.base) (λ K. tower_asked K request.tower)) v) }
{
    match request.base {
        Base::Nine => Ok(judge_tower(Nine::new(), request.tower)),
        Base::Residues(m) => {
            let mut table = vec![in heap; 0; usize::from(m)]?;
            let field = Residues::filled(m, table.as_mut_slice()).map_err(NoField::NoBase);
            Ok(field.and_then(|field| judge_tower(field, request.tower)))
        }
    }
}

// The verdict on what is built on a lawful field.
fn judge_tower<F: Field + Drop>(base: F, tower: Tower) -> Verdict
    requires { Lawful (F.Field.meaning base) }
    ensures { Judges (tower_asked (F.Field.meaning base) tower) result }
{
    match tower {
        Tower::Plain => Ok(examine(&base)),
        Tower::Once(r) => Ok(examine(&pairs(base, r)?)),
        Tower::Twice(r, s) => Ok(examine(&pairs(pairs(base, r)?, s)?)),
    }
}

// The pairs with t² = r over a lawful field: a lawful field.
fn pairs<F: Field + Drop>(below: F, r: u32) -> Result<Pairs<F>, NoField>
    requires { Lawful (F.Field.meaning below) }
    ensures asked { MatchResult result (λ p. pairs_asked (F.Field.meaning below) r ≡ Ok (pairs_over (F.Field.meaning p.below) p.q p.r)) (λ e. pairs_asked (F.Field.meaning below) r ≡ Err e) }
    ensures lawful { IfOk result (λ p. Lawful (pairs_over (F.Field.meaning p.below) p.q p.r)) }
{
    Pairs::over(below, r).map_err(|(_, refusal)| NoField::NoPairs(r, refusal))
}
