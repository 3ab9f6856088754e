// How far a run has come, and what an arriving record does.
ghost use Rattle.std.specs.Prelude.{◌≡◌, ◌*◌, ◌≤◌, length};
ghost use Rattle.fields.specs.Lawful.{Lawful};
ghost use Rattle.methods.specs.Methods.{LawfulMethod};
ghost use Rattle.run.specs.Records.{modulus, square_root, coefficients, call as call_of, kind_of as kind_of_command, least_size, least_size_of_call};
ghost use Rattle.run.specs.Meanings.{said_by};
ghost use Rattle.run.specs.Progress.{start, based, Standing, reply_bytes, replied as replied_as};
ghost use Rattle.run.specs.declared.refusal.Refusal.TheVariants.{OutOfTurn};
ghost use Rattle.run.specs.declared.reply.Reply.TheVariants.{Refused};
ghost use Rattle.run.specs.Stages.{base_meaning, chosen_meaning, progress_with, progress_of, progress_at, Obeyed};

use crate::field::{Base, Chosen, OneOf};
use crate::record::{Record, curve, kind_of};
use crate::refusal::Refusal;
use crate::reply::Reply;
use crate::table::Ground;
use calculator::{Answer, Calculator, Call};
use fields::{Field, Nine, Pairs};
use methods::{Curve, Draft, Method, Model};

// What the accepted records have brought: nothing yet but the ground for residues; a base field; pairs over one; or a calculator.
// Drop alone: it holds memory of the ground, and nothing prints or compares a stage.
#[derive(Drop)]
pub(crate) enum Stage<T, R: Field, M> {
    Start(T),
    Based(Base<R>),
    Paired(Pairs<Base<R>>),
    Ready(Calculator<Chosen<R>, M>),
}

impl<T: Ground<R> + Drop, R: Field + Drop, M: Method<Chosen<R>> + Drop> Stage<T, R, M> {
    // The stage after a record, and what is written for it. Each arm gives both at once, and no Result between: a stage with a calculator
    // is large, and would be copied twice more for each record that is refused.
    #[tactic(auto, unfolding(crate::specs::Progress::step))]
    pub(crate) fn obey(self, arriving: Record) -> (Stage<T, R, M>, Reply)
        ensures obeyed { LawfulMethod M.Method.answers → Standing (progress_at R.Field self) → Obeyed (progress_at R.Field self) (said_by arriving.entry) (progress_at R.Field result.0) result.1 }
        ensures fits { length (reply_bytes result.1) ≤ 6 * least_size (said_by arriving.entry) }
    {
        // A wildcard for each stage: behind one for all four, the prover has no named fact on the record.
        match (self, arriving) {
            (Stage::Start(ground), Record::Residues(m)) => Stage::on_residues(ground, m),
            (Stage::Start(_), Record::Nine) => {
                (Stage::Based(OneOf::Second(Nine::new())), Reply::Silent)
            }
            (stage @ Stage::Start(_), _) => stage.out_of_turn(arriving),
            (Stage::Based(base), Record::Pairs(r)) => Stage::on_pairs(base, r),
            (Stage::Based(base), Record::Curve(f)) => Stage::on_curve(OneOf::First(base), curve(f)),
            (stage @ Stage::Based(_), _) => stage.out_of_turn(arriving),
            (Stage::Paired(pairs), Record::Curve(f)) => Stage::on_curve(
                OneOf::Second(pairs),
                curve(f),
            ),
            (stage @ Stage::Paired(_), _) => stage.out_of_turn(arriving),
            (Stage::Ready(calculator), Record::Call(call)) => Stage::on_call(
                calculator,
                call.into(),
            ),
            (stage @ Stage::Ready(_), _) => stage.out_of_turn(arriving),
        }
    }

    // A record that is out of turn.
    fn out_of_turn(self, arriving: Record) -> (Stage<T, R, M>, Reply)
        ensures stage { result.0 ≡ self }
        ensures reply { result.1 ≡ Refused (kind_of_command (said_by arriving.entry)) OutOfTurn }
    {
        (self, Reply::Refused(arriving.kind(), Refusal::OutOfTurn))
    }

    // The residues modulo m.
    fn on_residues(ground: T, m: u16) -> (Stage<T, R, M>, Reply)
        ensures obeyed { Obeyed start (modulus m) (progress_at R.Field result.0) result.1 }
        ensures fits { length (reply_bytes result.1) ≤ 3 }
    {
        match ground.residues(m) {
            Ok(field) => (Stage::Based(OneOf::First(field)), Reply::Silent),
            Err((ground, why)) => (Stage::Start(ground), Reply::Refused(1, why.into())),
        }
    }

    // The pairs with t² = r over a base field.
    fn on_pairs(base: Base<R>, r: u16) -> (Stage<T, R, M>, Reply)
        ensures obeyed { Obeyed (based (base_meaning R.Field base)) (square_root r) (progress_at R.Field result.0) result.1 }
        ensures fits { length (reply_bytes result.1) ≤ 3 }
    {
        match Pairs::over(base, u32::from(r)) {
            Ok(pairs) => (Stage::Paired(pairs), Reply::Silent),
            Err((base, why)) => (Stage::Based(base), Reply::Refused(3, why.into())),
        }
    }

    // A calculator on a curve over the field.
    fn on_curve(field: Chosen<R>, curve: Curve) -> (Stage<T, R, M>, Reply)
        ensures obeyed { Lawful (chosen_meaning R.Field field) → Obeyed (progress_with R.Field field) (coefficients curve) (progress_at R.Field result.0) result.1 }
        ensures fits { length (reply_bytes result.1) ≤ 3 }
    {
        match Model::check(field, Draft::from(curve)) {
            Ok(model) => (Stage::Ready(Calculator::new(model)), Reply::Silent),
            Err((field, _, why)) => (Stage::with(field), Reply::Refused(4, why.into())),
        }
    }

    // The stage that has a field and no curve.
    fn with(field: Chosen<R>) -> Stage<T, R, M>
        ensures { progress_at R.Field result ≡ progress_with R.Field field }
    {
        match field {
            OneOf::First(base) => Stage::Based(base),
            OneOf::Second(pairs) => Stage::Paired(pairs),
        }
    }

    // A call of the calculator.
    fn on_call(calculator: Calculator<Chosen<R>, M>, call: Call) -> (Stage<T, R, M>, Reply)
        ensures obeyed { LawfulMethod M.Method.answers → Standing (progress_of R.Field calculator) → Obeyed (progress_of R.Field calculator) (call_of call) (progress_at R.Field result.0) result.1 }
        ensures fits { length (reply_bytes result.1) ≤ 6 * least_size_of_call call }
    {
        let mut calculator = calculator;
        let answer = calculator.send(call);
        (Stage::Ready(calculator), replied(call, answer))
    }
}

// What is written for a call that was answered.
fn replied(call: Call, answer: Answer) -> Reply
    ensures same { result ≡ replied_as call answer }
    ensures fits { length (reply_bytes result) ≤ 6 * least_size_of_call call }
{
    match (call, answer) {
        (call, Err(why)) => Reply::Refused(kind_of(call), why.into()),
        (Call::Show(register), Ok(Some(divisor))) => Reply::Shown(register, divisor),
        _ => Reply::Silent,
    }
}
