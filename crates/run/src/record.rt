// Records, read from the front of a sheet. The kinds are the bytes of the sheet's format, and are read by slice patterns.
ghost use Rattle.std.specs.Prelude.{◌≡◌, ◌+◌, ◌*◌, ◌/◌, ◌%◌, ◌<◌, ◌≤◌, length, take, drop, MatchResult};
ghost use Rattle.std.specs.Iterator.{at_most};
ghost use Rattle.run.specs.Bytes.{curve_at, divisor_at, divisor_bytes};
ghost use Rattle.run.specs.Records.{kind_of_call, kind_of, reading};
ghost use Rattle.run.specs.declared.record.Unreadable.TheVariants.{Short};
ghost use Rattle.run.specs.Meanings.{called_by, said_by, read_as, NextRecord};

use calculator::Call;
use methods::{Curve, Divisor, Linear};
use std::error::Error;
use std::fmt;

// A record, whose bodies of a curve and of a divisor are parts of the sheet.
#[derive(Clone, Copy, Debug, PartialEq, Eq, Hash)]
pub enum Record<'s> {
    Residues(u16),
    Nine,
    Pairs(u16),
    Curve(&'s [u8; 10]),
    Call(CallRecord<'s>),
}

// A record that calls the calculator: the calls of the calculator, with the ten bytes on the sheet for the divisor of Enter. A type
// of its own, since by a rule of the project the bytes stay on the sheet, and a type parameter on each mention of `Call` would be
// no plainer.
#[derive(Clone, Copy, Debug, PartialEq, Eq, Hash)]
pub enum CallRecord<'s> {
    // register, divisor
    Enter(u8, &'s [u8; 10]),
    // target, two registers
    Add(u8, u8, u8),
    // target, register
    Double(u8, u8),
    // target, register
    Negate(u8, u8),
    // register
    Show(u8),
}

impl Record<'_> {
    // The kind byte.
    pub fn kind(self) -> u8
        ensures { result ≡ kind_of (said_by self.entry) }
    {
        match self {
            Record::Residues(_) => 1,
            Record::Nine => 2,
            Record::Pairs(_) => 3,
            Record::Curve(_) => 4,
            Record::Call(call) => kind_of(call.into()),
        }
    }
}

// The call that a record makes.
impl<'s> From<CallRecord<'s>> for Call {
    ghost from_gives = { λ r call. call ≡ called_by r };

    fn from(r: CallRecord<'s>) -> Call {
        match r {
            CallRecord::Enter(t, body) => Call::Enter(t, divisor(body)),
            CallRecord::Add(t, a, b) => Call::Add(t, a, b),
            CallRecord::Double(t, a) => Call::Double(t, a),
            CallRecord::Negate(t, a) => Call::Negate(t, a),
            CallRecord::Show(a) => Call::Show(a),
        }
    }
}

// The kind of the record that makes a call.
pub fn kind_of(call: Call) -> u8
    ensures { result ≡ kind_of_call call }
{
    match call {
        Call::Enter(_, _) => 5,
        Call::Add(_, _, _) => 6,
        Call::Double(_, _) => 7,
        Call::Negate(_, _) => 8,
        Call::Show(_) => 9,
    }
}

// Why there is no record first on a sheet, with the kind byte that stands there.
#[derive(Clone, Copy, Debug, PartialEq, Eq, Hash)]
pub enum Unreadable {
    // the sheet ends inside the record
    Short(u8),
    // no record has this kind
    Unknown(u8),
}

// What stands there in words, which no clause states: it would write each text a second time.
impl fmt::Display for Unreadable {
    fn fmt<W: fmt::Write>(&self, f: &mut fmt::Formatter<W>) -> fmt::Result {
        match self {
            Unreadable::Short(kind) => write!(f, "the sheet ends inside a record of kind {kind}"),
            Unreadable::Unknown(kind) => write!(f, "the kind {kind} of a record is unknown"),
        }
    }
}

impl Error for Unreadable {}

// The first record of the sheet and the rest, if any byte is left.
pub fn read<'s>(sheet: &'s [u8]) -> Result<Option<(Record<'s>, &'s [u8])>, Unreadable>
    ensures { read_as result ≡ reading sheet.now }
{
    match sheet {
        [] => Ok(None),
        [1, low, high, rest @ ..] => {
            Ok(Some((Record::Residues(u16::from_le_bytes([*low, *high])), rest)))
        }
        [2, rest @ ..] => Ok(Some((Record::Nine, rest))),
        [3, low, high, rest @ ..] => {
            Ok(Some((Record::Pairs(u16::from_le_bytes([*low, *high])), rest)))
        }
        [4, rest @ ..] => {
            let (body, rest) = body(rest, 4)?;
            Ok(Some((Record::Curve(body), rest)))
        }
        [5, t, rest @ ..] => {
            let (body, rest) = body(rest, 5)?;
            Ok(Some((Record::Call(CallRecord::Enter(*t, body)), rest)))
        }
        [6, t, a, b, rest @ ..] => Ok(Some((Record::Call(CallRecord::Add(*t, *a, *b)), rest))),
        [7, t, a, rest @ ..] => Ok(Some((Record::Call(CallRecord::Double(*t, *a)), rest))),
        [8, t, a, rest @ ..] => Ok(Some((Record::Call(CallRecord::Negate(*t, *a)), rest))),
        [9, a, rest @ ..] => Ok(Some((Record::Call(CallRecord::Show(*a)), rest))),
        [kind @ 1..=9, ..] => Err(Unreadable::Short(*kind)),
        [kind, ..] => Err(Unreadable::Unknown(*kind)),
    }
}

// The ten bytes of a curve or a divisor, and the rest behind them, of a record of this kind.
fn body<'s>(rest: &'s [u8], kind: u8) -> Result<(&'s [u8; 10], &'s [u8]), Unreadable>
    ensures { MatchResult result (λ b. (b.0.now ≡ take 10 rest.now) × (b.1.now ≡ drop 10 rest.now) × 10 ≤ length rest.now) (λ why. (why ≡ Short kind) × length rest.now < 10) }
{
    rest.split_first_chunk::<10>()
        .ok_or(Unreadable::Short(kind))
}

// The records of a sheet, one after another. Where the sheet has no whole record more but bytes, the last item says why.
#[derive(Clone, Copy, Debug)]
pub(crate) struct Records<'s> {
    pub(crate) rest: &'s [u8],
}

impl<'s> Iterator for Records<'s> {
    type Item = Result<Record<'s>, Unreadable>;

    ghost next_gives = { NextRecord };

    ghost remaining = { λ s. at_most (length s.rest.now) };

    fn next(&mut self) -> Option<Result<Record<'s>, Unreadable>> {
        match read(self.rest) {
            Ok(None) => None,
            Ok(Some((record, rest))) => {
                self.rest = rest;
                Some(Ok(record))
            }
            Err(why) => {
                self.rest = &[];
                Some(Err(why))
            }
        }
    }
}

// A code from its two bytes, low byte first.
fn code(low: u8, high: u8) -> u32
    ensures { result ≡ low + high * 256 }
{
    u32::from(u16::from_le_bytes([low, high]))
}

// The curve of ten bytes, f4 to f0. A function and no From, as the two below: neither side is a type of this crate.
pub fn curve(body: &[u8; 10]) -> Curve
    ensures { result ≡ curve_at body.now }
{
    Curve {
        f4: code(body[0], body[1]),
        f3: code(body[2], body[3]),
        f2: code(body[4], body[5]),
        f1: code(body[6], body[7]),
        f0: code(body[8], body[9]),
    }
}

// The divisor of ten bytes: degree, u1, u0, v1, v0, n.
pub fn divisor(body: &[u8; 10]) -> Divisor
    ensures { result ≡ divisor_at body.now }
{
    Divisor {
        degree: body[0],
        u: Linear {
            x1: code(body[1], body[2]),
            x0: code(body[3], body[4]),
        },
        v: Linear {
            x1: code(body[5], body[6]),
            x0: code(body[7], body[8]),
        },
        n: body[9],
    }
}

// The ten bytes of a divisor.
pub fn divisor_bytes(d: Divisor) -> [u8; 10]
    ensures { result ≡ divisor_bytes d }
{
    let [u1_low, u1_high, ..] = d.u.x1.to_le_bytes();
    let [u0_low, u0_high, ..] = d.u.x0.to_le_bytes();
    let [v1_low, v1_high, ..] = d.v.x1.to_le_bytes();
    let [v0_low, v0_high, ..] = d.v.x0.to_le_bytes();
    [
        d.degree, u1_low, u1_high, u0_low, u0_high, v1_low, v1_high, v0_low, v0_high, d.n,
    ]
}
