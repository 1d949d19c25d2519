//! Instructions, and the words in which they are stored.
ghost use Rattle.std.specs.Prelude.{◌≡◌, ℕ, ◌+◌, ◌*◌, ◌/◌, ◌%◌, ◌^◌, ◌<◌, ◌≤◌, ◌↔◌, IsTrue, IsSome, IfSome, Some, pos, ◌-ℤ◌};
ghost use Rattle.luf_ops.specs.Operation.{form_of, number_of};
ghost use Rattle.luf_ops.specs.Instruction.{Fits, IsStorable, bit, instruction_of, instruction_with, op_of, stored, word_of};

use crate::{Form, Op};

/// An instruction: its operation and its operands.
#[derive(Clone, Copy, Debug, PartialEq, Eq)]
pub enum Instr {
    Abc {
        op: Op,
        a: u8,
        k: bool,
        b: u8,
        c: u8,
    },
    Abx {
        op: Op,
        a: u8,
        bx: u32,
    },
    Asbx {
        op: Op,
        a: u8,
        sbx: i32,
    },
    Ax {
        op: Op,
        ax: u32,
    },
    Sj {
        op: Op,
        sj: i32,
    },
}

// The first bit of each field of a word, and what the wide ones stay below.
const A: u32 = 7;

const K: u32 = 15;

const B: u32 = 16;

const C: u32 = 24;

const BX: u32 = 15;

const BX_LIMIT: u32 = 1 << 17;

const AX: u32 = 7;

const AX_LIMIT: u32 = 1 << 25;

// What is added to a signed operand where it is stored.
const SBX_EXCESS: u32 = 65_535;

const SJ_EXCESS: u32 = 16_777_215;

impl Instr {
    /// Its operation.
    pub fn op(self) -> Op
        ensures { result ≡ op_of self }
    {
        match self {
            Instr::Abc { op, .. }
            | Instr::Abx { op, .. }
            | Instr::Asbx { op, .. }
            | Instr::Ax { op, .. }
            | Instr::Sj { op, .. } => op,
        }
    }

    /// Whether the operation has this form, and each operand has room in its field.
    pub fn fits(&self) -> bool
        ensures { IsTrue result ↔ Fits self.now }
    {
        let instr = *self;
        match instr {
            Instr::Abc { op, .. } => op.form() == Form::Abc,
            Instr::Abx { op, bx, .. } => op.form() == Form::Abx && bx < BX_LIMIT,
            Instr::Asbx { op, sbx, .. } => op.form() == Form::Asbx
                && is_storable(sbx, SBX_EXCESS, BX_LIMIT),
            Instr::Ax { op, ax } => op.form() == Form::Ax && ax < AX_LIMIT,
            Instr::Sj { op, sj } => op.form() == Form::Sj && is_storable(sj, SJ_EXCESS, AX_LIMIT),
        }
    }

    /// The word of an instruction that fits.
    pub fn encode(self) -> u32
        requires { Fits self }
        ensures { result ≡ word_of self }
    {
        match self {
            Instr::Abc { op, a, k, b, c } => {
                u32::from(op.number())
                    + (u32::from(a) << A)
                    + (u32::from(k) << K)
                    + (u32::from(b) << B)
                    + (u32::from(c) << C)
            }
            Instr::Abx { op, a, bx } => u32::from(op.number()) + (u32::from(a) << A) + (bx << BX),
            Instr::Asbx { op, a, sbx } => u32::from(op.number())
                + (u32::from(a) << A)
                + (to_stored(sbx, SBX_EXCESS) << BX),
            Instr::Ax { op, ax } => u32::from(op.number()) + (ax << AX),
            Instr::Sj { op, sj } => u32::from(op.number()) + (to_stored(sj, SJ_EXCESS) << AX),
        }
    }

    /// The instruction of a word, and `None` exactly where its bits 0 to 6 are the number of no operation.
    pub fn decode(word: u32) -> Option<Instr>
        ensures fields { result ≡ instruction_of word }
        ensures exists { IsSome result ↔ (word % 2 ^ 7 < 83) }
        ensures word { IfSome result (λ i. Fits i × (word_of i ≡ word)) }
        ensures only { (i : Instr) → Fits i → word_of i ≡ word → result ≡ Some i }
    {
        let op = Op::from_number(number_in(word))?;
        Some(with_op(op, word))
    }
}

/// The instruction of a word, whose operation is known.
fn with_op(op: Op, word: u32) -> Instr
    requires { number_of op ≡ word % 2 ^ 7 }
    ensures fields { result ≡ instruction_with (form_of op) op word }
    ensures fits { Fits result }
    ensures word { word_of result ≡ word }
{
    let a = byte(word, A);
    match op.form() {
        Form::Abc => Instr::Abc {
            op,
            a,
            k: word >> K & 1 == 1,
            b: byte(word, B),
            c: byte(word, C),
        },
        Form::Abx => Instr::Abx {
            op,
            a,
            bx: word >> BX,
        },
        Form::Asbx => Instr::Asbx {
            op,
            a,
            sbx: from_stored(word >> BX, SBX_EXCESS),
        },
        Form::Ax => Instr::Ax { op, ax: word >> AX },
        Form::Sj => Instr::Sj {
            op,
            sj: from_stored(word >> AX, SJ_EXCESS),
        },
    }
}

/// The number of the operation.
fn number_in(word: u32) -> u8
    ensures { result ≡ word % 2 ^ 7 }
{
    (word & 0x7f) as u8
}

/// The eight bits of a word from `position` on.
fn byte(word: u32, position: u32) -> u8
    requires { position < 32 }
    ensures { result ≡ word / 2 ^ position % 2 ^ 8 }
{
    (word >> position & 0xff) as u8
}

/// Whether a field below `limit` stores the number with this excess.
fn is_storable(number: i32, excess: u32, limit: u32) -> bool
    requires { excess ≤ limit }
    ensures { IsTrue result ↔ IsStorable excess limit number }
{
    let stored = i64::from(number) + i64::from(excess);
    0 <= stored && stored < i64::from(limit)
}

/// A signed operand as it is stored.
fn to_stored(number: i32, excess: u32) -> u32
    requires excess { excess < 2 ^ 31 }
    requires storable { IsStorable excess (2 ^ 30) number }
    ensures { result ≡ stored excess number }
{
    (number + excess as i32) as u32
}

/// A stored operand as the signed number that it stands for.
fn from_stored(field: u32, excess: u32) -> i32
    requires excess { excess < 2 ^ 30 }
    requires field { field < 2 ^ 30 }
    ensures storable { (limit : ℕ) → field < limit → IsStorable excess limit result }
    ensures stored { stored excess result ≡ field }
    ensures number { result ≡ pos field -ℤ pos excess }
{
    field as i32 - excess as i32
}

/// An instruction that fits is known by its word.
pub fn one_instruction()
    ensures { (i j : Instr) → Fits i → Fits j → word_of i ≡ word_of j → i ≡ j }
{}
