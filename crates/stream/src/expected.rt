// The expected answer of a case, with which the results are compared number by number.
ghost use Rattle.std.specs.Prelude.{◌≡◌, ◌≤◌, ◌+◌, ◌*◌, ◌==◌, IsTrue, OnOk, OnErr, ℕ, Some, slice_get, length};
ghost use Rattle.std.specs.Int.{from_bool};
ghost use Rattle.refusal.specs.Refusal.{verdict_told};
ghost use Rattle.stream.specs.Blocks.{byte_at, word_at};

use crate::Number;
use refusal::{Told, Verdict};

// A number differs from the expected one, or the answer has no more.
#[derive(Clone, Copy, Debug, PartialEq, Eq)]
pub struct Differs;

// The bytes of the answer, and how many of them agree so far.
#[derive(Clone, Copy)]
pub struct Expected<'a> {
    bytes: &'a [u8],
    agreed: usize,
    // No more agrees than the answer has.
    ghost within: { agreed ≤ length bytes.now },
}

impl<'a> Expected<'a> {
    ghost use Rattle.stream.specs.Comparison.{answer_of, agreed_of, Passes, IsTold, IsGradient};

    pub fn new(bytes: &'a [u8]) -> Expected<'a>
        ensures answer { answer_of result ≡ bytes.now }
        ensures agreed { agreed_of result ≡ 0 }
    {
        Expected { bytes, agreed: 0 }
    }

    // The number of bytes that agree: all that was compared, or what stands before the first number that differs.
    pub fn agreed(&self) -> usize
        ensures value { result ≡ agreed_of self.now }
        ensures within { result ≤ length (answer_of self.now) }
    {
        self.agreed
    }

    // Passes over a number of `size` bytes, if it agrees and the answer has it.
    fn pass(&mut self, size: usize, same: bool) -> Result<(), Differs>
        ensures same { OnOk result (IsTrue same) }
        ensures passes { OnOk result (Passes self.old self.new size) }
        ensures unchanged { OnErr result (Passes self.old self.new 0) }
    {
        if !same || self.bytes.len() - self.agreed < size {
            return Err(Differs);
        }
        self.agreed += size;
        Ok(())
    }

    pub fn same<T: Number>(&mut self, number: T) -> Result<(), Differs>
        ensures same { OnOk result (IsTrue (T.stands_at number (answer_of self.old) (agreed_of self.old))) }
        ensures passes { OnOk result (Passes self.old self.new T.SIZE) }
        ensures unchanged { OnErr result (Passes self.old self.new 0) }
    {
        let bytes = self.bytes;
        let same = number.is_at(bytes, self.agreed);
        self.pass(T::SIZE, same)
    }

    pub fn all_same<T: Number>(&mut self, numbers: &[T]) -> Result<(), Differs>
        ensures same { OnOk result ((k : ℕ) (number : T) → slice_get numbers.now k ≡ Some number
            → IsTrue (T.stands_at number (answer_of self.old) (agreed_of self.old + k * T.SIZE))) }
        ensures passes { OnOk result (Passes self.old self.new (length numbers.now * T.SIZE)) }
        ensures answer { answer_of self.new ≡ answer_of self.old }
    {
        for number in numbers {
            self.same(*number)?;
        }
        Ok(())
    }

    // A size, which the answer has in four bytes.
    pub fn same_size(&mut self, size: usize) -> Result<(), Differs>
        ensures same { OnOk result (word_at (answer_of self.old) (agreed_of self.old) ≡ size) }
        ensures passes { OnOk result (Passes self.old self.new 4) }
        ensures unchanged { OnErr result (Passes self.old self.new 0) }
    {
        let bytes = self.bytes;
        let word = crate::word_at(bytes, self.agreed);
        self.pass(4, word as usize == size)
    }

    pub fn same_flag(&mut self, flag: bool) -> Result<(), Differs>
        ensures same { OnOk result (byte_at (answer_of self.old) (agreed_of self.old) ≡ from_bool flag) }
        ensures passes { OnOk result (Passes self.old self.new 1) }
        ensures unchanged { OnErr result (Passes self.old self.new 0) }
    {
        self.same(u8::from(flag))
    }

    // Number, place and value of a refusal.
    pub fn same_told(&mut self, told: Told) -> Result<(), Differs>
        ensures same { OnOk result (IsTold self.old told) }
        ensures passes { OnOk result (Passes self.old self.new 24) }
        ensures answer { answer_of self.new ≡ answer_of self.old }
    {
        self.same(told.number)?;
        self.same(told.place)?;
        self.same(told.value)
    }

    pub fn same_verdict(&mut self, verdict: Verdict) -> Result<(), Differs>
        ensures same { OnOk result (IsTold self.old (verdict_told verdict)) }
        ensures passes { OnOk result (Passes self.old self.new 24) }
        ensures answer { answer_of self.new ≡ answer_of self.old }
    {
        self.same_told(refusal::verdict_told(verdict))
    }

    // Whether there is a gradient, and its coefficient; 0 if there is none.
    pub fn same_gradient(&mut self, gradient: Option<f32>) -> Result<(), Differs>
        ensures same { OnOk result (IsGradient self.old gradient) }
        ensures passes { OnOk result (Passes self.old self.new 8) }
        ensures answer { answer_of self.new ≡ answer_of self.old }
    {
        self.same(u32::from(gradient.is_some()))?;
        match gradient {
            Some(coefficient) => self.same(coefficient),
            None => self.same(0u32),
        }
    }
}
