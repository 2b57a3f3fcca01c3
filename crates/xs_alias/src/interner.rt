ghost use Rattle.std.specs.Prelude.{◌≡◌, ◌<◌, ◌≤◌, ◌+◌, ◌^◌, [], Some, IfOk, OnErr, List, length, slice_get, if◌then◌else◌};
ghost use Rattle.xs_pixel.specs.Channels.{Channels};
ghost use Rattle.xs_meaning.specs.Expressions.{Clear, is_clear, pair_of, blur_of};
ghost use Rattle.xs_alias.specs.Meanings.{meaning, meanings, stands_for};
ghost use Rattle.xs_alias.specs.Numbers.{IsOver, IsNumbering, Numbers, IsGiven};

use crate::key::{Key, is_nothing};
use indexmap::IndexSet;
use std::alloc::Global;
use std::marker::Model;
use xs_base::Memory;
use xs_meaning::pairs::{first_stays_alone, second_stays_alone};
use xs_pixel::Op;

/// Keys, each with a number, from 0. Contracts see it as the list of the keys by their numbers.
#[derive(Drop)]
pub struct Interner {
    given: IndexSet<Key>,
}

impl Model for Interner {
    ghost use Rattle.std.specs.Prelude.{List};
    ghost use Rattle.xs_alias.specs.declared.key.Key.{Key};
    ghost use Rattle.xs_alias.specs.Numbers.{IsNumbering};

    ghost Value = { List Key };

    ghost view = { λ s. s.given.keys };

    ghost invariant = { λ s. IsNumbering s.given.keys };
}

impl Interner {
    /// No number was given.
    pub fn new(alloc: Global) -> Interner
        ensures { result ≡ [] }
    {
        Interner {
            given: IndexSet::new(alloc),
        }
    }

    /// How many numbers were given.
    pub fn len(&self) -> u32
        ensures count { result ≡ length self.now }
        ensures numbering { IsNumbering self.now }
    {
        self.given.len() as u32
    }

    /// The key with a number.
    pub fn key(&self, n: u32) -> Key
        requires { n < length self.now }
        ensures key { slice_get self.now n ≡ Some result }
        ensures numbering { IsNumbering self.now }
    {
        self.given.as_slice()[n as usize]
    }

    /// The number of a key: that of the equal key, or else the next one.
    pub fn intern(&mut self, k: Key) -> Result<u32, Memory>
        requires room { length self.old + 1 < 2 ^ 32 }
        requires inputs { IsOver (length self.old) k }
        ensures number { IfOk result (λ n. Numbers self.old self.new k n) }
        ensures means { IfOk result (λ n. (tints : List (List Channels))
            → meaning tints self.new n ≡ stands_for tints (meanings tints self.old) k) }
        ensures numbering { IsNumbering self.new }
        ensures at_least { length self.old ≤ length self.new }
        ensures at_most { length self.new ≤ length self.old + 1 }
        ensures err { OnErr result (self.new ≡ self.old) }
    {
        let Ok((n, _)) = self.given.insert_full(k) else {
            return Err(Memory);
        };
        Ok(n as u32)
    }

    /// The number of a pair of two expressions, from which clear inputs vanish.
    pub fn pair(&mut self, op: Op, a: u32, b: u32) -> Result<u32, Memory>
        requires room { length self.old + 1 < 2 ^ 32 }
        requires first { a < length self.old }
        requires second { b < length self.old }
        ensures given { IfOk result (λ n. IsGiven self.old self.new n) }
        ensures means { IfOk result (λ n. (tints : List (List Channels))
            → meaning tints self.new n ≡ pair_of op (meaning tints self.old a) (meaning tints self.old b)) }
        ensures at_least { length self.old ≤ length self.new }
        ensures at_most { length self.new ≤ length self.old + 1 }
        ensures err { OnErr result (self.new ≡ self.old) }
    {
        if self.is_clear(a) {
            self.input_or_clear(second_stays_alone(op), b)
        } else if self.is_clear(b) {
            self.input_or_clear(first_stays_alone(op), a)
        } else {
            self.intern(Key::Pair { op, a, b })
        }
    }

    /// The number of an expression blurred by a radius. A blur of nothing is nothing.
    pub fn blur(&mut self, radius: u32, a: u32) -> Result<u32, Memory>
        requires room { length self.old + 1 < 2 ^ 32 }
        requires input { a < length self.old }
        ensures given { IfOk result (λ n. IsGiven self.old self.new n) }
        ensures means { IfOk result (λ n. (tints : List (List Channels))
            → meaning tints self.new n ≡ blur_of radius (meaning tints self.old a)) }
        ensures at_least { length self.old ≤ length self.new }
        ensures at_most { length self.new ≤ length self.old + 1 }
        ensures err { OnErr result (self.new ≡ self.old) }
    {
        if self.is_clear(a) {
            Ok(a)
        } else {
            self.intern(Key::Blur { a, radius })
        }
    }

    /// Whether a number means nothing.
    fn is_clear(&self, n: u32) -> bool
        requires { n < length self.now }
        ensures { (tints : List (List Channels)) → result ≡ is_clear (meaning tints self.now n) }
    {
        is_nothing(self.key(n))
    }

    /// The number of an input that stays, or else that of nothing.
    fn input_or_clear(&mut self, stays: bool, n: u32) -> Result<u32, Memory>
        requires room { length self.old + 1 < 2 ^ 32 }
        requires input { n < length self.old }
        ensures given { IfOk result (λ m. IsGiven self.old self.new m) }
        ensures means { IfOk result (λ m. (tints : List (List Channels))
            → meaning tints self.new m ≡ (if stays then meaning tints self.old n else Clear)) }
        ensures at_least { length self.old ≤ length self.new }
        ensures at_most { length self.new ≤ length self.old + 1 }
        ensures err { OnErr result (self.new ≡ self.old) }
    {
        if stays {
            Ok(n)
        } else {
            self.intern(Key::Clear)
        }
    }
}
