ghost use Rattle.std.specs.Prelude.{◌≡◌, ◌≢◌, ◌<◌, ◌≤◌, ◌+◌, ◌^◌, [], Some, AllPairs, IfOk, length, slice_get};
ghost use Rattle.xs_pixel.specs.Points.{point};
ghost use Rattle.xs_meaning.specs.Expressions.{Clear, Leaf, Tinted, Card, Pair, Blur};
ghost use Rattle.xs_tint.specs.Tints.{tint_of};
ghost use Rattle.xs_demand.specs.Blocks.{spread, Puts, IsClosed, inputs_entered};
ghost use Rattle.xs_demand.specs.Shown.{ShowsJob};
ghost use Rattle.xs_entered.specs.Entered.{spread_at, tints_entered, IsInputAt};
ghost use Rattle.xs_entered.specs.Places.{made, IsFounded};

use crate::place::{Place, input_of, job_of, put_place};
use indexmap::IndexSet;
use std::alloc::Global;
use std::marker::Model;
use xs_alias::Key;
use xs_base::Memory;
use xs_palette::Palette;
use xs_pixel::{Op, Pixel};
use xs_plan::Job;
use xs_tint::Tints;

/// The expressions that rows enter, each once, with its growth and its inputs. Contracts see the list of
/// spreads in the order in which they were entered: the number of each is its place there, from 0.
#[derive(Drop)]
pub struct Entered {
    places: IndexSet<Place>,
    tints: Tints,
    // how many inputs all have
    inputs: u32,
}

impl Model for Entered {
    ghost use Rattle.std.specs.Prelude.{List};
    ghost use Rattle.xs_demand.specs.Blocks.{Spread};
    ghost use Rattle.xs_entered.specs.Places.{shown, IsHeld};
    ghost use Rattle.xs_entered.specs.Codes.{spreads_code};

    ghost Value = { List Spread };

    ghost coded = { spreads_code };

    ghost view = { λ s. shown s.tints s.places.keys };

    ghost invariant = { λ s. IsHeld s.tints s.places.keys s.inputs };
}

impl Entered {
    /// Nothing was entered.
    pub fn new(alloc: Global) -> Result<Entered, Memory>
        ensures { IfOk result (λ s. s ≡ []) }
    {
        Ok(Entered {
            places: IndexSet::new(alloc),
            tints: Tints::new(alloc)?,
            inputs: 0,
        })
    }

    /// How many expressions were entered. All inputs of what was entered were entered too, and nothing was
    /// entered twice.
    pub fn len(&self) -> u32
        ensures count { result ≡ length self.now }
        ensures closed { IsClosed self.now }
        ensures apart { AllPairs (λ x y. x ≢ y) self.now }
        ensures few { length self.now < 2 ^ 31 }
    {
        self.places.len() as u32
    }

    /// How many inputs all that was entered has.
    pub fn inputs(&self) -> u32
        ensures { result ≡ inputs_entered self.now }
    {
        self.inputs
    }

    /// Enters nothing, on tiles that are grown.
    pub fn clear(&mut self, growth: u32) -> Result<u32, Memory>
        requires room { length self.old + 1 < 2 ^ 31 }
        ensures entered { IfOk result (λ n. Puts self.old self.new (spread Clear growth) n) }
        ensures within { IfOk result (λ n. n < length self.new) }
        ensures at_least { length self.old ≤ length self.new }
    {
        self.put(Key::Clear, growth)
    }

    /// Enters a drawing, moved right by `dx` and up by `dy`, under its palette as written.
    pub fn leaf(&mut self, drawing: u32, dx: i32, dy: i32, growth: u32) -> Result<u32, Memory>
        requires room { length self.old + 1 < 2 ^ 31 }
        ensures entered { IfOk result (λ n. Puts self.old self.new (spread (Leaf drawing (point dx dy)) growth) n) }
        ensures within { IfOk result (λ n. n < length self.new) }
        ensures at_least { length self.old ≤ length self.new }
    {
        self.put(Key::Leaf { drawing, dx, dy }, growth)
    }

    /// Enters a drawing, moved right by `dx` and up by `dy`, under another palette. Its tint has the next
    /// number if no other expression that was entered has it.
    pub fn tinted(
        &mut self,
        drawing: u32,
        dx: i32,
        dy: i32,
        palette: Palette,
        growth: u32,
    ) -> Result<u32, Memory>
        requires room { length self.old + 1 < 2 ^ 31 }
        ensures entered { IfOk result (λ n. Puts self.old self.new (spread (Tinted drawing (point dx dy) (tint_of palette)) growth) n) }
        ensures within { IfOk result (λ n. n < length self.new) }
        ensures at_least { length self.old ≤ length self.new }
    {
        self.places.reserve(1)?;
        let tint = self.tints.intern(palette)?;
        let key = Key::Tinted {
            drawing,
            dx,
            dy,
            tint,
        };
        match put_place(&mut self.places, &mut self.inputs, Place { key, growth }) {
            Ok(n) => Ok(n),
            Err(Memory) => unreachable!(),
        }
    }

    /// Enters one pixel everywhere.
    pub fn card(&mut self, pixel: Pixel, growth: u32) -> Result<u32, Memory>
        requires room { length self.old + 1 < 2 ^ 31 }
        ensures entered { IfOk result (λ n. Puts self.old self.new (spread (Card pixel) growth) n) }
        ensures within { IfOk result (λ n. n < length self.new) }
        ensures at_least { length self.old ≤ length self.new }
    {
        self.put(Key::Card(pixel), growth)
    }

    /// Enters `op` of two inputs that were entered, both on the same tiles.
    pub fn pair(&mut self, op: Op, first: u32, second: u32, growth: u32) -> Result<u32, Memory>
        requires room { length self.old + 1 < 2 ^ 31 }
        requires first { slice_get self.old first ≡ Some (spread (spread_at self.old first).expr growth) }
        requires second { slice_get self.old second ≡ Some (spread (spread_at self.old second).expr growth) }
        ensures entered { IfOk result (λ n. Puts self.old self.new
            (spread (Pair op (spread_at self.old first).expr (spread_at self.old second).expr) growth) n) }
        ensures within { IfOk result (λ n. n < length self.new) }
        ensures at_least { length self.old ≤ length self.new }
    {
        self.put(
            Key::Pair {
                op,
                a: first,
                b: second,
            },
            growth,
        )
    }

    /// Enters the blur of an input that was entered on tiles which are grown by the radius more.
    pub fn blur(&mut self, radius: u32, input: u32, growth: u32) -> Result<u32, Memory>
        requires room { length self.old + 1 < 2 ^ 31 }
        requires input { slice_get self.old input ≡ Some (spread (spread_at self.old input).expr (growth + radius)) }
        ensures entered { IfOk result (λ n. Puts self.old self.new
            (spread (Blur radius (spread_at self.old input).expr) growth) n) }
        ensures within { IfOk result (λ n. n < length self.new) }
        ensures at_least { length self.old ≤ length self.new }
    {
        self.put(Key::Blur { a: input, radius }, growth)
    }

    /// What the expression with a number is made of, without its inputs. A tint has its number among those
    /// that were entered.
    pub fn job(&self, n: u32) -> Job
        requires { n < length self.now }
        ensures { ShowsJob (tints_entered self.now) (spread_at self.now n).expr result }
    {
        job_of(&self.places.as_slice()[n as usize].key)
    }

    /// By how much the tiles of the expression with a number are grown, in pixels.
    pub fn growth(&self, n: u32) -> u32
        requires { n < length self.now }
        ensures { result ≡ (spread_at self.now n).growth }
    {
        self.places.as_slice()[n as usize].growth
    }

    /// The number of an input of the expression with a number, if it has this input.
    pub fn input(&self, n: u32, port: u32) -> Option<u32>
        requires { n < length self.now }
        ensures { IsInputAt self.now n port result }
    {
        input_of(&self.places.as_slice()[n as usize].key, port)
    }

    /// How many tints were entered.
    pub fn tints(&self) -> u32
        ensures { result ≡ length (tints_entered self.now) }
    {
        self.tints.len()
    }

    /// The palette of the tint with a number, from 0.
    pub fn tint(&self, t: u32) -> &Palette
        requires { t < length (tints_entered self.now) }
        ensures { slice_get (tints_entered self.now) t ≡ Some (tint_of result.now) }
    {
        self.tints.palette(t)
    }

    /// Enters what a key without a tint stands for.
    fn put(&mut self, key: Key, growth: u32) -> Result<u32, Memory>
        requires room { length self.old + 1 < 2 ^ 31 }
        requires founded { IsFounded 0 self.old (length self.old) growth key }
        ensures entered { IfOk result (λ n. Puts self.old self.new (spread (made [] self.old key) growth) n) }
        ensures within { IfOk result (λ n. n < length self.new) }
        ensures at_least { length self.old ≤ length self.new }
    {
        put_place(&mut self.places, &mut self.inputs, Place { key, growth })
    }
}
