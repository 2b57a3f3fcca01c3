//! The kernel calls of a plan's operations, and nothing else.

ghost use Rattle.std.specs.Prelude.{◌≡◌, ◌<◌, ◌≤◌, true, length, IfOk, OnOk};
ghost use Rattle.xs_base.specs.declared.limits.TheConstants.{GREATEST_RADIUS};
ghost use Rattle.xs_rect.specs.Area.{grown};

use crate::blurs::{fill, out_of_memory, out_of_range};
use crate::tiles::Random;
use crate::watch::Watch;
use std::alloc::{AllocError, Global};
use std::io;
use std::rt::Clock;
use xs_base::limits::GREATEST_RADIUS;
use xs_blur::blur;
use xs_lanes::op_row;
use xs_pixel::Op;
use xs_plan::{Job, Plan};
use xs_raster::Raster;
use xs_rect::Rect;

/// A kind of operation.
#[derive(Clone, Copy, Debug, PartialEq, Eq)]
pub enum Kernels {
    /// An operation on two rasters.
    Pairs,
    /// A blur of one.
    Blurs,
}

impl Kernels {
    /// The kind that a word names.
    pub fn of(word: &str) -> Option<Kernels> {
        match word {
            "pairs" => Some(Kernels::Pairs),
            "blurs" => Some(Kernels::Blurs),
            _ => None,
        }
    }

    /// Its word.
    pub fn name(self) -> &'static str {
        match self {
            Kernels::Pairs => "pairs",
            Kernels::Blurs => "blurs",
        }
    }
}

/// A raster of pixels that look random.
fn noise(alloc: Global, rect: Rect) -> io::Result<Raster>
    ensures area { IfOk result (λ r. r.area ≡ rect) }
    ensures bytes { IfOk result (λ r. r.has_bytes ≡ true) }
{
    let Ok(mut raster) = Raster::clear(alloc, rect) else {
        return Err(out_of_memory());
    };
    let mut random = Random::new(7);
    fill(&mut raster, &mut random);
    if raster.rect() != rect || !raster.has_bytes() {
        return Err(out_of_range());
    }
    Ok(raster)
}

/// Puts a raster of pixels that look random in the place of one that is on another rectangle.
fn move_to(raster: &mut Raster, alloc: Global, rect: Rect) -> io::Result<()>
    ensures area { OnOk result (raster.new.area ≡ rect) }
    ensures bytes { OnOk result (raster.new.has_bytes ≡ true) }
{
    if raster.rect() == rect && raster.has_bytes() {
        return Ok(());
    }
    *raster = noise(alloc, rect)?;
    Ok(())
}

/// The bytes of an operation on two rasters, by the kernel of the lanes.
fn row(alloc: Global, op: Op, first: &Raster, second: &Raster) -> Result<Vec<u8>, AllocError>
    requires same { second.now.area ≡ first.now.area }
    requires first { first.now.has_bytes ≡ true }
    requires second { second.now.has_bytes ≡ true }
{
    first.rect();
    second.rect();
    let mut bytes = vec![in alloc; 0u8; first.bytes().len()]?;
    op_row(op, first.bytes(), second.bytes(), &mut bytes);
    Ok(bytes)
}

/// The inputs of kernel calls, which are kept from one call to the next, and the time of the calls.
#[derive(Drop)]
struct Calls<'a, R: Clock> {
    first: Raster,
    second: Raster,
    watch: Watch<'a, R>,
}

impl<'a, R: Clock> Calls<'a, R> {
    /// No call yet, and inputs of one pixel.
    fn new(rt: &'a R, alloc: Global) -> io::Result<Calls<'a, R>> {
        let Some(rect) = Rect::new(0, 0, 1, 1) else {
            return Err(out_of_range());
        };
        Ok(Calls {
            first: noise(alloc, rect)?,
            second: noise(alloc, rect)?,
            watch: Watch::new(rt),
        })
    }

    /// Calls the kernel of an operation on two rasters, or on one raster twice, on a rectangle.
    fn call_pair(&mut self, alloc: Global, op: Op, rect: Rect, twice: bool) -> io::Result<()> {
        move_to(&mut self.first, alloc, rect)?;
        move_to(&mut self.second, alloc, rect)?;
        let start = self.watch.start();
        let made = if twice {
            row(alloc, op, &self.first, &self.first)
        } else {
            row(alloc, op, &self.first, &self.second)
        };
        self.watch.stop(start);
        match made {
            Ok(_bytes) => Ok(()),
            Err(_) => Err(out_of_memory()),
        }
    }

    /// Calls the kernel of a blur to a rectangle.
    fn call_blur(&mut self, alloc: Global, radius: u32, rect: Rect) -> io::Result<()> {
        let Some(wide) = rect.grow(radius) else {
            return Err(out_of_range());
        };
        if radius > GREATEST_RADIUS {
            return Err(out_of_range());
        }
        move_to(&mut self.first, alloc, wide)?;
        let start = self.watch.start();
        let made = blur(alloc, &self.first, radius, rect);
        self.watch.stop(start);
        match made {
            Ok(_raster) => Ok(()),
            Err(_) => Err(out_of_memory()),
        }
    }

    /// Calls the kernel of an alias, where its operation is of this kind.
    fn call(&mut self, alloc: Global, p: &Plan, k: u32, kernels: Kernels) -> io::Result<()>
        requires { k < length p.now.entries }
    {
        match (kernels, p.job(k)) {
            (Kernels::Pairs, Job::Pair(op)) => {
                self.call_pair(alloc, op, p.rect(k), p.input(k, 0) == p.input(k, 1))
            }
            (Kernels::Blurs, Job::Blur(radius)) => self.call_blur(alloc, radius, p.rect(k)),
            _ => Ok(()),
        }
    }
}

/// The time of the kernel calls of a plan's operations of a kind, in nanoseconds. Each is called in its turn on rasters of
/// its rectangle and of its inputs' rectangles, and makes a new result. Drawings and cards are left out.
pub fn time<R: Clock>(rt: &R, alloc: Global, p: &Plan, kernels: Kernels) -> io::Result<u64> {
    let mut calls = Calls::new(rt, alloc)?;
    for k in 0..p.aliases() {
        calls.call(alloc, p, k, kernels)?;
    }
    Ok(calls.watch.nanoseconds())
}
