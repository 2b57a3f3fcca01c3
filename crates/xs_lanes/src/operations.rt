//! The eight operations on four pixels at a time.

ghost use Rattle.xs_pixel.specs.Operations.{over_of, add_of, sub_of, mult_of, min_of, max_of, matte_in_of, matte_out_of};

use crate::kernel::Kernel;
use crate::lanes::{
    are_all, capped_sums, colours, complements, differences, greater, lesser, products, sums,
};
use std::simd::prelude::*;
use xs_pixel::{Pixel, mattes};

pub(crate) struct Over;

impl Kernel for Over {
    ghost op = { over_of };

    #[inline(always)]
    fn one(u: Pixel, d: Pixel) -> Pixel {
        xs_pixel::over(u, d)
    }

    #[inline(always)]
    fn block(u: u8x16, d: u8x16) -> u8x16 {
        let matte = mattes(u);
        if are_all(matte, 0) {
            return d;
        }
        if are_all(matte, 255) {
            return u;
        }
        sums(u, products(d, complements(matte)))
    }
}

pub(crate) struct Add;

impl Kernel for Add {
    ghost op = { add_of };

    #[inline(always)]
    fn one(u: Pixel, d: Pixel) -> Pixel {
        xs_pixel::add(u, d)
    }

    #[inline(always)]
    fn block(u: u8x16, d: u8x16) -> u8x16 {
        capped_sums(u, d)
    }
}

pub(crate) struct Sub;

impl Kernel for Sub {
    ghost op = { sub_of };

    #[inline(always)]
    fn one(u: Pixel, d: Pixel) -> Pixel {
        xs_pixel::sub(u, d)
    }

    #[inline(always)]
    fn block(u: u8x16, d: u8x16) -> u8x16 {
        differences(d, colours(u))
    }
}

pub(crate) struct Mult;

impl Kernel for Mult {
    ghost op = { mult_of };

    #[inline(always)]
    fn one(u: Pixel, d: Pixel) -> Pixel {
        xs_pixel::mult(u, d)
    }

    #[inline(always)]
    fn block(u: u8x16, d: u8x16) -> u8x16 {
        products(u, d)
    }
}

pub(crate) struct Min;

impl Kernel for Min {
    ghost op = { min_of };

    #[inline(always)]
    fn one(u: Pixel, d: Pixel) -> Pixel {
        xs_pixel::min(u, d)
    }

    #[inline(always)]
    fn block(u: u8x16, d: u8x16) -> u8x16 {
        lesser(u, d)
    }
}

pub(crate) struct Max;

impl Kernel for Max {
    ghost op = { max_of };

    #[inline(always)]
    fn one(u: Pixel, d: Pixel) -> Pixel {
        xs_pixel::max(u, d)
    }

    #[inline(always)]
    fn block(u: u8x16, d: u8x16) -> u8x16 {
        greater(u, d)
    }
}

pub(crate) struct MatteIn;

impl Kernel for MatteIn {
    ghost op = { matte_in_of };

    #[inline(always)]
    fn one(u: Pixel, d: Pixel) -> Pixel {
        xs_pixel::matte_in(u, d)
    }

    #[inline(always)]
    fn block(u: u8x16, d: u8x16) -> u8x16 {
        products(u, mattes(d))
    }
}

pub(crate) struct MatteOut;

impl Kernel for MatteOut {
    ghost op = { matte_out_of };

    #[inline(always)]
    fn one(u: Pixel, d: Pixel) -> Pixel {
        xs_pixel::matte_out(u, d)
    }

    #[inline(always)]
    fn block(u: u8x16, d: u8x16) -> u8x16 {
        products(u, complements(mattes(d)))
    }
}
