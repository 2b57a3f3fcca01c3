//! The walk through a scene at one point, step by step.
#![tactic(auto)]

use crate::filters::Filters;
use crate::position::Position;
use crate::sums::Sums;
use crate::walk::Walk;
use xs_pixel::laws::clear_input_vanishes;
use xs_pixel::{Film, Pixel, apply, over};
use xs_step::{Step, Terminals, input, step_at};

impl<'a, K: Film> Walk<'a, K> {
    ghost use Rattle.std.specs.Prelude.{◌≡◌, ◌+◌, ◌*◌, ◌<◌, ◌≤◌, length};
    ghost use Rattle.xs_pixel.specs.Images.{blurred};
    ghost use Rattle.xs_step.specs.Spots.{input_spot};
    ghost use Rattle.xs_direct.specs.Room.{CanMove, blur_reach, room_for};
    ghost use Rattle.xs_direct.specs.Steps.{room_in};
    ghost use Rattle.xs_direct.specs.Sums.{AreSums, sums_at, line_of};
    ghost use Rattle.xs_direct.specs.Values.{answers_in, dropped_in, image_in, stack_of};

    /// The pixel of the spot where the walk stands.
    #[cycle(values)]
    pub(crate) fn pixel(&self, p: Position) -> Pixel
        requires sheet { self.now.spot.sheet < length self.now.scene.now.sheets }
        requires room { CanMove (room_in self.now) p }
        ensures { result ≡ image_in self.now p }
    {
        clear_input_vanishes();
        let Some(further) = self.further() else {
            return Pixel::CLEAR;
        };
        match step_at(self.scene, self.spot) {
            Step::Clear => Pixel::CLEAR,
            Step::Drawing {
                level,
                index,
                offset,
            } => {
                let d = self.scene.number(level, index);
                self.drawing_at(d, p.less(offset))
            }
            Step::Nested { row, offset } => further.at(row).pixel(p.less(offset)),
            Step::Same(next) => further.at(next).pixel(p),
            Step::Keep(next, styles) => {
                let nearer = Filters::Keep(styles.items(), &*self.filters);
                further.at(next).under(&nearer).pixel(p)
            }
            Step::Delete(next, styles) => {
                let nearer = Filters::Delete(styles.items(), &*self.filters);
                further.at(next).under(&nearer).pixel(p)
            }
            Step::Pair(op, first, second) => {
                let upper = further.at(first).pixel(p);
                let lower = further.at(second).pixel(p);
                apply(op, upper, lower)
            }
            Step::Blur(radius, next) => further.at(next).blurred_at(radius, p),
            Step::Card(style) => style.pixel(),
            Step::Over(terminals) => further.stacked(terminals, p),
        }
    }

    /// The pixels of terminals of the sheet laid over one another.
    #[cycle(values)]
    fn stacked(&self, terminals: Terminals<'a>, p: Position) -> Pixel
        requires sheet { self.now.spot.sheet < length self.now.scene.now.sheets }
        requires room { CanMove (room_for self.now.depth self.now.below) p }
        ensures { result ≡ stack_of (λ t. answers_in self.now (input_spot self.now.spot.sheet t self.now.spot.row) (dropped_in self.now) p) terminals.entry }
    {
        let mut pixel = Pixel::CLEAR;
        let mut rest = terminals;
        while let Some((terminal, above)) = rest.split_first() {
            let upper = self
                .at(input(self.spot.sheet, terminal, self.spot.row))
                .pixel(p);
            pixel = over(upper, pixel);
            rest = above;
        }
        pixel
    }

    /// The pixel of a blur: the mean over the square round the point.
    #[cycle(values)]
    fn blurred_at(&self, radius: u32, p: Position) -> Pixel
        requires sheet { self.now.spot.sheet < length self.now.scene.now.sheets }
        requires radius { radius ≤ blur_reach }
        requires room { CanMove (room_in self.now + blur_reach) p }
        ensures { result ≡ blurred radius (image_in self.now) p }
    {
        let side = 2 * radius + 1;
        let mut sums = Sums::NONE;
        for j in 0..side {
            let line = self.line_sums(radius, j, p);
            sums = sums.plus(line);
        }
        sums.mean(side * side)
    }

    /// The sums of the pixels of a line of the square round a point.
    #[cycle(values)]
    fn line_sums(&self, radius: u32, j: u32, p: Position) -> Sums
        requires sheet { self.now.spot.sheet < length self.now.scene.now.sheets }
        requires radius { radius ≤ blur_reach }
        requires line { j ≤ 2 * radius }
        requires room { CanMove (room_in self.now + blur_reach) p }
        ensures value { result ≡ sums_at (image_in self.now) p (line_of radius j (2 * radius + 1)) }
        ensures sums { AreSums (255 * (2 * radius + 1)) result }
    {
        let mut sums = Sums::NONE;
        for i in 0..2 * radius + 1 {
            let at = p.plus(Position::offset(i, j, radius));
            let pixel = self.pixel(at);
            sums = sums.plus(Sums::of(pixel));
        }
        sums
    }
}
