ghost use Rattle.std.specs.Prelude.{◌≡◌, ◌↔◌, ℤ, IsTrue, IsSome, IfSome, IfNone};
ghost use Rattle.xs_rect.specs.Area.{IsSide, IsNear, IsPart, Lies};

use std::marker::Model;

/// The longest side of a rectangle, in points.
const LONGEST_SIDE: u32 = 8192;

/// How far the corner of a rectangle may lie from the origin along each axis, in points.
const FARTHEST: i32 = 134_217_728;

/// A rectangle of whole points: its corner with the least x and y, and its two sides. A side is from
/// 1 to 8192, and the corner within 2^27 of the origin along each axis.
#[derive(Clone, Copy, Debug, PartialEq, Eq)]
pub struct Rect {
    pub(crate) x: i32,
    pub(crate) y: i32,
    pub(crate) w: u32,
    pub(crate) h: u32,
}

impl Model for Rect {
    ghost use Rattle.xs_rect.specs.Area.{Area, IsRect, area};

    ghost Value = { Area };

    ghost view = { λ r. area r.x r.y r.w r.h };

    ghost invariant = { λ r. IsRect (area r.x r.y r.w r.h) };

    ghost inverse = { λ a. record { x = a.x; y = a.y; w = a.w; h = a.h } };
}

impl Rect {
    ghost use Rattle.xs_rect.specs.Area.{Area, IsRect, Holds, IsCommonPart, IsWithin, ShareNoPoint, area, grown};

    /// The rectangle with this corner and these sides; None exactly where one of them is out of range.
    pub fn new(x: i32, y: i32, w: u32, h: u32) -> Option<Rect>
        ensures valid { IsSome result ↔ IsRect (area x y w h) }
        ensures value { IfSome result (λ r. r ≡ area x y w h) }
    {
        if is_near(x) && is_near(y) && is_side(w) && is_side(h) {
            Some(Rect { x, y, w, h })
        } else {
            None
        }
    }

    /// The least x.
    pub fn x(&self) -> i32
        ensures value { result ≡ self.now.x }
        ensures range { IsNear result }
    {
        self.x
    }

    /// The least y.
    pub fn y(&self) -> i32
        ensures value { result ≡ self.now.y }
        ensures range { IsNear result }
    {
        self.y
    }

    /// The points from left to right.
    pub fn w(&self) -> u32
        ensures value { result ≡ self.now.w }
        ensures range { IsSide result }
    {
        self.w
    }

    /// The points from bottom to top.
    pub fn h(&self) -> u32
        ensures value { result ≡ self.now.h }
        ensures range { IsSide result }
    {
        self.h
    }

    /// Whether the point lies in the rectangle.
    pub fn contains(&self, x: i32, y: i32) -> bool
        ensures { IsTrue result ↔ Holds self.now x y }
    {
        lies(self.x, self.w, x) && lies(self.y, self.h, y)
    }

    /// The part that both rectangles have; None exactly where they share no point.
    pub fn clip(&self, o: &Rect) -> Option<Rect>
        ensures common { IfSome result (IsCommonPart self.now o.now) }
        ensures none { IfNone result (ShareNoPoint self.now o.now) }
        ensures within { IfSome result (λ r. IsWithin r self.now × IsWithin r o.now) }
    {
        let (x, w) = common_span(self.x, self.w, o.x, o.w)?;
        let (y, h) = common_span(self.y, self.h, o.y, o.h)?;
        Some(Rect { x, y, w, h })
    }

    /// This rectangle with `n` more points on each side; None exactly where that is out of range.
    pub fn grow(&self, n: u32) -> Option<Rect>
        ensures valid { IsSome result ↔ IsRect (grown self.now n) }
        ensures value { IfSome result (λ r. r ≡ grown self.now n) }
    {
        if n > LONGEST_SIDE {
            return None;
        }
        let all = 2 * n;
        Rect::new(
            self.x - n as i32,
            self.y - n as i32,
            self.w + all,
            self.h + all,
        )
    }
}

/// Whether the place is one of the `len` places from `from` on.
fn lies(from: i32, len: u32, at: i32) -> bool
    requires { IsNear from × IsSide len }
    ensures { IsTrue result ↔ Lies from len at }
{
    from <= at && at < from + len as i32
}

/// The places that two rows of places have in common, as the first and their count; None where there
/// are none.
fn common_span(a: i32, a_len: u32, b: i32, b_len: u32) -> Option<(i32, u32)>
    requires first { IsNear a × IsSide a_len }
    requires second { IsNear b × IsSide b_len }
    ensures range { IfSome result (λ s. IsNear s.0 × IsSide s.1) }
    ensures common { IfSome result
        (λ s. (z : ℤ) → Lies s.0 s.1 z ↔ (Lies a a_len z × Lies b b_len z)) }
    ensures within { IfSome result (λ s. IsPart s.0 s.1 a a_len × IsPart s.0 s.1 b b_len) }
    ensures none { IfNone result ((z : ℤ) → Lies a a_len z → ¬ Lies b b_len z) }
{
    let from = a.max(b);
    let end = (a + a_len as i32).min(b + b_len as i32);
    if from < end {
        Some((from, (end - from).unsigned_abs()))
    } else {
        None
    }
}

fn is_side(side: u32) -> bool
    ensures { IsTrue result ↔ IsSide side }
{
    1 <= side && side <= LONGEST_SIDE
}

fn is_near(at: i32) -> bool
    ensures { IsTrue result ↔ IsNear at }
{
    -FARTHEST <= at && at <= FARTHEST
}
