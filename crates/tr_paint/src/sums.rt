ghost use Rattle.std.specs.Prelude.{◌≡◌, ◌≢◌, ◌≤◌, IsTrue, false, ◌||◌, ◌++◌, ◌∷◌, [], List};
ghost use Rattle.tr_base.specs.Rects.{IsRect, empty_rect, has_point, sides_of};
ghost use Rattle.tr_paint.specs.declared.paints.Paint.{Paint};
ghost use Rattle.tr_paint.specs.Paints.{IsNearPaint, IsNearPoint, IsNearRect, area as area_of};
ghost use Rattle.tr_paint.specs.Batches.{IsBatch};
ghost use Rattle.tr_paint.specs.Hulls.{HasAll};
ghost use Rattle.tr_paint.specs.Views.{viewed};
ghost use Rattle.tr_paint.specs.Sums as spec;

use crate::command_lists::CommandList;
use crate::hulls::{hull, is_within};
use crate::paints::Paint;
use crate::views::PaintView;
use tr_base::{Point, Rect};

/// A summary of the scrolls of a batch.
#[derive(Clone, Copy, Debug)]
pub enum Scrolls {
    /// There is none.
    Absent,
    /// Each of them is this one.
    Alike { clip: Rect, delta: Point },
    /// They differ, and nothing is known of them.
    Various,
}

/// Sums over the commands of a batch, kept so that no walk over the commands is needed.
#[derive(Clone, Copy, Debug)]
pub(crate) struct Sums {
    /// The least rectangle that contains all points that they touch.
    pub hull: Rect,
    /// The sum of their areas, each times its weight. It stops at 2^64 - 1.
    pub cost: u64,
    /// Whether one of them is a spoil.
    pub spoils: bool,
    pub scrolls: Scrolls,
}

impl Sums {
    /// The sums of no command.
    pub fn none() -> Sums
        ensures { spec.AreSums result [] }
    {
        Sums {
            hull: Rect::edges(0, 0, 0, 0),
            cost: 0,
            spoils: false,
            scrolls: Scrolls::Absent,
        }
    }

    /// Adds a command with this area after the others.
    pub fn add(&mut self, paint: &PaintView, area: &Rect)
        requires near { IsNearPaint (viewed paint.now) }
        requires area { area.now ≡ area_of (viewed paint.now) }
        ensures { (front : List Paint) → spec.AreSums self.old front →
            spec.AreSums self.new (front ++ viewed paint.now ∷ []) }
    {
        self.hull = hull(&self.hull, area);
        self.cost = self.cost.saturating_add(cost_of_one(paint, area));
        self.spoils = either(self.spoils, is_spoil(paint));
        self.scrolls = both_scrolls(&self.scrolls, &scrolls_of(paint));
    }

    /// Adds a command that touches these points and has this weight. It is neither a scroll nor a spoil.
    pub fn add_still(&mut self, touched: &Rect, weight: u64)
        ensures { (front : List Paint) (c : Paint) → touched.now ≡ area_of c → weight ≡ spec.weight c →
            spec.is_spoil c ≡ false → spec.IsOneOf Scrolls.Absent c →
            spec.AreSums self.old front → spec.AreSums self.new (front ++ c ∷ []) }
    {
        self.hull = hull(&self.hull, touched);
        self.cost = self
            .cost
            .saturating_add(points_in(touched).saturating_mul(weight));
    }

    /// Whether a rectangle has a point and the hull has all of its points.
    #[inline(always)]
    pub fn has_points_of(&self, area: &Rect) -> bool
        ensures rect { IsRect area.now }
        ensures some { IsTrue result → area.now ≢ empty_rect }
        ensures all { IsTrue result → HasAll self.now.hull (has_point area.now) }
    {
        !area.is_empty() && is_within(area, &self.hull)
    }

    /// Whether the summary says that each scroll is this one.
    #[inline(always)]
    pub fn has_scrolls_like(&self, clip: &Rect, delta: Point) -> bool
        ensures { IsTrue result → self.now.scrolls ≡ Scrolls.Alike clip.now delta }
    {
        match &self.scrolls {
            Scrolls::Alike { clip: c, delta: d } => c == clip && *d == delta,
            _ => false,
        }
    }

    /// Adds a command that touches these points of the hull and has this weight. It isn't a spoil, and the
    /// summary of the scrolls allows it.
    #[inline(always)]
    pub fn add_within(&mut self, touched: &Rect, weight: u64)
        requires weight { weight ≤ 3 }
        requires within { HasAll self.old.hull (has_point touched.now) }
        ensures { (front : List Paint) (c : Paint) → touched.now ≡ area_of c → weight ≡ spec.weight c →
            spec.is_spoil c ≡ false → spec.IsOneOf self.old.scrolls c →
            spec.AreSums self.old front → spec.AreSums self.new (front ++ c ∷ []) }
    {
        let (wide, high) = sides(touched);
        self.cost = self
            .cost
            .saturating_add(u64::from(wide) * u64::from(high) * weight);
    }

    /// Adds a scroll.
    pub fn add_scroll(&mut self, clip: &Rect, delta: Point)
        requires clip { IsNearRect clip.now }
        requires delta { IsNearPoint delta }
        ensures { (front : List Paint) → spec.AreSums self.old front →
            spec.AreSums self.new (front ++ Paint.Scroll clip.now delta ∷ []) }
    {
        self.hull = hull(&self.hull, clip);
        self.cost = self.cost.saturating_add(points_in(clip).saturating_mul(2));
        let scroll = Scrolls::Alike { clip: *clip, delta };
        self.scrolls = both_scrolls(&self.scrolls, &scroll);
    }
}

/// The sums of commands, computed by a walk over them.
pub(crate) fn sums_of(commands: &CommandList) -> Sums
    requires { IsBatch commands.now }
    ensures { spec.AreSums result commands.now }
{
    // Names `Paint`, so that the borrow checker knows the types that a view lends.
    let _none: Option<Paint> = None;
    let mut sums = Sums::none();
    for i in 0..commands.len() {
        let paint = commands.get(i);
        sums.add(&paint, &paint.area());
    }
    sums
}

/// The number of points of a rectangle.
pub fn points_in(rect: &Rect) -> u64
    ensures { result ≡ spec.points_in rect.now }
{
    let (wide, high) = sides(rect);
    u64::from(wide) * u64::from(high)
}

/// The number of points side by side, and the number of rows. The size of `Rect` takes absolute values.
fn sides(rect: &Rect) -> (u32, u32)
    ensures value { result ≡ sides_of rect.now }
    ensures wide { result.0 ≤ 2_097_152 }
    ensures high { result.1 ≤ 2_097_152 }
{
    rect.invariant();
    (
        (rect.east() - rect.west()) as u32,
        (rect.south() - rect.north()) as u32,
    )
}

/// The measured cost of a point of a command's area, relative to the cost of a filled point.
fn weight(paint: &PaintView) -> u64
    ensures { result ≡ spec.weight (viewed paint.now) }
{
    match paint {
        PaintView::Tint { .. } | PaintView::Pixels { .. } | PaintView::Spoil { .. } => 1,
        PaintView::Texture { .. } | PaintView::Scroll { .. } => 2,
        PaintView::Text { .. } => 3,
    }
}

/// The estimated work of executing a command with this area.
fn cost_of_one(paint: &PaintView, area: &Rect) -> u64
    requires { area.now ≡ area_of (viewed paint.now) }
    ensures { result ≡ spec.cost_of (viewed paint.now ∷ []) }
{
    points_in(area).saturating_mul(weight(paint))
}

/// Whether a command makes the pixels of its points unknown.
fn is_spoil(paint: &PaintView) -> bool
    ensures { result ≡ spec.is_spoil (viewed paint.now) }
{
    matches!(paint, PaintView::Spoil { .. })
}

/// Whether one of the two is true.
fn either(a: bool, b: bool) -> bool
    ensures { result ≡ a || b }
{
    a || b
}

/// The summary of the scrolls of this one command.
fn scrolls_of(paint: &PaintView) -> Scrolls
    requires { IsNearPaint (viewed paint.now) }
    ensures one { spec.IsOneOf result (viewed paint.now) }
    ensures near { spec.AreNear result }
{
    match paint {
        PaintView::Scroll { clip, delta } => Scrolls::Alike {
            clip: *clip,
            delta: *delta,
        },
        _ => Scrolls::Absent,
    }
}

/// The summary of the scrolls of some commands and others.
fn both_scrolls(some: &Scrolls, others: &Scrolls) -> Scrolls
    ensures some { (c : Paint) → spec.IsOneOf some.now c → spec.IsOneOf result c }
    ensures others { (c : Paint) → spec.IsOneOf others.now c → spec.IsOneOf result c }
    ensures near { spec.AreNear some.now → spec.AreNear others.now → spec.AreNear result }
{
    match (some, others) {
        (Scrolls::Absent, _) => *others,
        (_, Scrolls::Absent) => *some,
        (Scrolls::Alike { clip, delta }, Scrolls::Alike { clip: c, delta: d })
            if clip == c && delta == d => *some,
        _ => Scrolls::Various,
    }
}
