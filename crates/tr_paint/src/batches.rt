ghost use Rattle.std.specs.Prelude.{◌≡◌, ◌<◌, ◌↔◌, ◌++◌, ◌∷◌, [], length, slice_get, take, Some, IsTrue, IfOk, OnOk, OnErr};
ghost use Rattle.tr_paint.specs.Paints.{IsNearPaint, IsNearPoint, IsNearRect};
ghost use Rattle.tr_paint.specs.Sums.{AreNear, AreScrolls, IsHull, cost_of, has_spoil};
ghost use Rattle.tr_base.specs.declared.Point.{Point};
ghost use Rattle.tr_paint.specs.Traces.{Look, Base, after, left_by};
ghost use Rattle.tr_paint.specs.Batches as spec;
ghost use Rattle.tr_paint.specs.Views.{viewed};
ghost use Rattle.tr_paint.specs.CommandLists.{IsNoText};

use crate::command_lists::CommandList;
use crate::paints::{Paint, part_in_cells};
use crate::sums::{Scrolls, Sums, sums_of};
use crate::views::PaintView;
use std::alloc::Global;
use std::marker::Model;
use tr_base::{Line, NoMemory, Op, Pair, Point, Rect};

/// Paint commands in the order of their execution. The model is a list. Each command has an area that
/// isn't empty. A batch also keeps sums over all of its commands, so that no call walks over them for
/// these.
#[derive(Debug, Drop)]
pub struct Batch {
    commands: CommandList,
    sums: Sums,
}

impl Model for Batch {
    ghost use Rattle.std.specs.Prelude.{List};
    ghost use Rattle.tr_paint.specs.declared.paints.Paint.{Paint};
    ghost use Rattle.tr_paint.specs.Sums.{IsSummed};

    ghost Value = { List Paint };

    ghost view = { λ b. b.commands };

    ghost invariant = { λ b. IsSummed b.commands b.sums };
}

impl Batch {
    /// A batch with no command.
    pub fn new(alloc: Global) -> Batch
        ensures { result ≡ [] }
    {
        Batch {
            commands: CommandList::new(alloc),
            sums: Sums::none(),
        }
    }

    /// Appends a command, unless its area is empty. If memory runs out, or 2^32 - 1 different commands or
    /// texts wait, nothing changes.
    #[inline(always)]
    pub fn push(&mut self, paint: Paint) -> Result<(), NoMemory>
        requires { IsNearPaint paint }
        ensures ok { OnOk result (self.new ≡ self.old ++ spec.kept paint) }
        ensures err { OnErr result (self.new ≡ self.old) }
    {
        // Most callers name the sort of their command, so their copies of this call need one arm.
        match paint {
            Paint::Tint { clip, op } => self.push_tint(&clip, &op),
            Paint::Text {
                ops,
                clip,
                at,
                text,
            } => self.push_text(&ops, &clip, at, text),
            Paint::Scroll { clip, delta } => self.push_scroll(&clip, delta),
            whole => self.push_whole(whole),
        }
    }

    /// The same for a tint. Most commands repeat the last one of their sort and touch no point outside the
    /// hull, so this case is tried first.
    fn push_tint(&mut self, clip: &Rect, op: &Op) -> Result<(), NoMemory>
        requires { IsNearRect clip.now }
        ensures ok { OnOk result (self.new ≡ self.old ++ spec.kept (Paint.Tint clip.now op.now)) }
        ensures err { OnErr result (self.new ≡ self.old) }
    {
        if !self.sums.has_points_of(clip) {
            return self.push_new_tint(clip, op);
        }
        if !self.commands.repeat_tint(clip, op) {
            return self.push_new_tint(clip, op);
        }
        self.sums.add_within(clip, 1);
        Ok(())
    }

    /// The same for a tint that may be a new one.
    #[inline(never)] // so that a tint that repeats another doesn't pay for it
    fn push_new_tint(&mut self, clip: &Rect, op: &Op) -> Result<(), NoMemory>
        requires { IsNearRect clip.now }
        ensures ok { OnOk result (self.new ≡ self.old ++ spec.kept (Paint.Tint clip.now op.now)) }
        ensures err { OnErr result (self.new ≡ self.old) }
    {
        if clip.is_empty() {
            return Ok(());
        }
        self.commands.push_tint(*clip, *op)?;
        self.sums.add_still(clip, 1);
        Ok(())
    }

    /// The same for a text.
    fn push_text(&mut self, ops: &Pair, clip: &Rect, at: Point, text: Line) -> Result<(), NoMemory>
        requires clip { IsNearRect clip.now }
        requires at { IsNearPoint at }
        ensures ok { OnOk result (self.new ≡ self.old ++ spec.kept (Paint.Text ops.now clip.now at text)) }
        ensures err { OnErr result (self.new ≡ self.old) }
    {
        let area = part_in_cells(clip, at, &text);
        if !self.sums.has_points_of(&area) {
            return self.push_new_text(ops, clip, at, text);
        }
        match self.commands.repeat_text(ops, clip, at, text) {
            Ok(()) => {
                self.sums.add_within(&area, 3);
                Ok(())
            }
            Err(text) => self.push_new_text(ops, clip, at, text),
        }
    }

    /// The same for a text that may have a new command.
    #[inline(never)] // so that a text that shares a command doesn't pay for it
    fn push_new_text(
        &mut self,
        ops: &Pair,
        clip: &Rect,
        at: Point,
        text: Line,
    ) -> Result<(), NoMemory>
        requires clip { IsNearRect clip.now }
        requires at { IsNearPoint at }
        ensures ok { OnOk result (self.new ≡ self.old ++ spec.kept (Paint.Text ops.now clip.now at text)) }
        ensures err { OnErr result (self.new ≡ self.old) }
    {
        let area = part_in_cells(clip, at, &text);
        if area.is_empty() {
            return Ok(());
        }
        self.commands.push_text(*ops, *clip, at, text)?;
        self.sums.add_still(&area, 3);
        Ok(())
    }

    /// The same for a scroll.
    fn push_scroll(&mut self, clip: &Rect, delta: Point) -> Result<(), NoMemory>
        requires clip { IsNearRect clip.now }
        requires delta { IsNearPoint delta }
        ensures ok { OnOk result (self.new ≡ self.old ++ spec.kept (Paint.Scroll clip.now delta)) }
        ensures err { OnErr result (self.new ≡ self.old) }
    {
        if !self.sums.has_points_of(clip) {
            return self.push_new_scroll(clip, delta);
        }
        if !self.sums.has_scrolls_like(clip, delta) {
            return self.push_new_scroll(clip, delta);
        }
        if !self.commands.repeat_scroll(clip, delta) {
            return self.push_new_scroll(clip, delta);
        }
        self.sums.add_within(clip, 2);
        Ok(())
    }

    /// The same for a scroll that may be a new one.
    #[inline(never)] // so that a scroll that repeats another doesn't pay for it
    fn push_new_scroll(&mut self, clip: &Rect, delta: Point) -> Result<(), NoMemory>
        requires clip { IsNearRect clip.now }
        requires delta { IsNearPoint delta }
        ensures ok { OnOk result (self.new ≡ self.old ++ spec.kept (Paint.Scroll clip.now delta)) }
        ensures err { OnErr result (self.new ≡ self.old) }
    {
        if clip.is_empty() {
            return Ok(());
        }
        self.commands.push_scroll(*clip, delta)?;
        self.sums.add_scroll(clip, delta);
        Ok(())
    }

    /// The same for a command that isn't a text.
    fn push_whole(&mut self, paint: Paint) -> Result<(), NoMemory>
        requires near { IsNearPaint paint }
        requires no_text { IsNoText paint }
        ensures ok { OnOk result (self.new ≡ self.old ++ spec.kept paint) }
        ensures err { OnErr result (self.new ≡ self.old) }
    {
        let area = paint.area();
        if area.is_empty() {
            return Ok(());
        }
        let mut sums = self.sums;
        sums.add(&paint.view(), &area);
        self.commands.push_whole(paint)?;
        self.sums = sums;
        Ok(())
    }

    /// Appends copies of the commands of another batch, all of them or none.
    pub fn append(&mut self, other: &Batch) -> Result<(), NoMemory>
        ensures ok { OnOk result (self.new ≡ self.old ++ other.now) }
        ensures err { OnErr result (self.new ≡ self.old) }

        // Two batches in a row do the same as the second one over the result of the first.
        ensures in_a_row { (look : Look) (base : Base) (q : Point) →
            after look base (self.old ++ other.now) q ≡ after look (left_by look base self.old) other.now q }
    {
        self.make_room(other)?;
        // Names `Paint`, so that the borrow checker knows the types that a view lends.
        let _none: Option<Paint> = None;
        let before = self.len();
        for i in 0..other.len() {
            let paint = other.get(i);
            if let Err(error) = self.push_copy(&paint) {
                self.truncate(before);
                return Err(error);
            }
        }
        Ok(())
    }

    /// Makes room for copies of the commands of another batch, if they repeat the last of their sorts.
    fn make_room(&mut self, other: &Batch) -> Result<(), NoMemory>
        ensures { self.new ≡ self.old }
    {
        let commands = &other.commands;
        self.commands.reserve(commands.len(), commands.text_count())
    }

    /// Appends a copy of another batch's command.
    fn push_copy(&mut self, paint: &PaintView) -> Result<(), NoMemory>
        requires { spec.IsKept (viewed paint.now) }
        ensures ok { OnOk result (self.new ≡ self.old ++ viewed paint.now ∷ []) }
        ensures err { OnErr result (self.new ≡ self.old) }
    {
        let copied = paint.copy()?;
        self.push(copied)
    }

    /// Appends the commands of another batch, all of them or none. Their texts and pixels are shared.
    pub fn extend(&mut self, other: Batch) -> Result<(), NoMemory>
        ensures ok { OnOk result (self.new ≡ self.old ++ other) }
        ensures err { OnErr result (self.new ≡ self.old) }
    {
        self.append(&other)
    }

    /// Makes room for `more` commands that repeat the last one of their sort.
    pub fn reserve(&mut self, more: usize) -> Result<(), NoMemory>
        ensures { self.new ≡ self.old }
    {
        self.commands.reserve(more, more)
    }

    /// The number of its commands.
    pub fn len(&self) -> usize
        ensures value { result ≡ length self.now }
        ensures invariant { spec.IsBatch self.now }
    {
        self.commands.len()
    }

    /// Whether it has no command.
    pub fn is_empty(&self) -> bool
        ensures { IsTrue result ↔ (self.now ≡ []) }
    {
        self.commands.len() == 0
    }

    /// The command at index `i`, counted from 0.
    #[inline(always)]
    pub fn get(&self, i: usize) -> PaintView<'_>
        requires { i < length self.now }
        ensures value { slice_get self.now i ≡ Some (viewed result) }
        ensures kept { spec.IsKept (viewed result) }
    {
        self.commands.get(i)
    }

    /// Whether the point lies in the area of one of the commands.
    pub fn touches(&self, q: Point) -> bool
        ensures { result ≡ spec.touches self.now q }
    {
        // Names `Paint`, so that the borrow checker knows the types that a view lends.
        let _none: Option<Paint> = None;
        for i in 0..self.len() {
            let paint = self.get(i);
            if paint.area().has(q) {
                return true;
            }
        }
        false
    }

    /// The least rectangle that contains all points that its commands touch.
    pub fn hull(&self) -> Rect
        ensures { IsHull result self.now }
    {
        self.sums.hull
    }

    /// The estimated work of executing its commands: the sum of their areas in points, each times the
    /// weight of its command. The sum stops at 2^64 - 1.
    pub fn cost(&self) -> u64
        ensures { result ≡ cost_of self.now }
    {
        self.sums.cost
    }

    /// Whether one of its commands is a spoil.
    pub fn has_spoil(&self) -> bool
        ensures { result ≡ has_spoil self.now }
    {
        self.sums.spoils
    }

    /// A summary of its scrolls, made without a walk over them.
    pub fn scrolls(&self) -> Scrolls
        ensures scrolls { AreScrolls result self.now }
        ensures near { AreNear result }
    {
        self.sums.scrolls
    }

    /// Removes all commands.
    pub fn clear(&mut self)
        ensures { self.new ≡ [] }
    {
        self.commands.clear();
        self.sums = Sums::none();
    }

    /// Removes all commands after the first `count`. It walks over these to compute the sums again; callers
    /// need it only if memory runs out in the middle of a patch. The texts and pictures of the others are
    /// kept until the batch is cleared.
    pub fn truncate(&mut self, count: usize)
        ensures { self.new ≡ take count self.old }
    {
        self.commands.truncate(count);
        self.sums = sums_of(&self.commands);
    }

    /// A copy of the batch.
    pub fn copy(&self) -> Result<Batch, NoMemory>
        ensures { IfOk result (λ b. b ≡ self.now) }
    {
        let mut copied = Batch::new(self.commands.alloc());
        copied.append(self)?;
        Ok(copied)
    }
}
