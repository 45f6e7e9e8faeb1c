//! A stage as the tests see it.
use super::acts::By;
use super::calls;
use super::openings::Part;
use std::process::Abort;
use tr_base::{Event, LeafId, Line, NoMemory, Point, Selection, Size};
use tr_journal::{Delivery, Difference, Entry, Reply, Step};
use tr_stage::{Peek, Stage};
use tr_widget::{Widget, WidgetCmd};

/// A stage as the tests see it: what it does, and nothing of why. So no proof of a test knows the laws of a
/// stage of widgets, which take minutes to be written out. Where a call isn't allowed the test ends, and
/// where it wants memory too, but for the three that answer this: they are called once more.
pub trait Played: Sized + Drop {
    /// The stage of an opening that is made of these parts.
    fn start(rt: &(impl Abort + AllocGlobal), size: Size, parts: &[Part]) -> Self;

    /// Another stage of the same opening.
    fn again(&self, rt: &(impl Abort + AllocGlobal)) -> Self;

    /// Makes a step.
    fn make(&mut self, rt: &impl Abort, by: &By, step: Step<WidgetCmd>) -> Result<Reply, NoMemory>;

    /// Makes a step for which room was reserved.
    fn make_reserved(&mut self, rt: &impl Abort, by: &By, step: Step<WidgetCmd>) -> Reply;

    /// Makes three steps for which room was reserved at once.
    fn make_three_reserved(
        &mut self,
        rt: &impl Abort,
        by: &By,
        steps: [Step<WidgetCmd>; 3],
    ) -> [Reply; 3];

    /// Hands a command over that was posted while the tree's lock was held.
    fn hand_over(&mut self, rt: &(impl Abort + AllocGlobal), leaf: LeafId, cmd: WidgetCmd);

    /// Gives a command away that was posted while the tree's lock was held.
    fn give(&mut self, rt: &(impl Abort + AllocGlobal), leaf: LeafId, cmd: WidgetCmd);

    /// Flushes a leaf with a sketch of its present content, which has all of its window.
    fn flush_with(&mut self, rt: &(impl Abort + AllocGlobal), by: &By, leaf: LeafId) -> Reply;

    /// Paints a leaf's bad points apart from the screen, and puts them there.
    fn repaint_apart(&mut self, rt: &impl Abort, leaf: LeafId);

    /// The first difference between the stage and what is handed in: its own opening, no journal, and this
    /// one step of a leaf.
    fn difference(
        &self,
        rt: &(impl Abort + AllocGlobal),
        leaf: LeafId,
        step: Step<WidgetCmd>,
    ) -> Option<Difference<WidgetCmd>>;

    fn settle(&mut self) -> Result<(), NoMemory>;

    fn peek(&self) -> Result<Peek, NoMemory>;

    /// The size of the screen.
    fn size(&self) -> Size;

    /// A row of the screen.
    fn row(&self, rt: &impl Abort, v: u16) -> &[u8];

    /// How many entries the journal has.
    fn entries(&self) -> usize;

    /// Whether the journal has this entry behind `k` others.
    fn has_entry(&self, rt: &impl Abort, k: usize, entry: &Entry<WidgetCmd>) -> bool;

    /// What the entry behind `k` others sent.
    fn sent(&self, rt: &impl Abort, k: usize) -> &[Delivery];

    /// How many events wait for a leaf.
    fn waiting(&self, rt: &impl Abort, leaf: LeafId) -> usize;

    /// The event that waits behind `i` others.
    fn event(&self, rt: &impl Abort, leaf: LeafId, i: usize) -> Event;

    /// How many events for a leaf were dropped.
    fn dropped(&self, rt: &impl Abort, leaf: LeafId) -> u32;

    /// What others read who read a leaf's content.
    fn value(&self, rt: &(impl Abort + AllocGlobal), leaf: LeafId) -> Line;

    /// How many paint commands wait for a leaf.
    fn commands(&self, rt: &impl Abort, leaf: LeafId) -> usize;

    /// The size of a leaf's window.
    fn leaf_size(&self, rt: &impl Abort, leaf: LeafId) -> Size;

    /// The size of the screen, as the tree has it.
    fn tree_size(&self) -> Size;

    /// The glyph of A.
    fn glyph(&self) -> [u8; 8];

    /// Whether a point is bad.
    fn is_bad(&self, p: Point) -> bool;

    /// Where the cursor is.
    fn cursor(&self) -> Point;

    /// Who owns a selection.
    fn owner(&self, selection: Selection) -> Option<LeafId>;
}

/// Each is one call, of a function without conditions: so the proof needn't write the laws out.
impl Played for Stage<Widget> {
    fn start(rt: &(impl Abort + AllocGlobal), size: Size, parts: &[Part]) -> Self {
        calls::start(rt, size, parts)
    }

    fn again(&self, rt: &(impl Abort + AllocGlobal)) -> Self {
        calls::again(rt, self)
    }

    fn make(&mut self, rt: &impl Abort, by: &By, step: Step<WidgetCmd>) -> Result<Reply, NoMemory> {
        calls::make(rt, self, by, step)
    }

    fn make_reserved(&mut self, rt: &impl Abort, by: &By, step: Step<WidgetCmd>) -> Reply {
        calls::make_reserved(rt, self, by, step)
    }

    fn make_three_reserved(
        &mut self,
        rt: &impl Abort,
        by: &By,
        steps: [Step<WidgetCmd>; 3],
    ) -> [Reply; 3] {
        calls::make_three_reserved(rt, self, by, steps)
    }

    fn hand_over(&mut self, rt: &(impl Abort + AllocGlobal), leaf: LeafId, cmd: WidgetCmd) {
        calls::hand_over(rt, self, leaf, cmd);
    }

    fn give(&mut self, rt: &(impl Abort + AllocGlobal), leaf: LeafId, cmd: WidgetCmd) {
        calls::give(rt, self, leaf, cmd);
    }

    fn flush_with(&mut self, rt: &(impl Abort + AllocGlobal), by: &By, leaf: LeafId) -> Reply {
        calls::flush_with(rt, self, by, leaf)
    }

    fn repaint_apart(&mut self, rt: &impl Abort, leaf: LeafId) {
        calls::repaint_apart(rt, self, leaf);
    }

    fn difference(
        &self,
        rt: &(impl Abort + AllocGlobal),
        leaf: LeafId,
        step: Step<WidgetCmd>,
    ) -> Option<Difference<WidgetCmd>> {
        calls::difference(rt, self, leaf, step)
    }

    fn settle(&mut self) -> Result<(), NoMemory> {
        calls::settle(self)
    }

    fn peek(&self) -> Result<Peek, NoMemory> {
        calls::peek(self)
    }

    fn size(&self) -> Size {
        calls::size(self)
    }

    fn row(&self, rt: &impl Abort, v: u16) -> &[u8] {
        calls::row(rt, self, v)
    }

    fn entries(&self) -> usize {
        calls::entries(self)
    }

    fn has_entry(&self, rt: &impl Abort, k: usize, entry: &Entry<WidgetCmd>) -> bool {
        calls::has_entry(rt, self, k, entry)
    }

    fn sent(&self, rt: &impl Abort, k: usize) -> &[Delivery] {
        calls::sent(rt, self, k)
    }

    fn waiting(&self, rt: &impl Abort, leaf: LeafId) -> usize {
        calls::waiting(rt, self, leaf)
    }

    fn event(&self, rt: &impl Abort, leaf: LeafId, i: usize) -> Event {
        calls::event(rt, self, leaf, i)
    }

    fn dropped(&self, rt: &impl Abort, leaf: LeafId) -> u32 {
        calls::dropped(rt, self, leaf)
    }

    fn value(&self, rt: &(impl Abort + AllocGlobal), leaf: LeafId) -> Line {
        calls::value(rt, self, leaf)
    }

    fn commands(&self, rt: &impl Abort, leaf: LeafId) -> usize {
        calls::commands(rt, self, leaf)
    }

    fn leaf_size(&self, rt: &impl Abort, leaf: LeafId) -> Size {
        calls::leaf_size(rt, self, leaf)
    }

    fn tree_size(&self) -> Size {
        calls::tree_size(self)
    }

    fn glyph(&self) -> [u8; 8] {
        calls::glyph(self)
    }

    fn is_bad(&self, p: Point) -> bool {
        calls::is_bad(self, p)
    }

    fn cursor(&self) -> Point {
        calls::cursor(self)
    }

    fn owner(&self, selection: Selection) -> Option<LeafId> {
        calls::owner(self, selection)
    }
}
