//! Calls of a stage, each behind the conditions that it asks for: where one doesn't hold, the test ends. They
//! are proved of the contents of every client, whose pictures they needn't know.
ghost use Rattle.std.specs.Prelude.{◌≡◌, ◌<◌, ◌≤◌, ◌+◌, true};
ghost use Rattle.tr_forest.specs.Nodes.{leaf_count};
ghost use Rattle.tr_journal.specs.Openings.{tree_of};
ghost use Rattle.tr_journal.specs.Steps.{IsFor};
ghost use Rattle.tr_stage.specs.Stages as spec;

use super::acts::By;
use super::ends::made;
use super::openings::{Part, Sample, opening_of};
use std::process::Abort;
use tr_base::{Env, Event, LeafId, Line, NoMemory, Point, Selection, Size, whole};
use tr_book::Book;
use tr_client::{Client, Prepared};
use tr_journal::{
    Actor, Attempt, Delivery, Difference, Entry, Journal, Lists, Opening, Reply, Step, are_levels,
    covers, is_step, may,
};
use tr_levels::{Held, Level};
use tr_sketch::{Sketch, fits_screen};
use tr_stage::{Peek, Stage, is_reservable};

/// Ends the test where the step may not be made.
fn allow<C: Client>(rt: &impl Abort, stage: &Stage<C>, attempt: &Attempt<C::Cmd>)
    ensures { IsFor (tree_of stage.now.opening).nodes
        attempt.now.actor attempt.now.level attempt.now.step }
{
    assert!(rt; may(attempt.actor, &attempt.step) && covers(attempt.level, &attempt.step));
    let tree = stage.opening().tree();
    assert!(rt; are_levels(tree, &attempt.level) && is_step(tree, &attempt.step));
}

/// The step, made so.
fn attempt_of<M>(by: &By, step: Step<M>) -> Attempt<M>
    ensures { result ≡ record { actor = by.now.actor; level = by.now.level; step = step } }
{
    Attempt {
        actor: by.actor,
        level: by.level,
        step,
    }
}

/// Ends the test where room may not be reserved for the step.
fn allow_reserved<M>(rt: &impl Abort, step: &Step<M>)
    ensures { spec.is_reservable step.now ≡ true }
{
    assert!(rt; is_reservable(step));
}

/// Ends the test where there is no such leaf.
fn allow_leaf<C: Client>(rt: &impl Abort, stage: &Stage<C>, leaf: LeafId)
    ensures { leaf.0 < leaf_count (tree_of stage.now.opening).nodes }
{
    assert!(rt; leaf.0 < stage.opening().tree().leaves());
}

/// The stage of an opening whose root was set.
fn begin<C: Client>(rt: &(impl Abort + AllocGlobal), opening: Opening<C>) -> Stage<C> {
    assert!(rt; opening.is_ready());
    made(rt, Stage::start(rt.alloc(), opening))
}

pub fn start<C: Client + Sample>(
    rt: &(impl Abort + AllocGlobal),
    size: Size,
    parts: &[Part],
) -> Stage<C> {
    begin(rt, opening_of(rt, size, parts))
}

pub fn again<C: Client>(rt: &(impl Abort + AllocGlobal), stage: &Stage<C>) -> Stage<C> {
    begin(rt, made(rt, stage.opening().copy()))
}

pub fn make<C: Client>(
    rt: &impl Abort,
    stage: &mut Stage<C>,
    by: &By,
    step: Step<C::Cmd>,
) -> Result<Reply, NoMemory> {
    let attempt = attempt_of(by, step);
    allow(rt, stage, &attempt);
    stage.step(attempt)
}

/// Makes a step for which there is room.
fn reserved<C: Client>(rt: &impl Abort, stage: &mut Stage<C>, by: &By, step: Step<C::Cmd>) -> Reply
    requires { 0 < stage.old.spare }
    ensures { stage.old.spare ≤ stage.new.spare + 1 }
{
    let attempt = attempt_of(by, step);
    allow(rt, stage, &attempt);
    allow_reserved(rt, &attempt.step);
    stage.step_reserved(attempt)
}

pub fn make_reserved<C: Client>(
    rt: &impl Abort,
    stage: &mut Stage<C>,
    by: &By,
    step: Step<C::Cmd>,
) -> Reply {
    made(rt, stage.reserve(1));
    reserved(rt, stage, by, step)
}

pub fn make_three_reserved<C: Client>(
    rt: &impl Abort,
    stage: &mut Stage<C>,
    by: &By,
    steps: [Step<C::Cmd>; 3],
) -> [Reply; 3] {
    made(rt, stage.reserve(3));
    let [first, second, third] = steps;
    let first = reserved(rt, stage, by, first);
    let second = reserved(rt, stage, by, second);
    let third = reserved(rt, stage, by, third);
    [first, second, third]
}

/// Hands a command over that was posted while the tree's lock was held.
pub fn hand_over<C: Client>(
    rt: &(impl Abort + AllocGlobal),
    stage: &mut Stage<C>,
    leaf: LeafId,
    cmd: C::Cmd,
) {
    allow_leaf(rt, stage, leaf);
    let content = made(rt, stage.content(leaf).copy(rt.alloc()));
    let (size, kind) = (stage.leaf_size(leaf), stage.tree().kind());
    let mut book = made(
        rt,
        Book::fresh(rt.alloc(), content, stage.font(), size, kind),
    );
    made(rt, book.post(Held::none().with(Level::Mu), cmd));
    book.invariant();
    made(rt, stage.take_over(leaf, book.prepared(), book.levels()));
}

/// Gives a command away that was posted while the tree's lock was held.
pub fn give<C: Client>(
    rt: &(impl Abort + AllocGlobal),
    stage: &mut Stage<C>,
    leaf: LeafId,
    cmd: C::Cmd,
) {
    allow_leaf(rt, stage, leaf);
    let content = made(rt, stage.content(leaf).copy(rt.alloc()));
    let (size, kind) = (stage.leaf_size(leaf), stage.tree().kind());
    let mut book = made(
        rt,
        Book::fresh(rt.alloc(), content, stage.font(), size, kind),
    );
    made(rt, book.post(Held::none().with(Level::Mu), cmd));
    let left = made(rt, book.prepared().to.copy(rt.alloc()));
    let spare = made(
        rt,
        Prepared::fresh(rt.alloc(), left, stage.font(), size, kind),
    );
    let (prepared, levels) = book.give(spare);
    made(rt, stage.take_all(leaf, prepared, &levels));
}

/// Flushes a leaf with a sketch of its present content, which has all of its window.
pub fn flush_with<C: Client>(
    rt: &(impl Abort + AllocGlobal),
    stage: &mut Stage<C>,
    by: &By,
    leaf: LeafId,
) -> Reply {
    allow(rt, stage, &attempt_of(by, Step::Flush { leaf }));
    let size = stage.leaf_size(leaf);
    let all = whole(size);
    assert!(rt; fits_screen(size, &all));
    let content = made(rt, stage.content(leaf).copy(rt.alloc()));
    let env = Env {
        kind: stage.tree().kind(),
        font: stage.font(),
    };
    let sketch = made(rt, Sketch::paint(rt.alloc(), content, &env, size, &all));
    made(rt, stage.flush_with(by.actor, by.level, leaf, &sketch))
}

/// Paints a leaf's bad points apart from the screen, and puts them there.
pub fn repaint_apart<C: Client>(rt: &impl Abort, stage: &mut Stage<C>, leaf: LeafId) {
    allow_leaf(rt, stage, leaf);
    assert!(rt; stage.batch(leaf).is_empty());
    let painted = made(rt, stage.paint_bad(leaf));
    made(rt, stage.put_painted(painted));
}

/// The first difference between a stage and what is handed in: its own opening, no journal, and this one step
/// of a leaf.
pub fn difference<C: Client>(
    rt: &(impl Abort + AllocGlobal),
    stage: &Stage<C>,
    leaf: LeafId,
    step: Step<C::Cmd>,
) -> Option<Difference<C::Cmd>> {
    allow_leaf(rt, stage, leaf);
    let mut lists = made(rt, Lists::new(rt.alloc(), stage.opening().tree().leaves()));
    made(rt, lists.add(Actor::Leaf(leaf), step));
    made(
        rt,
        stage.audit(stage.opening(), &Journal::new(rt.alloc()), &lists),
    )
}

pub fn settle<C: Client>(stage: &mut Stage<C>) -> Result<(), NoMemory> {
    stage.settle()
}

pub fn peek<C: Client>(stage: &Stage<C>) -> Result<Peek, NoMemory> {
    stage.peek()
}

pub fn size<C: Client>(stage: &Stage<C>) -> Size {
    stage.screen().size()
}

pub fn row<'a, C: Client>(rt: &impl Abort, stage: &'a Stage<C>, v: u16) -> &'a [u8] {
    let screen = stage.screen();
    assert!(rt; v < screen.size().high);
    screen.row(v)
}

pub fn entries<C: Client>(stage: &Stage<C>) -> usize {
    stage.journal().len()
}

pub fn has_entry<C: Client>(
    rt: &impl Abort,
    stage: &Stage<C>,
    k: usize,
    entry: &Entry<C::Cmd>,
) -> bool {
    let journal = stage.journal();
    assert!(rt; k < journal.len());
    journal.get(k).same(entry)
}

pub fn sent<'a, C: Client>(rt: &impl Abort, stage: &'a Stage<C>, k: usize) -> &'a [Delivery] {
    let journal = stage.journal();
    assert!(rt; k < journal.len());
    journal.sent(k)
}

pub fn waiting<C: Client>(rt: &impl Abort, stage: &Stage<C>, leaf: LeafId) -> usize {
    allow_leaf(rt, stage, leaf);
    stage.inbox(leaf).waiting()
}

pub fn event<C: Client>(rt: &impl Abort, stage: &Stage<C>, leaf: LeafId, i: usize) -> Event {
    allow_leaf(rt, stage, leaf);
    let inbox = stage.inbox(leaf);
    assert!(rt; i < inbox.waiting());
    inbox.get(i)
}

pub fn dropped<C: Client>(rt: &impl Abort, stage: &Stage<C>, leaf: LeafId) -> u32 {
    allow_leaf(rt, stage, leaf);
    stage.inbox(leaf).dropped()
}

pub fn value<C: Client>(rt: &(impl Abort + AllocGlobal), stage: &Stage<C>, leaf: LeafId) -> Line {
    allow_leaf(rt, stage, leaf);
    made(rt, stage.content(leaf).value(rt.alloc()))
}

pub fn commands<C: Client>(rt: &impl Abort, stage: &Stage<C>, leaf: LeafId) -> usize {
    allow_leaf(rt, stage, leaf);
    stage.batch(leaf).len()
}

pub fn leaf_size<C: Client>(rt: &impl Abort, stage: &Stage<C>, leaf: LeafId) -> Size {
    allow_leaf(rt, stage, leaf);
    stage.leaf_size(leaf)
}

pub fn tree_size<C: Client>(stage: &Stage<C>) -> Size {
    stage.tree().size()
}

pub fn glyph<C: Client>(stage: &Stage<C>) -> [u8; 8] {
    stage.font().glyph_of(b'A')
}

pub fn is_bad<C: Client>(stage: &Stage<C>, p: Point) -> bool {
    match bad_has(stage, p) {
        Ok(is_bad) => is_bad,
        // A run that refuses one growth gives the memory when it is asked for again.
        Err(NoMemory) => matches!(bad_has(stage, p), Ok(true)),
    }
}

/// Whether the point is bad.
fn bad_has<C: Client>(stage: &Stage<C>, p: Point) -> Result<bool, NoMemory> {
    Ok(stage.bad()?.has(p))
}

pub fn cursor<C: Client>(stage: &Stage<C>) -> Point {
    stage.desk().cursor()
}

pub fn owner<C: Client>(stage: &Stage<C>, selection: Selection) -> Option<LeafId> {
    stage.desk().owner(selection)
}
