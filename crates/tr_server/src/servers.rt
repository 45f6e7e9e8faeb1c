ghost use Rattle.std.specs.Prelude.{◌≡◌, ◌+◌, ◌*◌, ◌<◌, ◌≤◌, ◌++◌, ◌∷◌, [], length, vec_len, IfOk, IfErr, OnOk};
ghost use Rattle.tr_forest.specs.Nodes.{leaf_count};
ghost use Rattle.tr_journal.specs.declared.Actor.TheVariants.{Player};
ghost use Rattle.tr_journal.specs.declared.Step.{Step};
ghost use Rattle.tr_journal.specs.Openings.{font_of, tree_of};
ghost use Rattle.tr_journal.specs.Steps.{AreAsMany, IsStep};
ghost use Rattle.tr_stage.specs.Stages.{state};
ghost use Rattle.tr_server.specs.Passes.{AreFresh, fresh_pass};
ghost use Rattle.tr_server.specs.Servers.{AreLeavesInOrder};
ghost use Rattle.tr_server.specs.Sessions.{HasIds};

use crate::baskets::Basket;
use crate::locked::Locked;
use crate::passes::{Pass, Passes};
use crate::sessions::Session;
use crate::tree_locks::Mu;
use crate::windows::Window;
use crossbeam_utils::CachePadded;
use std::alloc::Global;
use std::marker::Model;
use std::sync::atomic::{AtomicBool, Ordering};
use std::sync::ledger::{Blank, Share};
use std::sync::{Mutex, MutexGuard, Wait};
use std::thread::yield_now;
use tr_base::{LeafId, NoMemory};
use tr_book::Book;
use tr_client::Client;
use tr_journal::{Actor, Opening};
use tr_levels::Ladder;
use tr_stage::Stage;

/// The number of times that a thread tests whether the tree's lock is free, before it sleeps until it is.
const MOST_LOOKS: u32 = 1000;

/// A stage with the tree's lock, and for each leaf a window, whose lock protects the waiting commands of its
/// client. The model is the opening and the journal with which it began.
#[derive(Drop)]
pub struct Server<C: Client, L: Session<C::Cmd>> {
    pub(crate) alloc: Global,
    pub(crate) locked: Mutex<Locked<C, L>>,
    pub(crate) windows: Vec<Window<C, L>>,
    pub(crate) opening: Opening<C>,
    /// The number of entries with which it began.
    pub(crate) entries: usize,
    /// Whether a thread has the tree's lock: a hint for those that wait for it. They read it all the time, so
    /// it is alone on its cache line.
    pub(crate) is_taken: CachePadded<AtomicBool>,
}

impl<C: Client, L: Session<C::Cmd>> Model for Server<C, L> {
    ghost use Rattle.std.specs.Prelude.{◌≡◌, length};
    ghost use Rattle.tr_server.specs.Servers.{AreLeavesInOrder, ServerView};
    ghost use Rattle.tr_server.specs.Sessions.{HasIds};

    ghost Value = { ServerView C C.Cmd };

    ghost view = { λ s. record { opening = s.opening; kept = L.kept } };

    ghost invariant = { λ s. HasIds L.nodes L.leaves s.opening × (length L.kept ≡ L.entries)
        × AreLeavesInOrder L.leaves s.windows.items × (s.entries ≡ L.entries) };
}

impl<C: Client, L: Session<C::Cmd>> Server<C, L> {
    /// Starts a session on a stage. No command waits in a window, and no step was made with a pass. If memory
    /// runs out, it returns the stage.
    pub fn start(
        alloc: Global,
        blank: Blank,
        stage: Stage<C>,
    ) -> Result<(Server<C, L>, Passes<C, L>), Stage<C>>
        requires name { blank.name ≡ L.name }
        requires parts { (blank.parts ≡ L.parts) × (L.parts ≡ 2 * L.leaves + 3) }
        requires ids { HasIds L.nodes L.leaves stage.opening }
        requires entries { length stage.journal ≡ L.entries }
        requires kept { stage.journal ≡ L.kept }
        requires font { font_of stage.opening ≡ L.font }
        ensures opening { IfOk result (λ r. r.0.opening ≡ stage.opening) }
        ensures kept { IfOk result (λ r. r.0.kept ≡ stage.journal) }
        ensures workers { IfOk result (λ r. AreFresh L.leaves r.1.workers.items) }
        ensures player { IfOk result (λ r. r.1.player ≡ fresh_pass Player) }
        ensures same { IfErr result (λ s. s ≡ stage) }
    {
        let (counted, all) = blank.open::<L>();
        let entries = stage.journal().len();
        let Ok(opening) = stage.opening().copy() else {
            return Err(stage);
        };
        let Ok((windows, passes)) = windows_and_passes(alloc, &stage, all) else {
            drop(opening);
            return Err(stage);
        };
        let server = Server {
            alloc,
            locked: Mutex::new(Locked::new(alloc, stage, counted)),
            windows,
            opening,
            entries,
            is_taken: CachePadded::new(AtomicBool::new(false)),
        };
        Ok((server, passes))
    }

    /// Takes the tree's lock. The thread must hold no lock before. A step that is valid for the server's
    /// opening is valid for the stage.
    pub fn enter<R: Wait>(&self, rt: &R, ladder: Ladder) -> Mu<'_, C, L>
        requires { ladder ≡ [] }
        ensures ids { AreAsMany (tree_of self.now.opening).nodes (tree_of result.opening).nodes }
        ensures steps { (step : Step C.Cmd) → IsStep (tree_of self.now.opening).nodes step →
            IsStep (tree_of result.opening).nodes step }
    {
        ladder.end();
        let guard = self.taken(rt);
        self.invariant();
        guard.invariant();
        self.is_taken.store(true, Ordering::SeqCst);
        Mu {
            guard,
            is_taken: &*self.is_taken,
        }
    }

    /// Takes the lock. A thread that finds it taken tests it again for a while, and yields to other threads,
    /// before it sleeps: most steps take less time than waking a thread. Meanwhile the thread only reads:
    /// an attempt to take the lock would take the lock's memory, and the data beside it, from the
    /// processor of the thread that holds it.
    fn taken<R: Wait>(&self, rt: &R) -> MutexGuard<'_, Locked<C, L>> {
        for _look in 0..MOST_LOOKS {
            if let Some(guard) = self.taken_if_free() {
                return guard;
            }
            yield_now();
        }
        self.locked.lock(rt)
    }

    /// Takes the lock, if it is free.
    fn taken_if_free(&self) -> Option<MutexGuard<'_, Locked<C, L>>> {
        if self.is_busy() {
            None
        } else {
            self.locked.try_lock()
        }
    }

    /// Whether a thread has the tree's lock. It promises nothing: a moment later the lock may be free.
    pub fn is_busy(&self) -> bool {
        self.is_taken.load(Ordering::SeqCst)
    }

    /// The window of a leaf.
    pub fn window(&self, leaf: LeafId) -> &Window<C, L>
        requires { leaf.0 < leaf_count (tree_of self.now.opening).nodes }
        ensures { result.now ≡ leaf }
    {
        &self.windows[usize::from(leaf.0)]
    }

    /// Tells the invariant of servers. Nothing runs.
    pub fn invariant(&self)
        ensures ids { HasIds L.nodes L.leaves self.now.opening }
        ensures entries { length self.now.kept ≡ L.entries }
    {
        let _opening = self.opening();
    }

    /// The opening with which it began.
    pub fn opening(&self) -> &Opening<C>
        ensures value { result.now ≡ self.now.opening }
        ensures invariant { HasIds L.nodes L.leaves self.now.opening }
        ensures entries { length self.now.kept ≡ L.entries }
    {
        &self.opening
    }
}

/// A window for each leaf, with no command waiting in its book, and the passes, with which no step was made.
fn windows_and_passes<C: Client, L: Session<C::Cmd>>(
    alloc: Global,
    stage: &Stage<C>,
    mut all: Share<L>,
) -> Result<(Vec<Window<C, L>>, Passes<C, L>), NoMemory>
    requires ids { HasIds L.nodes L.leaves stage.now.opening }
    requires font { font_of stage.now.opening ≡ L.font }
    requires parts { all.parts ≡ 2 * L.leaves + 3 }
    requires none { all.amount ≡ 0 }
    ensures windows { IfOk result (λ r. AreLeavesInOrder L.leaves r.0.items) }
    ensures workers { IfOk result (λ r. AreFresh L.leaves r.1.workers.items) }
    ensures player { IfOk result (λ r. r.1.player ≡ fresh_pass Player) }
{
    let leaves = stage.opening().tree().leaves();
    let windows = windows_of(alloc, stage, leaves, &mut all)?;
    let Ok(workers) = workers_of(alloc, leaves, &mut all) else {
        drop(windows);
        return Err(NoMemory);
    };
    let player = Pass::fresh(alloc, Actor::Player, all);
    Ok((windows, Passes { workers, player }))
}

/// The windows of this number of leaves, with no command waiting in their books.
fn windows_of<C: Client, L: Session<C::Cmd>>(
    alloc: Global,
    stage: &Stage<C>,
    leaves: u8,
    all: &mut Share<L>,
) -> Result<Vec<Window<C, L>>, NoMemory>
    requires leaves { leaves ≡ leaf_count (tree_of stage.now.opening).nodes }
    requires named { leaves ≡ L.leaves }
    requires font { font_of stage.now.opening ≡ L.font }
    requires parts { leaves < all.old.parts }
    requires none { all.old.amount ≡ 0 }
    ensures windows { IfOk result (λ v. AreLeavesInOrder leaves v.items) }
    ensures parts { OnOk result (all.new.parts + leaves ≡ all.old.parts) }
    ensures none { all.new.amount ≡ 0 }
{
    stage.invariant();
    let mut windows = Vec::with_capacity(alloc, usize::from(leaves))?;
    for n in 0..leaves {
        let leaf = LeafId(n);
        let book = book_of(alloc, stage, leaf)?;
        let basket = Basket::new(book, all.split_off(1, 0));
        windows.push(Window::new(leaf, basket))?;
    }
    Ok(windows)
}

/// A book for a leaf, from which no command was handed over, with no commands over its present content.
fn book_of<C: Client>(alloc: Global, stage: &Stage<C>, leaf: LeafId) -> Result<Book<C>, NoMemory>
    requires { leaf.0 < leaf_count (tree_of stage.now.opening).nodes }
    ensures handed { IfOk result (λ b. b.handed ≡ 0) }
    ensures font { IfOk result (λ b. b.prepared.font ≡ (state C.Client stage.now).font) }
{
    let content = stage.content(leaf).copy(alloc)?;
    let kind = stage.tree().kind();
    Book::fresh(alloc, content, stage.font(), stage.leaf_size(leaf), kind)
}

/// The passes of the leaves' clients, of the desk and of the painter.
fn workers_of<C: Client, L: Session<C::Cmd>>(
    alloc: Global,
    leaves: u8,
    all: &mut Share<L>,
) -> Result<Vec<Pass<C, L>>, NoMemory>
    requires parts { leaves + 2 < all.old.parts }
    requires none { all.old.amount ≡ 0 }
    ensures workers { IfOk result (λ v. AreFresh leaves v.items) }
    ensures parts { OnOk result (all.new.parts + (leaves + 2) ≡ all.old.parts) }
    ensures none { all.new.amount ≡ 0 }
{
    let mut workers = Vec::new(alloc);
    match add_workers(alloc, leaves, all, &mut workers) {
        Ok(()) => Ok(workers),
        Err(e) => {
            spend_all(workers);
            Err(e)
        }
    }
}

/// Adds these passes.
fn add_workers<C: Client, L: Session<C::Cmd>>(
    alloc: Global,
    leaves: u8,
    all: &mut Share<L>,
    workers: &mut Vec<Pass<C, L>>,
) -> Result<(), NoMemory>
    requires parts { leaves + 2 < all.old.parts }
    requires none { all.old.amount ≡ 0 }
    requires empty { workers.old.items ≡ [] }
    ensures workers { OnOk result (AreFresh leaves workers.new.items) }
    ensures parts { OnOk result (all.new.parts + (leaves + 2) ≡ all.old.parts) }
    ensures none { all.new.amount ≡ 0 }
{
    for n in 0..leaves {
        add_worker(alloc, Actor::Leaf(LeafId(n)), all, workers)?;
    }
    add_worker(alloc, Actor::Desk, all, workers)?;
    add_worker(alloc, Actor::Painter, all, workers)
}

/// Adds a pass with which no step was made.
fn add_worker<C: Client, L: Session<C::Cmd>>(
    alloc: Global,
    actor: Actor,
    all: &mut Share<L>,
    workers: &mut Vec<Pass<C, L>>,
) -> Result<(), NoMemory>
    requires parts { 1 < all.old.parts }
    requires none { all.old.amount ≡ 0 }
    ensures ok { OnOk result (workers.new.items ≡ workers.old.items ++ fresh_pass actor ∷ []) }
    ensures parts { all.new.parts + 1 ≡ all.old.parts }
    ensures none { all.new.amount ≡ 0 }
{
    let pass = Pass::fresh(alloc, actor, all.split_off(1, 0));
    if let Err(refused) = workers.push(pass) {
        refused.value.spend();
        return Err(NoMemory);
    }
    Ok(())
}

/// Spends passes.
pub(crate) fn spend_all<C: Client, L: Session<C::Cmd>>(workers: Vec<Pass<C, L>>) {
    let mut workers = workers;
    while let Some(pass) = workers.pop() {
        pass.spend();
    }
    workers.destroy_empty();
}
