ghost use Rattle.std.specs.Prelude.{◌≡◌, ◌<◌, Some, IfOk};
ghost use Rattle.tr_base.specs.declared.Point.{Point};
ghost use Rattle.tr_region.specs.Points.{holds};
ghost use Rattle.tr_client.specs.Laws.{IsWindowSize};
ghost use Rattle.tr_forest.specs.Forests.{IsForest};
ghost use Rattle.tr_forest.specs.Nodes.{leaf_count};
ghost use Rattle.tr_spot.specs.Spots.{HasRoot};
ghost use Rattle.tr_spot.specs.Leaves.{leaf_size};
ghost use Rattle.tr_mail.specs.Mails.{inbox_of};
ghost use Rattle.tr_journal.specs.Openings.{tree_of};
ghost use Rattle.tr_machine.specs.States.{leaf_batch, content_of};
ghost use Rattle.tr_machine.specs.Promises.{Agrees, Fits, IsSound, Lags};
ghost use Rattle.tr_machine.specs.Replays.{IsLegal};
ghost use Rattle.tr_stage.specs.Stages.{IsOf, state};
ghost use Rattle.tr_stage.specs.Standings.{Stands};

use crate::stages::Stage;
use tr_base::{Font, LeafId, NoMemory, Size};
use tr_client::Client;
use tr_desk::Desk;
use tr_inbox::Inbox;
use tr_journal::{Journal, Opening};
use tr_paint::Batch;
use tr_region::Region;
use tr_screen::Screen;
use tr_spot::leaf_size;
use tr_tree::Tree;

impl<C: Client> Stage<C> {
    /// Tells the invariant of stages. Nothing runs.
    pub fn invariant(&self)
        ensures stands { Stands C.Client self.now }
        ensures like { IsOf self.now.opening (state C.Client self.now) }
        ensures legal { IsLegal C.Client self.now.opening self.now.journal }
    {
        self.surface.invariant();
        self.surface.screen().invariant();
        let _tree = self.tree();
        let _journal = self.journal();
    }

    /// The pixels of the screen. A pixel with a wrong colour is bad, or a waiting command touches it.
    pub fn screen(&self) -> &Screen
        ensures value { result.now ≡ self.now.screen }
        ensures agrees { Agrees C.Client (state C.Client self.now) self.now.screen }
        ensures fits { Fits C.Client (state C.Client self.now) }
        ensures lags { Lags C.Client (state C.Client self.now) self.now.screen }
        ensures sound { IsSound C.Client (state C.Client self.now) }
    {
        self.surface.invariant();
        self.surface.screen()
    }

    /// The tree of windows. It has the nodes and leaves of the opening's tree.
    pub fn tree(&self) -> &Tree
        ensures value { result.now ≡ (state C.Client self.now).tree }
        ensures root { HasRoot result.now }
        ensures forest { IsForest result.now.nodes }
        ensures like { IsOf self.now.opening (state C.Client self.now) }
    {
        self.surface.tree()
    }

    /// The font.
    pub fn font(&self) -> &Font
        ensures { result.now ≡ (state C.Client self.now).font }
    {
        self.opening.font()
    }

    /// The points of the screen that need to be painted again.
    pub fn bad(&self) -> Result<Region, NoMemory>
        ensures { IfOk result (λ r. (p : Point) → holds r p ≡ (state C.Client self.now).bad p) }
    {
        self.surface.bad()
    }

    /// The present content of a leaf.
    pub fn content(&self, leaf: LeafId) -> &C
        requires { leaf.0 < leaf_count (tree_of self.now.opening).nodes }
        ensures content { content_of C.Client (state C.Client self.now) leaf ≡ Some result.now }
        ensures valid { C.valid result.now }
    {
        self.windows.content(leaf)
    }

    /// The waiting paint commands of a leaf.
    pub fn batch(&self, leaf: LeafId) -> &Batch
        requires { leaf.0 < leaf_count (tree_of self.now.opening).nodes }
        ensures { result.now ≡ leaf_batch C.Client (state C.Client self.now) leaf }
    {
        self.windows.batch(leaf)
    }

    /// The size of a leaf's window: 0 by 0 if the leaf gets no place.
    pub fn leaf_size(&self, leaf: LeafId) -> Size
        requires { leaf.0 < leaf_count (tree_of self.now.opening).nodes }
        ensures value { result ≡ leaf_size (state C.Client self.now).tree leaf }
        ensures window { IsWindowSize result }
    {
        leaf_size(self.surface.tree(), leaf)
    }

    /// The waiting events of a leaf.
    pub fn inbox(&self, leaf: LeafId) -> &Inbox
        requires { leaf.0 < leaf_count (tree_of self.now.opening).nodes }
        ensures { result.now ≡ inbox_of (state C.Client self.now).mail leaf }
    {
        self.mail.inbox(leaf)
    }

    /// The input devices, the owners of selections and the cages.
    pub fn desk(&self) -> &Desk
        ensures { result.now ≡ (state C.Client self.now).mail.desk }
    {
        self.mail.desk()
    }

    /// All steps so far.
    pub fn journal(&self) -> &Journal<C::Cmd>
        ensures value { result.now.lines ≡ self.now.journal }
        ensures spare { result.now.spare ≡ self.now.spare }
        ensures legal { IsLegal C.Client self.now.opening self.now.journal }
    {
        &self.journal
    }

    /// The opening at the start of the stage.
    pub fn opening(&self) -> &Opening<C>
        ensures { result.now ≡ self.now.opening }
    {
        &self.opening
    }
}
