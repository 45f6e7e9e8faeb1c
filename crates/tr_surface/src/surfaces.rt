ghost use Rattle.std.specs.Prelude.{◌≡◌, ◌<◌, ◌&&◌, not, [], length, IfOk};
ghost use Rattle.tr_base.specs.declared.Point.{Point};
ghost use Rattle.tr_base.specs.declared.NodeId.{NodeId};
ghost use Rattle.tr_region.specs.Points.{holds};
ghost use Rattle.tr_screen.specs.Pictures.{blank_of};
ghost use Rattle.tr_forest.specs.Nodes.{IsNode, leaf_count};
ghost use Rattle.tr_spot.specs.Spots.{HasRoot, spot, is_in_leaf, region_of};
ghost use Rattle.tr_surface.specs.Surfaces.{IsShown, is_bad, is_on};

use crate::formers::Former;
use std::alloc::Global;
use std::marker::Model;
use tr_base::{LeafId, NoMemory, NodeId};
use tr_region::Region;
use tr_screen::Screen;
use tr_tree::Tree;

/// The screen of a tree of windows: its pixels, and its bad points, which must be painted
/// again.
#[derive(Drop)]
pub struct Surface {
    pub(crate) alloc: Global,
    pub(crate) tree: Tree,
    /// The tree before the last edit. There is none before the first edit, nor after an `alter` that took it,
    /// until `keep_former` is called.
    pub(crate) former: Option<Former>,
    /// The good points of each node, by the nodes' numbers. They are its own: visible points of a leaf,
    /// points of another node's frame. All others are bad.
    pub(crate) good: Vec<Region>,
    pub(crate) screen: Screen,
}

impl Model for Surface {
    ghost use Rattle.std.specs.Prelude.{IfSome};
    ghost use Rattle.tr_surface.specs.Surfaces.{Shown, IsShown};
    ghost use Rattle.tr_surface.specs.Formers.{IsFormer};

    ghost Value = { Shown };

    ghost view = { λ s. record { tree = s.tree; screen = s.screen; good = s.good.items } };

    ghost invariant = { λ s.
        IsShown (record { tree = s.tree; screen = s.screen; good = s.good.items })
        × IfSome s.former (IsFormer s.tree) };
}

impl Surface {
    /// A blank screen of the tree's size and kind. Each of its points is bad.
    pub fn new(alloc: Global, tree: Tree) -> Result<Surface, NoMemory>
        requires { HasRoot tree }
        ensures tree { IfOk result (λ s. s.tree ≡ tree) }
        ensures screen { IfOk result (λ s. s.screen ≡ blank_of tree.size tree.kind) }
        ensures bad_all { IfOk result (λ s. (p : Point) → is_bad s p ≡ is_on s.tree p) }
    {
        let Ok(good) = empty_regions(alloc, tree.count()) else {
            drop(tree);
            return Err(NoMemory);
        };
        let Ok(screen) = Screen::blank(alloc, tree.size(), tree.kind()) else {
            drop((tree, good));
            return Err(NoMemory);
        };
        Ok(Surface {
            alloc,
            tree,
            former: None,
            good,
            screen,
        })
    }

    /// Tells the invariant of surfaces. Nothing runs.
    pub fn invariant(&self)
        ensures { IsShown self.now }
    {
        let _tree = self.tree();
    }

    /// The tree of windows.
    pub fn tree(&self) -> &Tree
        ensures value { result.now ≡ self.now.tree }
        ensures invariant { IsShown self.now }
    {
        &self.tree
    }

    /// The pixels.
    pub fn screen(&self) -> &Screen
        ensures { result.now ≡ self.now.screen }
    {
        &self.screen
    }

    /// The visible points of a leaf.
    pub fn visible(&self, leaf: LeafId) -> Result<Region, NoMemory>
        requires { leaf.0 < leaf_count self.now.tree.nodes }
        ensures { IfOk result (λ r. (p : Point) → holds r p ≡ is_in_leaf leaf (spot self.now.tree p)) }
    {
        tr_spot::visible(self.alloc, &self.tree, leaf)
    }

    /// The visible points of a leaf that aren't bad.
    pub fn good_of(&self, leaf: LeafId) -> &Region
        requires { leaf.0 < leaf_count self.now.tree.nodes }
        ensures { (p : Point) →
            holds result.now p ≡ is_in_leaf leaf (spot self.now.tree p) && not (is_bad self.now p) }
    {
        self.tree.invariant();
        self.good(self.tree.node_of(leaf))
    }

    /// The good points of a node.
    pub(crate) fn good(&self, n: NodeId) -> &Region
        requires { IsNode self.now.tree.nodes n }
        ensures { result.now ≡ region_of self.now.good n }
    {
        &self.good[usize::from(n.0)]
    }
}

/// This number of empty regions.
pub(crate) fn empty_regions(alloc: Global, count: usize) -> Result<Vec<Region>, NoMemory>
    ensures count { IfOk result (λ r. length r.items ≡ count) }
    ensures empty { IfOk result (λ r. (n : NodeId) → region_of r.items n ≡ []) }
{
    let mut regions = Vec::with_capacity(alloc, count)?;
    for _n in 0..count {
        let Ok(()) = regions.push(Region::empty(alloc)) else {
            drop(regions);
            return Err(NoMemory);
        };
    }
    Ok(regions)
}
