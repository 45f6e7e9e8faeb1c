//! A client whose changes wait for those of another window's client.
ghost use Rattle.std.specs.Prelude.{◌≡◌};

use crate::waits::came;
use std::alloc::Global;
use std::marker::Model;
use std::sync::Arc;
use std::sync::atomic::{AtomicU32, Ordering};
use tr_base::{Env, Event, Line, NoMemory, Rect, Size};
use tr_client::Client;
use tr_paint::Batch;
use tr_widget::{Widget, WidgetCmd};

/// How far two clients have come.
#[derive(Drop)]
pub struct Changes {
    /// So many changes the first one has begun.
    first: AtomicU32,
    /// So many the second one has.
    second: AtomicU32,
    /// So many changes waited in vain.
    missed: AtomicU32,
}

impl Changes {
    /// Neither has begun one.
    pub fn none() -> Changes {
        Changes {
            first: AtomicU32::new(0),
            second: AtomicU32::new(0),
            missed: AtomicU32::new(0),
        }
    }

    /// Whether both have begun one, and none waited in vain.
    pub fn have_met(&self) -> bool {
        let first = self.first.load(Ordering::SeqCst);
        let second = self.second.load(Ordering::SeqCst);
        0 < first && 0 < second && self.missed.load(Ordering::SeqCst) == 0
    }

    /// The first or the second one begins a change.
    fn begin(&self, is_first: bool) {
        if is_first {
            self.meet(&self.first, &self.second);
        } else {
            self.meet(&self.second, &self.first);
        }
    }

    /// One begins a change, and waits until the other one has begun one, too.
    fn meet(&self, own: &AtomicU32, other: &AtomicU32) {
        own.fetch_add(1, Ordering::SeqCst);
        if !came(other, 1) {
            self.missed.fetch_add(1, Ordering::SeqCst);
        }
    }
}

/// A widget whose changes begin with this wait. The model is the widget.
#[derive(Drop)]
pub struct Waiter {
    widget: Widget,
    changes: Arc<Changes>,
    is_first: bool,
}

impl Model for Waiter {
    ghost use Rattle.tr_widget.specs.declared.Widget.{Widget};

    ghost Value = { Widget };

    ghost view = { λ w. w.widget };
}

impl Waiter {
    /// The first or the second one of two.
    pub fn new(widget: Widget, changes: Arc<Changes>, is_first: bool) -> Waiter
        ensures { result ≡ widget }
    {
        Waiter {
            widget,
            changes,
            is_first,
        }
    }
}

impl Client for Waiter {
    ghost use Rattle.tr_widget.specs.Widgets.{IsWidget, widget_pic, widget_next, widget_patch, widget_answer, widget_value, widget_keeps};
    ghost use Rattle.tr_widget.specs.WidgetLaws.{widget_contents, widget_answers, widget_patches, widget_empty_patches, widget_keeping, widget_kinds};

    type Cmd = WidgetCmd;

    ghost valid = { IsWidget };

    ghost pic = { widget_pic };

    ghost next = { widget_next };

    ghost patch = { widget_patch };

    ghost answer = { widget_answer };

    ghost value = { widget_value };

    ghost keeps = { widget_keeps };

    fn copy(&self, alloc: Global) -> Result<Waiter, NoMemory> {
        let widget = self.widget.copy(alloc)?;
        let Ok(changes) = Arc::try_clone(&self.changes) else {
            drop(widget);
            return Err(NoMemory);
        };
        Ok(Waiter::new(widget, changes, self.is_first))
    }

    fn same(&self, other: &Waiter) -> bool {
        self.widget.same(&other.widget)
    }

    fn paint(&self, alloc: Global, env: &Env, size: Size, clip: Rect) -> Result<Batch, NoMemory> {
        self.widget.paint(alloc, env, size, clip)
    }

    fn change(
        &self,
        alloc: Global,
        env: &Env,
        size: Size,
        cmd: &WidgetCmd,
    ) -> Result<(Waiter, Batch), NoMemory> {
        self.changes.begin(self.is_first);
        let (widget, patch) = self.widget.change(alloc, env, size, cmd)?;
        let Ok(changes) = Arc::try_clone(&self.changes) else {
            drop((widget, patch));
            return Err(NoMemory);
        };
        Ok((Waiter::new(widget, changes, self.is_first), patch))
    }

    fn react(&self, alloc: Global, event: &Event) -> Result<Option<WidgetCmd>, NoMemory> {
        self.widget.react(alloc, event)
    }

    fn value(&self, alloc: Global) -> Result<Line, NoMemory> {
        self.widget.value(alloc)
    }

    fn keeps(&self, from: Size, to: Size) -> Rect {
        self.widget.keeps(from, to)
    }

    ghost contents = { widget_contents };

    ghost answers = { widget_answers };

    ghost patches = { widget_patches };

    ghost empty_patches = { widget_empty_patches };

    ghost keeping = { widget_keeping };

    ghost kinds = { widget_kinds };
}
