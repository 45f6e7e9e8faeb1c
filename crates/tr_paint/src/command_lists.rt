ghost use Rattle.std.specs.Prelude.{◌≡◌, ◌<◌, ◌++◌, ◌∷◌, [], length, slice_get, take, Some, IsTrue, false, IfErr, OnOk, OnErr, vec_len, vec_capacity};
ghost use Rattle.tr_paint.specs.Views.{viewed};
ghost use Rattle.tr_paint.specs.CommandLists.{IsNoText};

use crate::paints::Paint;
use crate::places::{
    MOST_KEPT, Places, TextAt, is_scroll_at, is_text_at, is_tint_at, place_of_scroll,
    place_of_text, place_of_tint, store, view_of,
};
use crate::views::PaintView;
use std::alloc::Global;
use std::marker::Model;
use tr_base::{Line, NoMemory, Op, Pair, Point, Rect};

/// Paint commands in their order. A tint or a scroll that repeats the last one of its sort shares its stored
/// command, and so does a text with the operations and the clip of the last one. Such a command takes 8
/// bytes, and a text 16 more, beside its bytes.
#[derive(Debug, Drop)]
pub(crate) struct CommandList {
    /// The stored commands. A text's own bytes and point are in `texts`; those in here belong to the first
    /// text that shares the command.
    stored: Vec<Paint>,
    texts: Vec<TextAt>,
    /// The places of each command.
    places: Vec<Places>,
    /// The places at which the last tint, the last text and the last scroll are stored. They are hints: each
    /// is tested.
    tint: u32,
    text: u32,
    scroll: u32,
}

impl Model for CommandList {
    ghost use Rattle.std.specs.Prelude.{List, map};
    ghost use Rattle.tr_paint.specs.declared.paints.Paint.{Paint};
    ghost use Rattle.tr_paint.specs.CommandLists.{HaveParts, command_at_places};

    ghost Value = { List Paint };

    ghost view = { λ p. map (command_at_places p.stored.items p.texts.items) p.places.items };

    ghost invariant = { λ p. HaveParts p.stored.items p.texts.items p.places.items };
}

impl CommandList {
    /// A list with no command.
    pub fn new(alloc: Global) -> CommandList
        ensures { result ≡ [] }
    {
        CommandList {
            stored: Vec::new(alloc),
            texts: Vec::new(alloc),
            places: Vec::new(alloc),
            tint: 0,
            text: 0,
            scroll: 0,
        }
    }

    /// Its allocator.
    pub fn alloc(&self) -> Global {
        *self.places.allocator()
    }

    /// Appends a tint.
    pub fn push_tint(&mut self, clip: Rect, op: Op) -> Result<(), NoMemory>
        ensures ok { OnOk result (self.new ≡ self.old ++ Paint.Tint clip op ∷ []) }
        ensures err { OnErr result (self.new ≡ self.old) }
    {
        self.places.reserve(1)?;
        let command = place_of_tint(&mut self.stored, self.tint, clip, op)?;
        self.tint = command;
        self.places.push_reserved(Places { command, text: 0 });
        Ok(())
    }

    /// Appends a tint if it repeats the last one and there is room, and tells whether it did.
    #[inline(always)]
    pub fn repeat_tint(&mut self, clip: &Rect, op: &Op) -> bool
        ensures some { IsTrue result → self.new ≡ self.old ++ Paint.Tint clip.now op.now ∷ [] }
        ensures none { result ≡ false → self.new ≡ self.old }
    {
        if !has_room(&self.places) || !is_tint_at(&self.stored, self.tint, clip, op) {
            return false;
        }
        self.places.push_reserved(Places {
            command: self.tint,
            text: 0,
        });
        true
    }

    /// Appends a scroll if it repeats the last one and there is room, and tells whether it did.
    #[inline(always)]
    pub fn repeat_scroll(&mut self, clip: &Rect, delta: Point) -> bool
        ensures some { IsTrue result → self.new ≡ self.old ++ Paint.Scroll clip.now delta ∷ [] }
        ensures none { result ≡ false → self.new ≡ self.old }
    {
        if !has_room(&self.places) || !is_scroll_at(&self.stored, self.scroll, clip, delta) {
            return false;
        }
        self.places.push_reserved(Places {
            command: self.scroll,
            text: 0,
        });
        true
    }

    /// Appends a text if it has the operations and the clip of the last one and there is room. Otherwise it
    /// comes back.
    #[inline(always)]
    pub fn repeat_text(
        &mut self,
        ops: &Pair,
        clip: &Rect,
        at: Point,
        text: Line,
    ) -> Result<(), Line>
        ensures ok { OnOk result (self.new ≡ self.old ++ Paint.Text ops.now clip.now at text ∷ []) }
        ensures err { OnErr result (self.new ≡ self.old) }
        ensures back { IfErr result (λ t. t ≡ text) }
    {
        let next = self.texts.len();
        if next >= MOST_KEPT
            || !has_room(&self.texts)
            || !has_room(&self.places)
            || !is_text_at(&self.stored, self.text, ops, clip)
        {
            return Err(text);
        }
        self.texts.push_reserved(TextAt { at, text });
        self.places.push_reserved(Places {
            command: self.text,
            text: next as u32,
        });
        Ok(())
    }

    /// Appends a scroll.
    pub fn push_scroll(&mut self, clip: Rect, delta: Point) -> Result<(), NoMemory>
        ensures ok { OnOk result (self.new ≡ self.old ++ Paint.Scroll clip delta ∷ []) }
        ensures err { OnErr result (self.new ≡ self.old) }
    {
        self.places.reserve(1)?;
        let command = place_of_scroll(&mut self.stored, self.scroll, clip, delta)?;
        self.scroll = command;
        self.places.push_reserved(Places { command, text: 0 });
        Ok(())
    }

    /// Appends a text.
    pub fn push_text(
        &mut self,
        ops: Pair,
        clip: Rect,
        at: Point,
        text: Line,
    ) -> Result<(), NoMemory>
        ensures ok { OnOk result (self.new ≡ self.old ++ Paint.Text ops clip at text ∷ []) }
        ensures err { OnErr result (self.new ≡ self.old) }
    {
        let place = self.texts.len();
        if place >= MOST_KEPT {
            return Err(NoMemory);
        }
        self.places.reserve(1)?;
        self.texts.reserve(1)?;
        let command = place_of_text(&mut self.stored, self.text, ops, clip, at, &text)?;
        self.text = command;
        self.texts.push_reserved(TextAt { at, text });
        self.places.push_reserved(Places {
            command,
            text: place as u32,
        });
        Ok(())
    }

    /// Appends a command that isn't a text. It is stored in any case.
    pub fn push_whole(&mut self, paint: Paint) -> Result<(), NoMemory>
        requires { IsNoText paint }
        ensures ok { OnOk result (self.new ≡ self.old ++ paint ∷ []) }
        ensures err { OnErr result (self.new ≡ self.old) }
    {
        self.places.reserve(1)?;
        let command = store(&mut self.stored, paint)?;
        self.places.push_reserved(Places { command, text: 0 });
        Ok(())
    }

    /// Makes room for `more` commands that repeat the last one of their sort, among them `texts` texts.
    pub fn reserve(&mut self, more: usize, texts: usize) -> Result<(), NoMemory>
        ensures { self.new ≡ self.old }
    {
        self.places.reserve(more)?;
        self.texts.reserve(texts)?;
        Ok(())
    }

    /// The number of its commands.
    pub fn len(&self) -> usize
        ensures { result ≡ length self.now }
    {
        self.places.len()
    }

    /// The number of texts that it keeps.
    pub fn text_count(&self) -> usize {
        self.texts.len()
    }

    /// The command at index `i`, counted from 0.
    #[inline(always)]
    pub fn get(&self, i: usize) -> PaintView<'_>
        requires { i < length self.now }
        ensures { slice_get self.now i ≡ Some (viewed result) }
    {
        let own = self.places[i];
        view_of(&self.stored[own.command as usize], &self.texts, own.text)
    }

    /// Removes all commands.
    pub fn clear(&mut self)
        ensures { self.new ≡ [] }
    {
        self.places.clear();
        self.texts.clear();
        self.stored.clear();
    }

    /// Removes all commands after the first `count`. What is stored of the others stays until the list is
    /// cleared.
    pub fn truncate(&mut self, count: usize)
        ensures { self.new ≡ take count self.old }
    {
        self.places.truncate(count);
    }
}

/// Whether a list has room for one more element.
#[inline(always)]
fn has_room<T: Drop>(list: &Vec<T>) -> bool
    ensures { IsTrue result → vec_len list.now < vec_capacity list.now }
{
    list.len() < list.capacity()
}
