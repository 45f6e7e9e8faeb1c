ghost use Rattle.std.specs.Prelude.{◌≡◌, ◌<◌, ◌≤◌, ◌+◌, length, [], IfErr, OnOk, OnErr};
ghost use Rattle.tr_forest.specs.Nodes.{leaf_count};
ghost use Rattle.tr_spot.specs.Spots.{HasRoot};
ghost use Rattle.tr_desk.specs.Faults.{time_fault, mouse_fault, own_fault, disown_fault};
ghost use Rattle.tr_mail.specs.Mails.{dated, send};
ghost use Rattle.tr_mail.specs.Deliveries as spec;

use crate::mails::{Mail, put_at};
use crate::outboxes::Outbox;
use tr_base::{Event, LeafId, Selection};
use tr_desk::DeskFault;
use tr_inbox::{CAPACITY, Delivery};
use tr_spot::{in_leaf, spot_at};
use tr_tree::Tree;

impl Mail {
    /// A button, from 1 to 5, goes down or up: the window that gets the event is told the cursor's
    /// place. From the first button that goes down to the last one that goes up this is the window
    /// under the cursor at the first one.
    pub fn mouse(
        &mut self,
        tree: &Tree,
        time: u32,
        button: u8,
        down: bool,
        out: &mut Outbox,
    ) -> Result<(), DeskFault>
        requires root { HasRoot tree.now }
        requires leaves { leaf_count tree.now.nodes ≡ length self.old.inboxes }
        requires first { 1 ≤ button }
        requires last { button ≤ 5 }
        ensures ok { OnOk result
            (record { mail = self.new; sent = out.new } ≡ spec.moused tree.now time button down self.old) }
        ensures few { length out.new ≤ 1 }
        ensures allowed { OnOk result (mouse_fault self.old.desk time button down ≡ None) }
        ensures fault { IfErr result (λ e. mouse_fault self.old.desk time button down ≡ Some e) }
        ensures err { OnErr result (self.new ≡ self.old) }
        ensures nothing { OnErr result (out.new ≡ []) }
    {
        out.clear();
        let cursor = self.desk.cursor();
        let spot = spot_at(tree, cursor);
        let (receiver, click) = self.desk.mouse(time, button, down, &spot)?;
        if let Some(leaf) = receiver {
            let at = in_leaf(tree, leaf, cursor);
            let event = Event::Mouse {
                time,
                click,
                button,
                at,
            };
            self.send_input(leaf, time, event, out);
        }
        Ok(())
    }

    /// A key is struck, by the keyboard's number for it: the owner of the selection Key is told.
    pub fn key(&mut self, time: u32, code: u8, out: &mut Outbox) -> Result<(), DeskFault>
        ensures ok { OnOk result
            (record { mail = self.new; sent = out.new } ≡ spec.keyed time code self.old) }
        ensures few { length out.new ≤ 1 }
        ensures allowed { OnOk result (time_fault self.old.desk time ≡ None) }
        ensures fault { IfErr result (λ e. time_fault self.old.desk time ≡ Some e) }
        ensures err { OnErr result (self.new ≡ self.old) }
        ensures nothing { OnErr result (out.new ≡ []) }
    {
        out.clear();
        let receiver = self.desk.key(time)?;
        if let Some(leaf) = receiver {
            self.send_input(leaf, time, Event::Key { time, code }, out);
        }
        Ok(())
    }

    /// A leaf takes a selection, at the time of the last event, which reached it. The previous owner,
    /// if that is another leaf, is told.
    pub fn own(
        &mut self,
        leaf: LeafId,
        selection: Selection,
        time: u32,
        out: &mut Outbox,
    ) -> Result<(), DeskFault>
        requires { leaf.0 < length self.old.inboxes }
        ensures ok { OnOk result
            (record { mail = self.new; sent = out.new } ≡ spec.owned leaf selection self.old) }
        ensures few { length out.new ≤ 1 }
        ensures allowed { OnOk result (own_fault self.old.desk leaf time ≡ None) }
        ensures fault { IfErr result (λ e. own_fault self.old.desk leaf time ≡ Some e) }
        ensures err { OnErr result (self.new ≡ self.old) }
        ensures nothing { OnErr result (out.new ≡ []) }
    {
        out.clear();
        let old = self.desk.own(leaf, selection, time)?;
        if let Some(old) = old {
            self.send(old, Event::Lost { selection }, out);
        }
        Ok(())
    }

    /// The owner of a selection gives it up. Nothing is sent.
    pub fn disown(
        &mut self,
        leaf: LeafId,
        selection: Selection,
        out: &mut Outbox,
    ) -> Result<(), DeskFault>
        ensures ok { OnOk result
            (record { mail = self.new; sent = out.new } ≡ spec.disowned selection self.old) }
        ensures allowed { OnOk result (disown_fault self.old.desk leaf selection ≡ None) }
        ensures fault { IfErr result (λ e. disown_fault self.old.desk leaf selection ≡ Some e) }
        ensures err { OnErr result (self.new ≡ self.old) }
        ensures nothing { out.new ≡ [] }
    {
        out.clear();
        self.desk.disown(leaf, selection)
    }

    /// Sends a mouse or key event to a leaf.
    fn send_input(&mut self, leaf: LeafId, time: u32, event: Event, out: &mut Outbox)
        requires leaf { leaf.0 < length self.old.inboxes }
        requires room { length out.old < 64 }
        ensures sent { record { mail = self.new; sent = out.new } ≡
            send leaf event (record { mail = dated leaf time self.old; sent = out.old }) }
        ensures few { length out.new ≡ length out.old + 1 }
    {
        if self.inbox(leaf).waiting() < CAPACITY {
            self.desk.delivered(leaf, time);
        }
        self.send(leaf, event, out);
    }

    /// Sends an event to a leaf.
    pub(crate) fn send(&mut self, leaf: LeafId, event: Event, out: &mut Outbox)
        requires leaf { leaf.0 < length self.old.inboxes }
        requires room { length out.old < 64 }
        ensures sent { record { mail = self.new; sent = out.new } ≡
            send leaf event (record { mail = self.old; sent = out.old }) }
        ensures few { length out.new ≡ length out.old + 1 }
    {
        let dropped = put_at(&mut self.inboxes, leaf, event);
        out.push(Delivery {
            leaf,
            event,
            dropped,
        });
    }
}
