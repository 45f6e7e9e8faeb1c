ghost use Rattle.std.specs.Prelude.{◌≡◌, ◌<◌, ◌∷◌, [], ◌++◌, length, get_or, set, replicate, IfOk, OnOk, OnErr};
ghost use Rattle.tr_journal.specs.Lists.{HasList};
ghost use Rattle.tr_play.specs.Places.{no_places, step_places, with_place};

use std::alloc::Global;
use std::marker::Model;
use tr_base::{LeafId, NoMemory};
use tr_journal::Actor;

/// The places of the steps of each leaf's client, of the desk and of the player among those of a part,
/// counted from 0. The painter has none.
#[derive(Drop)]
pub(crate) struct Places {
    leaves: Vec<Row>,
    desk: Row,
    player: Row,
}

impl Model for Places {
    ghost use Rattle.tr_play.specs.Places.{PlacesView};

    ghost Value = { PlacesView };

    ghost view = { λ p. record { leaves = p.leaves.items; desk = p.desk; player = p.player } };
}

impl Places {
    /// The places before any step.
    pub(crate) fn new(alloc: Global, leaves: u8) -> Result<Places, NoMemory>
        ensures { IfOk result (λ places. places ≡ no_places leaves) }
    {
        Ok(Places {
            leaves: empty_rows(alloc, leaves)?,
            desk: Row::new(alloc),
            player: Row::new(alloc),
        })
    }

    /// Adds a place after the others of an actor.
    pub(crate) fn add(&mut self, actor: Actor, place: u32) -> Result<(), NoMemory>
        requires { HasList (length self.old.leaves) actor }
        ensures ok { OnOk result (self.new ≡ with_place self.old actor place) }
        ensures err { OnErr result (self.new ≡ self.old) }
    {
        match actor {
            Actor::Leaf(leaf) => add_at(&mut self.leaves, leaf, place),
            Actor::Desk => self.desk.add(place),
            Actor::Player => self.player.add(place),
            Actor::Painter => unreachable!(),
        }
    }

    /// The number of an actor's steps.
    pub(crate) fn count(&self, actor: Actor) -> usize {
        match actor {
            Actor::Leaf(leaf) => match self.leaves.get(usize::from(leaf.0)) {
                Some(row) => row.places().len(),
                None => 0,
            },
            Actor::Desk => self.desk.places().len(),
            Actor::Player => self.player.places().len(),
            Actor::Painter => 0,
        }
    }

    /// The number of actors with steps.
    pub(crate) fn busy_actors(&self) -> usize {
        let mut busy = one_if_busy(&self.desk).saturating_add(one_if_busy(&self.player));
        for row in &self.leaves {
            busy = busy.saturating_add(one_if_busy(row));
        }
        busy
    }

    /// The places of an actor's steps.
    pub(crate) fn of(&self, actor: Actor) -> &[u32]
        requires { HasList (length self.now.leaves) actor }
        ensures { result.now ≡ step_places self.now actor }
    {
        match actor {
            Actor::Leaf(leaf) => self.leaves[usize::from(leaf.0)].places(),
            Actor::Desk => self.desk.places(),
            Actor::Player => self.player.places(),
            Actor::Painter => unreachable!(),
        }
    }
}

/// The places of one actor's steps.
#[derive(Drop)]
struct Row {
    places: Vec<u32>,
}

impl Model for Row {
    ghost use Rattle.std.specs.Prelude.{ℕ, List};

    ghost Value = { List ℕ };

    ghost view = { λ r. r.places.items };
}

impl Row {
    /// A row without a place.
    fn new(alloc: Global) -> Row
        ensures { result ≡ [] }
    {
        Row {
            places: Vec::new(alloc),
        }
    }

    /// Adds a place after the others.
    fn add(&mut self, place: u32) -> Result<(), NoMemory>
        ensures ok { OnOk result (self.new ≡ self.old ++ place ∷ []) }
        ensures err { OnErr result (self.new ≡ self.old) }
    {
        Ok(self.places.push(place)?)
    }

    /// All places.
    fn places(&self) -> &[u32]
        ensures { result.now ≡ self.now }
    {
        &self.places
    }
}

/// 1 if the row has a place, else 0.
fn one_if_busy(row: &Row) -> usize {
    if row.places().is_empty() { 0 } else { 1 }
}

/// This number of rows without a place.
fn empty_rows(alloc: Global, count: u8) -> Result<Vec<Row>, NoMemory>
    ensures { IfOk result (λ rows. rows.items ≡ replicate count []) }
{
    let mut rows = Vec::with_capacity(alloc, usize::from(count))?;
    for _leaf in 0..count {
        rows.push(Row::new(alloc))?;
    }
    Ok(rows)
}

/// Adds a place after the others of a leaf's client.
fn add_at(rows: &mut Vec<Row>, leaf: LeafId, place: u32) -> Result<(), NoMemory>
    requires { leaf.0 < length rows.old.items }
    ensures ok { OnOk result (rows.new.items ≡
        set rows.old.items leaf.0 (get_or rows.old.items leaf.0 [] ++ place ∷ [])) }
    ensures err { OnErr result (rows.new.items ≡ rows.old.items) }
{
    let row = &mut rows[usize::from(leaf.0)];
    row.add(place)?;
    Ok(())
}
