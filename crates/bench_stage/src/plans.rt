use std::alloc::Global;
use tr_base::{Command, LeafId, NoMemory, NodeId, Point};
use tr_client::Client;
use tr_forest::Edit;
use tr_journal::Step;

/// The number of motions in a round.
const MOTIONS: u8 = 64;

/// The window that gets the commands.
const WINDOW: LeafId = LeafId(0);

/// The windows and the steps of a measurement.
#[derive(Drop)]
pub struct Plan<C: Client> {
    /// The contents of its windows.
    pub contents: Vec<C>,
    /// The steps that are made once, before all others.
    pub first: Vec<Step<C::Cmd>>,
    /// The steps that are made before each round, and not measured.
    pub before: Vec<Step<C::Cmd>>,
    /// The steps of a round, which are measured.
    pub round: Vec<Step<C::Cmd>>,
}

impl<C: Client> Plan<C> {
    /// `count` windows with the same content, and no step.
    pub fn of(alloc: Global, content: &C, count: u8) -> Result<Plan<C>, NoMemory> {
        let mut contents = Vec::new(alloc);
        for _ in 0..count {
            contents.push(content.copy(alloc)?)?;
        }
        Ok(Plan {
            contents,
            first: Vec::new(alloc),
            before: Vec::new(alloc),
            round: Vec::new(alloc),
        })
    }

    /// The window gets the commands `times` times before all rounds.
    pub fn fill(&mut self, cmds: &[C::Cmd], times: u8) -> Result<(), NoMemory> {
        tell(&mut self.first, cmds, times)
    }

    /// Before each round the window gets the commands, and is flushed.
    pub fn prepare(&mut self, cmds: &[C::Cmd]) -> Result<(), NoMemory> {
        tell(&mut self.before, cmds, 1)?;
        self.before.push(Step::Flush { leaf: WINDOW })?;
        Ok(())
    }

    /// In a round the window gets the commands `times` times.
    pub fn act(&mut self, cmds: &[C::Cmd], times: u8) -> Result<(), NoMemory> {
        tell(&mut self.round, cmds, times)
    }

    /// Before each round the window gets the commands `times` times; in the round it is flushed.
    pub fn flush(&mut self, cmds: &[C::Cmd], times: u8) -> Result<(), NoMemory> {
        tell(&mut self.before, cmds, times)?;
        self.round.push(Step::Flush { leaf: WINDOW })?;
        Ok(())
    }

    /// In a round the first window and the last one move to and fro.
    pub fn move_windows(&mut self) -> Result<(), NoMemory> {
        let count = u16::try_from(self.contents.len()).unwrap_or(u16::MAX);
        move_window(&mut self.round, 0)?;
        move_window(&mut self.round, count.saturating_sub(1))
    }

    /// In a round the cursor goes across the windows.
    pub fn move_cursor(&mut self) -> Result<(), NoMemory> {
        for n in 0..MOTIONS {
            let at = Point {
                h: i32::from(n) * 10,
                v: i32::from(n) * 7,
            };
            self.round.push(Step::Motion { time: 1, at })?;
        }
        Ok(())
    }
}

/// Adds the steps that give the window the commands `times` times.
fn tell<M: Command>(steps: &mut Vec<Step<M>>, cmds: &[M], times: u8) -> Result<(), NoMemory> {
    for _ in 0..times {
        tell_once(steps, cmds)?;
    }
    Ok(())
}

fn tell_once<M: Command>(steps: &mut Vec<Step<M>>, cmds: &[M]) -> Result<(), NoMemory> {
    let alloc = *steps.allocator();
    for cmd in cmds {
        let cmd = cmd.copy(alloc)?;
        steps.push(Step::Act { leaf: WINDOW, cmd })?;
    }
    Ok(())
}

/// Adds the steps that move a window to and fro.
fn move_window<M: Drop>(steps: &mut Vec<Step<M>>, n: u16) -> Result<(), NoMemory> {
    let child = node_of(n);
    for at in [place_of(n.saturating_add(3)), place_of(n)] {
        let edit = Edit::Move { child, at };
        steps.push(Step::Alter { edit })?;
    }
    Ok(())
}

/// The node of a window. The root comes first.
pub fn node_of(n: u16) -> NodeId {
    NodeId(n.saturating_add(1))
}

/// The place of a window: further south-east than the windows before it.
pub fn place_of(n: u16) -> Point {
    Point {
        h: i32::from(n) * 14,
        v: i32::from(n) * 11,
    }
}

/// A copy of the steps.
pub fn copies_of<M: Command>(alloc: Global, steps: &[Step<M>]) -> Result<Vec<Step<M>>, NoMemory> {
    let mut copies = Vec::with_capacity(alloc, steps.len())?;
    for step in steps {
        copies.push(step.copy(alloc)?)?;
    }
    Ok(copies)
}
