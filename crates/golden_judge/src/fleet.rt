//! A fleet as the rules see it.

use fleet_book::{Order, Verdict};
use fleet_history::{ClientState, Entry, Opening, RobotState};
use fleet_hooks::StampLaw;
use fleet_queue::Errand;
use std::alloc::{AllocError, Global};

/// A robot under way.
#[derive(Drop)]
pub(crate) struct Robot {
    pub(crate) cell: u32,
    pub(crate) shut: bool,
    pub(crate) wait: Option<u64>,
    /// Its unfinished errands, from the front on.
    pub(crate) errands: Vec<Errand>,
    pub(crate) arrival_law: StampLaw,
    pub(crate) farewell_law: StampLaw,
}

/// A fleet under way.
#[derive(Drop)]
pub(crate) struct Fleet {
    pub(crate) tick: u64,
    pub(crate) queue: u32,
    pub(crate) life: u64,
    pub(crate) clients: Vec<ClientState>,
    pub(crate) robots: Vec<Robot>,
}

impl Robot {
    /// The robot at an opening.
    fn of(alloc: Global, state: &RobotState) -> Result<Robot, AllocError> {
        Ok(Robot {
            cell: state.cell,
            shut: state.shut,
            wait: state.wait,
            errands: Vec::from_slice(alloc, state.errands.as_slice())?,
            arrival_law: state.arrival_law,
            farewell_law: state.farewell_law,
        })
    }

    /// The cell that it is to go to.
    pub(crate) fn goal(&self) -> Option<u32> {
        self.errands.first().map(|errand| errand.cell)
    }

    /// Adds an errand, whose wait begins where it is the front.
    fn add(&mut self, errand: Errand) -> Result<(), AllocError> {
        if self.errands.is_empty() {
            self.wait = Some(0);
        }
        self.errands.push(errand)?;
        Ok(())
    }

    /// Drops the client's errand with this number.
    fn withdraw(&mut self, client: u32, number: u64) {
        self.errands.retain(|errand| errand.client != client || errand.number != number);
    }

    /// Moves to a cell. The result is the client of the errand that it arrives with.
    fn land(&mut self, cell: u32) -> Option<u32> {
        self.cell = cell;
        if self.goal() != Some(cell) {
            self.wait = self.wait.map(|wait| wait.saturating_add(1));
            return None;
        }
        let client = self.errands.first().map(|errand| errand.client);
        if !self.errands.is_empty() {
            self.errands.remove(0);
        }
        self.wait = if self.errands.is_empty() {
            None
        } else {
            Some(0)
        };
        client
    }
}

/// The robots at an opening.
fn robots_of(alloc: Global, states: &[RobotState]) -> Result<Vec<Robot>, AllocError> {
    states
        .iter()
        .map(|state| Robot::of(alloc, state))
        .try_collect(alloc)
}

impl Fleet {
    /// The fleet at an opening.
    pub(crate) fn of(alloc: Global, opening: &Opening) -> Result<Fleet, AllocError> {
        let clients = Vec::from_slice(alloc, opening.clients.as_slice())?;
        let robots = robots_of(alloc, opening.robots.as_slice())?;
        Ok(Fleet {
            tick: opening.tick,
            queue: opening.queue,
            life: opening.life,
            clients,
            robots,
        })
    }

    /// The robot with this number.
    pub(crate) fn robot(&self, robot: u32) -> Option<&Robot> {
        self.robots.get(robot as usize)
    }

    /// Counts one more notice of a client.
    fn tell(&mut self, client: u32) {
        if let Some(state) = self.clients.get_mut(client as usize) {
            state.noticed = state.noticed.saturating_add(1);
        }
    }

    fn accept(&mut self, client: u32, number: u64, order: Order) -> Result<(), AllocError> {
        let Order::Go { robot, cell } = order else {
            return Ok(());
        };
        if let Some(state) = self.clients.get_mut(client as usize) {
            state.accepted = number;
        }
        if let Some(robot) = self.robots.get_mut(robot as usize) {
            robot.add(Errand {
                client,
                number,
                cell,
            })?;
        }
        Ok(())
    }

    /// What a legal take makes of the fleet.
    fn take(&mut self, client: u32, order: Order, verdict: Verdict) -> Result<(), AllocError> {
        self.tell(client);
        if let Some(state) = self.clients.get_mut(client as usize) {
            state.taken = state.taken.saturating_add(1);
            state.closed |= verdict == Verdict::Closed;
        }
        if let Verdict::Accepted(number) = verdict {
            self.accept(client, number, order)?;
        }
        if let (Verdict::Withdrawn, Order::Withdraw { number }) = (verdict, order) {
            for robot in self.robots.iter_mut() {
                robot.withdraw(client, number);
            }
        }
        Ok(())
    }

    /// What a legal tick makes of the fleet.
    fn land(&mut self, to: &[u32]) {
        self.tick = self.tick.saturating_add(1);
        for at in 0..to.len() {
            let cell = to[at];
            let arrived = match self.robots.get_mut(at) {
                Some(robot) => robot.land(cell),
                None => None,
            };
            if let Some(client) = arrived {
                self.tell(client);
            }
        }
    }

    /// What a legal entry makes of the fleet.
    pub(crate) fn enter(&mut self, entry: &Entry) -> Result<(), AllocError> {
        match entry {
            Entry::Take {
                client,
                order,
                verdict,
            } => self.take(*client, *order, *verdict)?,
            Entry::Tick { to, .. } => self.land(to.as_slice()),
            Entry::Shut { robot, .. } => {
                if let Some(robot) = self.robots.get_mut(*robot as usize) {
                    robot.shut = true;
                }
            }
        }
        Ok(())
    }
}
