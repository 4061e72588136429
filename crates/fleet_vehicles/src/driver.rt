//! What is answered to each line.

use crate::finding::Found;
use crate::line::{Line, line_in};
use crate::look::look;
use crate::numbers::cells_in;
use live_vehicles::{
    Arrived, Clearance, Heard, Out, Regained, Rules, Vehicles, open, regain, tell_asked, tell_bad,
    tell_off, tell_stand,
};
use std::alloc::{AllocError, Global};
use std::mem;

/// By which rules vehicles carry out turns.
#[derive(Clone, Copy, Debug)]
pub struct DriveRules {
    /// When a cell is clear.
    pub clearance: Clearance,
    /// How many turns are made at most that are not carried out. At least 1.
    pub ahead: u32,
}

/// A fleet's vehicles, and what was heard of both.
#[derive(Drop)]
pub struct Driver {
    alloc: Global,
    rules: DriveRules,
    cells: u32,
    found: Found,
    /// The arrivals of the turn that is told next.
    arrived: Vec<Arrived>,
    vehicles: Option<Vehicles>,
    /// Whether the vehicles are asked where they stand.
    finds: bool,
    /// Whether a turn was asked for that is not told yet.
    asks: bool,
    out: Out,
}

impl Driver {
    /// Nothing was heard.
    pub fn new(alloc: Global, rules: DriveRules) -> Driver {
        Driver {
            alloc,
            rules,
            cells: 0,
            found: Found::new(alloc),
            arrived: Vec::new(alloc),
            vehicles: None,
            finds: false,
            asks: false,
            out: Out {
                told: String::new(alloc),
                due: Vec::new(alloc),
            },
        }
    }

    fn rules_now(&self) -> Rules {
        Rules {
            cells: self.cells,
            clearance: self.rules.clearance,
            ahead: self.rules.ahead,
            first: self.found.first,
        }
    }

    /// Says who stands where an errand was done, and asks for a turn if there is room for one.
    fn go_on(&mut self) -> Result<(), AllocError> {
        for stand in &self.out.due {
            tell_stand(&mut self.out.told, *stand)?;
        }
        self.out.due.clear();
        if let Some(vehicles) = &self.vehicles {
            if !self.asks && vehicles.has_room() {
                self.out.told.push_str("tick\n")?;
                self.asks = true;
            }
        }
        Ok(())
    }

    /// Notes a turn, or plans it if the vehicles are on their way.
    fn tick(&mut self, number: u64, tick: u64, words: &[u8]) -> Result<(), AllocError> {
        let Some(cells) = cells_in(self.alloc, words)? else {
            return tell_bad(&mut self.out.told, number);
        };
        let arrived = mem::replace(&mut self.arrived, Vec::new(self.alloc));
        match &mut self.vehicles {
            None => self.found.note(tick, cells, arrived, self.rules.ahead),
            Some(vehicles) => {
                self.asks = false;
                if !vehicles.turn(self.alloc, &cells, &arrived, &mut self.out)? {
                    return self.out.told.push_str("no-turn\n");
                }
                self.go_on()
            }
        }
    }

    /// Lets the vehicles set out from the placement that was told last.
    fn begin(&mut self) -> Result<(), AllocError> {
        self.found.settle();
        self.arrived.clear();
        self.vehicles = open(self.alloc, self.rules_now(), &self.found.before.placement)?;
        if self.vehicles.is_none() {
            return self.out.told.push_str("no-plan\n");
        }
        self.go_on()
    }

    /// Asks the vehicles where they stand.
    fn resume(&mut self) -> Result<(), AllocError> {
        self.found.ask()?;
        self.finds = true;
        self.out.told.push_str("where\n")
    }

    /// Lets the vehicles go on from where they stand, once all are found.
    fn find(&mut self) -> Result<(), AllocError> {
        let Some(cells) = self.found.cells(self.alloc)? else {
            return Ok(());
        };
        let mut out = Out {
            told: String::new(self.alloc),
            due: Vec::new(self.alloc),
        };
        match regain(
            self.alloc,
            self.rules_now(),
            &self.found.before,
            &cells,
            &mut out,
        )? {
            Regained::Found(vehicles) => {
                self.vehicles = Some(vehicles);
                self.finds = false;
                self.out.told.push_str(out.told.as_str())?;
                self.out.due.append(&mut out.due)?;
                self.go_on()
            }
            Regained::Off(robot) => {
                if let Some(at) = self.found.at.get_mut(robot as usize) {
                    *at = None;
                }
                tell_off(&mut self.out.told, robot)
            }
            Regained::NoPlan => self.out.told.push_str("no-plan\n"),
        }
    }

    /// Notes where a robot stands.
    fn stand(&mut self, robot: u32, cell: u32) -> Result<(), AllocError> {
        if !self.finds || robot as usize >= self.found.at.len() {
            return tell_asked(&mut self.out.told, robot);
        }
        self.found.at[robot as usize] = Some(cell);
        self.find()
    }

    /// Answers a line of the vehicles.
    fn vehicle(&mut self, number: u64, heard: Heard) -> Result<(), AllocError> {
        match (heard, &mut self.vehicles) {
            (Heard::Nothing, _) => Ok(()),
            (Heard::At(robot, cell), _) => self.stand(robot, cell),
            (Heard::Reached(robot), Some(vehicles)) => {
                vehicles.answer(self.alloc, robot, &mut self.out)?;
                self.go_on()
            }
            (Heard::Look, Some(vehicles)) => look(&mut self.out.told, vehicles),
            _ => tell_bad(&mut self.out.told, number),
        }
    }

    /// Answers the line with this number, of which these are the first bytes. What is said is added to `said`.
    pub fn hear(&mut self, number: u64, bytes: &[u8], said: &mut String) -> Result<(), AllocError> {
        match line_in(bytes) {
            Line::Hello(cells) => self.cells = cells,
            Line::Tick(tick, words) => self.tick(number, tick, words)?,
            Line::Arrived(arrived) => self.arrived.push(arrived)?,
            Line::Begin if self.vehicles.is_none() => self.begin()?,
            Line::Resume if self.vehicles.is_none() => self.resume()?,
            Line::Begin | Line::Resume => tell_bad(&mut self.out.told, number)?,
            Line::Vehicle(heard) => self.vehicle(number, heard)?,
            Line::Passed => {}
        }
        said.push_str(self.out.told.as_str())?;
        self.out.told.clear();
        Ok(())
    }
}
