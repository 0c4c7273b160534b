//! The processors: what runs on each, and which events are on its counters.

ghost use Rattle.std.specs.Prelude.{◌≡◌, ◌↔◌, ◌+◌, ◌*◌, ◌^◌, ◌<◌, ◌≤◌, ◌++◌, All, IsTrue, IsOk, IfOk, OnOk, OnErr, IfErr, Option, Some, None, length, map, slice_index, slice_index_or, slice_set};
ghost use Rattle.perf_base.specs.Masks.{IsMask};
ghost use Rattle.stage_spec.specs.Fits.{fits, IsAssignment};
ghost use Rattle.stage_spec.specs.Hardware.{IsHardware};
ghost use Rattle.stage_spec.specs.Tight.{masks_of, tight_set, shortest_unfit};
ghost use Rattle.counter_match.specs.Seating.{AreDistinct, IsSound, slots_of, empty_seating};
ghost use Rattle.world_tables.specs.Places.{idle_places, no_seats};

use counter_match::Seats;
use perf_base::{CpuNo, EventNo, NoMemory, Steps, TaskNo, Tight};
use pmu_model::Pmus;
use std::alloc::Global;
use std::marker::Model;
use std::sync::ledger::Ledger;

/// One processor: the task on it, and the events on its counters.
#[derive(Drop)]
pub struct Processor {
    running: Option<TaskNo>,
    seats: Seats,
}

impl Model for Processor {
    ghost use Rattle.world_tables.specs.Places.{Place};

    ghost Value = { Place };

    ghost view = { λ p. record { running = p.running; seats = p.seats } };
}

impl Processor {
    fn idle(counters: u8) -> Processor
        requires some { 0 < counters }
        requires most { counters ≤ 16 }
        ensures { result ≡ record { running = None; seats = empty_seating counters } }
    {
        Processor {
            running: None,
            seats: Seats::new(counters),
        }
    }

    fn running(&self) -> Option<TaskNo>
        ensures { result ≡ self.now.running }
    {
        self.running
    }

    fn seats(&self) -> &Seats
        ensures { result.now ≡ self.now.seats }
    {
        &self.seats
    }

    fn set_running(&mut self, task: Option<TaskNo>)
        ensures { self.new ≡ record self.old { running = task } }
    {
        self.running = task;
    }

    fn clear_seats(&mut self)
        ensures { self.new ≡ record self.old { seats = empty_seating self.old.seats.counters } }
    {
        self.seats.clear();
    }

    fn set_seats(&mut self, seats: &Seats)
        requires { self.old.seats.counters ≡ seats.now.counters }
        ensures set { self.new ≡ record self.old { seats = seats.now } }
        ensures sound { IsSound seats.now }
    {
        self.seats.copy_from(seats);
    }

    fn seat<L: Ledger>(
        &mut self,
        group: &[(EventNo, u32)],
        steps: &mut Steps<L>,
    ) -> Result<(), Tight>
        requires few { length group.now ≤ 8 }
        requires distinct { AreDistinct (self.old.seats.events ++ group.now) }
        requires masks { All (IsMask self.old.seats.counters) (masks_of group.now) }
        ensures answer { IsOk result ↔ IsTrue (fits (masks_of (self.old.seats.events ++ group.now))) }
        ensures rest { self.new ≡ record self.old { seats = self.new.seats } }
        ensures counters { self.new.seats.counters ≡ self.old.seats.counters }
        ensures added { OnOk result (self.new.seats.events ≡ self.old.seats.events ++ group.now) }
        ensures assigned { OnOk result (IsAssignment (masks_of self.new.seats.events) self.new.seats.seats) }
        ensures same { OnErr result (self.new ≡ self.old) }
        ensures tight { IfErr result
            (λ slots. slots ≡ slots_of (tight_set (shortest_unfit (self.old.seats.events ++ group.now)))) }
        ensures least { OnOk result (steps.old + length group.now ≤ steps.new) }
        ensures tried { OnErr result (steps.old + 1 ≤ steps.new) }
        ensures most { steps.new ≤ steps.old + 272 * length group.now }
    {
        self.seats.try_add(group, steps)
    }
}

/// The processors of a machine. Contracts see two lists by processor: the tasks on them and their seats.
#[derive(Drop)]
pub struct Processors {
    rows: Vec<Processor>,
}

impl Model for Processors {
    ghost use Rattle.world_tables.specs.Places.{Places, places};

    ghost Value = { Places };

    ghost view = { λ p. places p.rows.items };
}

impl Processors {
    /// The processors of a machine, idle and with no event on their counters. It fails only where memory runs out.
    pub fn new(alloc: Global, pmus: &Pmus) -> Result<Processors, NoMemory>
        ensures idle { IfOk result (λ p. p ≡ idle_places pmus.now) }
        ensures sound { IsHardware pmus.now }
    {
        let cpus = pmus.cpus();
        let mut rows = Vec::with_capacity(alloc, cpus as usize)?;
        for cpu in 0..cpus {
            rows.push(Processor::idle(pmus.counters(CpuNo(cpu))))?;
        }
        Ok(Processors { rows })
    }

    /// The task on a processor: none where it is idle or there is no such processor.
    pub fn running(&self, cpu: CpuNo) -> Option<TaskNo>
        ensures { result ≡ slice_index_or self.now.running cpu.0 None }
    {
        match self.rows.get(cpu.0 as usize) {
            Some(row) => row.running(),
            None => None,
        }
    }

    /// The events on a processor's counters.
    pub fn seats(&self, cpu: CpuNo) -> &Seats
        requires { cpu.0 < length self.now.running }
        ensures { result.now ≡ slice_index_or self.now.seats cpu.0 no_seats }
    {
        self.rows[cpu.0 as usize].seats()
    }

    /// Sets what runs on a processor.
    pub fn set_running(&mut self, cpu: CpuNo, task: Option<TaskNo>)
        requires { cpu.0 < length self.old.running }
        ensures { self.new ≡ record self.old { running = slice_set self.old.running cpu.0 task } }
    {
        self.rows[cpu.0 as usize].set_running(task);
    }

    /// Takes all events off a processor's counters.
    pub fn clear_seats(&mut self, cpu: CpuNo)
        requires { cpu.0 < length self.old.running }
        ensures { self.new ≡ record self.old {
          seats = slice_set self.old.seats cpu.0 (empty_seating (slice_index_or self.old.seats cpu.0 no_seats).counters);
        } }
    {
        self.rows[cpu.0 as usize].clear_seats();
    }

    /// Puts the events of some seats on a processor's counters, as `Seats::copy_from` does.
    pub fn set_seats(&mut self, cpu: CpuNo, seats: &Seats)
        requires cpu { cpu.0 < length self.old.running }
        requires counters { (slice_index_or self.old.seats cpu.0 no_seats).counters ≡ seats.now.counters }
        ensures set { self.new ≡ record self.old { seats = slice_set self.old.seats cpu.0 seats.now } }
        ensures sound { IsSound seats.now }
    {
        self.rows[cpu.0 as usize].set_seats(seats);
    }

    /// Seats a group on a processor, as `Seats::try_add` does.
    pub fn seat<L: Ledger>(
        &mut self,
        cpu: CpuNo,
        group: &[(EventNo, u32)],
        steps: &mut Steps<L>,
    ) -> Result<(), Tight>
        requires cpu { cpu.0 < length self.old.running }
        requires few { length group.now ≤ 8 }
        requires distinct { AreDistinct ((slice_index_or self.old.seats cpu.0 no_seats).events ++ group.now) }
        requires masks { All (IsMask (slice_index_or self.old.seats cpu.0 no_seats).counters) (masks_of group.now) }
        ensures answer { IsOk result ↔ IsTrue (fits (masks_of ((slice_index_or self.old.seats cpu.0 no_seats).events ++ group.now))) }
        ensures rest { self.new ≡ record self.old { seats = slice_set self.old.seats cpu.0 (slice_index_or self.new.seats cpu.0 no_seats) } }
        ensures counters { (slice_index_or self.new.seats cpu.0 no_seats).counters ≡ (slice_index_or self.old.seats cpu.0 no_seats).counters }
        ensures added { OnOk result ((slice_index_or self.new.seats cpu.0 no_seats).events ≡ (slice_index_or self.old.seats cpu.0 no_seats).events ++ group.now) }
        ensures assigned { OnOk result (IsAssignment (masks_of (slice_index_or self.new.seats cpu.0 no_seats).events) (slice_index_or self.new.seats cpu.0 no_seats).seats) }
        ensures same { OnErr result (self.new ≡ self.old) }
        ensures tight { IfErr result
            (λ slots. slots ≡ slots_of (tight_set (shortest_unfit ((slice_index_or self.old.seats cpu.0 no_seats).events ++ group.now)))) }
        ensures least { OnOk result (steps.old + length group.now ≤ steps.new) }
        ensures tried { OnErr result (steps.old + 1 ≤ steps.new) }
        ensures most { steps.new ≤ steps.old + 272 * length group.now }
    {
        self.rows[cpu.0 as usize].seat(group, steps)
    }
}
