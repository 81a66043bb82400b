ghost use Rattle.std.specs.Prelude.{◌≡◌, ◌<◌, [], map, filter, OnOk};
ghost use Rattle.update_coordinator.specs.Rules.{is_idle, is_busy, with_flight, executed_by, released_by};
ghost use Rattle.update_coordinator.specs.Marks.{owes, is_owed};

use crate::course::alone;
use crate::words::Flight;
use fid_space::Targets;
use std::alloc::{AllocError as Memory, Global};
use std::marker::Model;

/// Ended attempts that are owed answers, in their order.
#[derive(Drop)]
pub struct Flights {
    inner: Vec<Flight>,
}

impl Model for Flights {
    ghost use Rattle.std.specs.Prelude.{List};
    ghost use Rattle.update_coordinator.specs.declared.words.Flight.{Flight};

    ghost Value = { List Flight };

    ghost view = { λ f. f.inner.items };
}

impl Flight {
    /// The number of its request.
    pub fn number(&self) -> u32
        ensures { result ≡ self.now.number }
    {
        self.number
    }

    /// Its own number.
    pub fn attempt(&self) -> u64
        ensures { result ≡ self.now.attempt }
    {
        self.attempt
    }

    fn is_idle(&self) -> bool
        ensures { result ≡ is_idle self.now }
    {
        self.executes == Targets::none() && self.releases == Targets::none()
    }

    fn hear_executed(&mut self, target: u8, attempt: u64)
        requires { target < 16 }
        ensures { self.new ≡ executed_by target attempt self.old }
    {
        if self.attempt == attempt {
            self.executes = self.executes.minus(alone(target));
        }
    }

    fn hear_released(&mut self, target: u8, attempt: u64)
        requires { target < 16 }
        ensures { self.new ≡ released_by target attempt self.old }
    {
        if self.attempt == attempt {
            self.releases = self.releases.minus(alone(target));
        }
    }

    fn owes(&self, target: u8, attempt: u64) -> bool
        requires { target < 16 }
        ensures { result ≡ owes target attempt self.now }
    {
        self.attempt == attempt && (self.executes.has(target) || self.releases.has(target))
    }
}

fn each_executed(flights: &mut [Flight], target: u8, attempt: u64)
    requires { target < 16 }
    ensures { flights.new ≡ map (executed_by target attempt) flights.old }
{
    for flight in flights.iter_mut() {
        flight.hear_executed(target, attempt);
    }
}

fn each_released(flights: &mut [Flight], target: u8, attempt: u64)
    requires { target < 16 }
    ensures { flights.new ≡ map (released_by target attempt) flights.old }
{
    for flight in flights.iter_mut() {
        flight.hear_released(target, attempt);
    }
}

/// Those that are still owed an answer.
fn keep_busy(flights: &mut Vec<Flight>)
    ensures { flights.new.items ≡ filter is_busy flights.old.items }
{
    flights.retain(|flight| !flight.is_idle());
}

impl Flights {
    /// None.
    pub fn new(alloc: Global) -> Flights
        ensures { result ≡ [] }
    {
        Flights {
            inner: Vec::new(alloc),
        }
    }

    /// Lends them.
    pub fn items(&self) -> &[Flight]
        ensures { result.now ≡ self.now }
    {
        self.inner.as_slice()
    }

    /// One more, if an answer is owed.
    pub fn push(&mut self, flight: Flight) -> Result<(), Memory>
        ensures { OnOk result (self.new ≡ with_flight self.old flight) }
    {
        if !flight.is_idle() {
            self.inner.push(flight)?;
        }
        Ok(())
    }

    /// A target has executed its part.
    pub fn hear_executed(&mut self, target: u8, attempt: u64)
        requires { target < 16 }
        ensures { self.new ≡ filter is_busy (map (executed_by target attempt) self.old) }
    {
        each_executed(self.inner.as_mut_slice(), target, attempt);
        keep_busy(&mut self.inner);
    }

    /// A target has let go.
    pub fn hear_released(&mut self, target: u8, attempt: u64)
        requires { target < 16 }
        ensures { self.new ≡ filter is_busy (map (released_by target attempt) self.old) }
    {
        each_released(self.inner.as_mut_slice(), target, attempt);
        keep_busy(&mut self.inner);
    }

    /// Whether the target owes an answer to this attempt.
    pub fn is_owed(&self, target: u8, attempt: u64) -> bool
        requires { target < 16 }
        ensures { result ≡ is_owed self.now target attempt }
    {
        for flight in &self.inner {
            if flight.owes(target, attempt) {
                return true;
            }
        }
        false
    }
}
