//! Which calls of a desk or a sink in memory fail.
ghost use Rattle.std.specs.Prelude.{◌≡◌, ◌≤◌, OnErr, OnOk, true};
ghost use Rattle.xs_base.specs.Causes.{Rose};
ghost use Rattle.xs_base.specs.InMemory.{after_call, call_fails, failing_at, is_listed, no_failures};

use crate::Memory;
use std::alloc::Global;
use std::marker::Model;

/// The calls that are to fail, and how many calls were made and failed.
#[derive(Debug, Drop)]
pub struct Failures {
    failing: Vec<u64>,
    calls: u64,
    failed: u64,
}

impl Model for Failures {
    ghost use Rattle.xs_base.specs.InMemory.{Failures as Counts};

    ghost Value = { Counts };

    ghost view = { λ f. record { failing = f.failing.items; calls = f.calls; failed = f.failed } };
}

impl Failures {
    /// No call was made, and none is to fail.
    pub fn new(alloc: Global) -> Failures
        ensures { result ≡ no_failures }
    {
        Failures {
            failing: Vec::new(alloc),
            calls: 0,
            failed: 0,
        }
    }

    /// Makes the call of this number fail. Calls are counted from 1.
    pub fn add(&mut self, call: u64) -> Result<(), Memory>
        ensures ok { OnOk result (self.new ≡ failing_at call self.old) }
        ensures err { OnErr result (self.new ≡ self.old) }
    {
        self.failing.push(call)?;
        Ok(())
    }

    /// Counts a call, and gives whether it fails: it is listed, or the sink is full.
    pub fn next(&mut self, is_full: bool) -> bool
        ensures fails { result ≡ call_fails self.old is_full }
        ensures after { self.new ≡ after_call self.old is_full }
        ensures later { self.old.failed ≤ self.new.failed }
        ensures rose { result ≡ true → Rose self.old.failed self.new.failed }
    {
        self.calls = self.calls.saturating_add(1);
        let fails = is_listed(&self.failing, self.calls) || is_full;
        if fails {
            self.failed = self.failed.saturating_add(1);
        }
        fails
    }

    /// How many calls failed.
    pub fn count(&self) -> u64
        ensures { result ≡ self.now.failed }
    {
        self.failed
    }
}

// Whether the call of this number is listed.
fn is_listed(calls: &[u64], call: u64) -> bool
    ensures { result ≡ is_listed calls.now call }
{
    calls.iter().any(|c| *c == call)
}
