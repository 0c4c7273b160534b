//! The ways of accounts.

use perf_base::CpuNo;
use std::marker::Model;

/// Along which processor's meter an account runs, and whether its instance is ready, and on, there.
#[derive(Clone, Copy, PartialEq, Eq, Debug)]
pub struct Way {
    pub cpu: CpuNo,
    pub ready: bool,
    pub on: bool,
}

impl Model for Way {
    ghost use Rattle.world_spec.specs.Ways.{Way as WayValue};

    ghost Value = { WayValue };

    ghost view = { λ w. record { cpu = w.cpu; ready = w.ready; on = w.on } };

    ghost inverse = { λ w. record { cpu = w.cpu; ready = w.ready; on = w.on } };
}
