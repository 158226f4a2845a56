// What the working clocks of a pulse move, small enough to be carried through a loop.
ghost use Rattle.std.specs.Prelude.{◌≡◌, ◌+◌, ◌≤◌};
ghost use Rattle.ground.specs.Iterate.{iterate};
ghost use Rattle.channel_pulse.specs.Phase.{PulsePhaseHeld, pulse_phase_clocked};

use ground::num::flag;
use ground::timer::{count_down, count_near};

#[derive(Clone, Copy)]
pub struct PulsePhase {
    pub sequencer_position: usize,
    pub frequency_timer: u32,
}

impl PulsePhase {
    // So many working clocks at once: none before the first trigger.
    pub fn advance(self, triggered: bool, reload: u32, n: u32) -> PulsePhase
        requires pulse_phase_held { PulsePhaseHeld self }
        requires reload_bound { reload ≤ 2047 }
        requires n_bound { n ≤ 32769 }
        ensures { result ≡ iterate n (pulse_phase_clocked triggered reload) self }
    {
        if triggered {
            let run = count_down(self.frequency_timer, reload + 1, n);
            return PulsePhase {
                sequencer_position: (self.sequencer_position + run.steps as usize) % 8,
                frequency_timer: run.timer,
            };
        }
        self
    }

    // The same where the clocks are no more than a period has: no jump, so that a loop takes the channels side by side.
    pub fn advance_near(self, triggered: bool, reload: u32, n: u32) -> PulsePhase
        requires pulse_phase_held { PulsePhaseHeld self }
        requires reload_bound { reload ≤ 2047 }
        requires n_bound { n ≤ reload + 1 }
        ensures { result ≡ iterate n (pulse_phase_clocked triggered reload) self }
    {
        let run = count_near(self.frequency_timer, reload + 1, flag(triggered, n));
        PulsePhase {
            sequencer_position: (self.sequencer_position + run.steps as usize) % 8,
            frequency_timer: run.timer,
        }
    }
}
