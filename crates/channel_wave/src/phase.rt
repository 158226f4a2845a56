// What the working clocks of the wave move, small enough to be carried through a loop.
ghost use Rattle.std.specs.Prelude.{◌≡◌, ◌+◌, ◌*◌, ◌≤◌};
ghost use Rattle.ground.specs.Iterate.{iterate};
ghost use Rattle.channel_wave.specs.Phase.{WavePhaseHeld, wave_phase_clocked};

use ground::timer::{count_down, count_near};

#[derive(Clone, Copy)]
pub struct WavePhase {
    pub buffer_position: u32,
    pub buffer_position_just_clocked: bool,
    pub frequency_timer: u32,
}

impl WavePhase {
    // So many working clocks at once, two of the timer each; "just clocked" is whether the last of them stepped.
    pub fn advance(self, reload: u32, n: u32) -> WavePhase
        requires wave_phase_held { WavePhaseHeld self }
        requires reload_bound { reload ≤ 2047 }
        requires n_bound { n ≤ 32768 }
        ensures { result ≡ iterate n (wave_phase_clocked reload) self }
    {
        if n == 0 {
            return self;
        }
        let run = count_down(self.frequency_timer, reload + 1, n * 2);
        WavePhase {
            buffer_position: (self.buffer_position + run.steps) % 32,
            buffer_position_just_clocked: (run.steps != 0) & (run.timer == reload),
            frequency_timer: run.timer,
        }
    }

    // The same of some clocks, no more than half of what a period has: no jump, so that a loop takes the channels side by side.
    pub fn advance_near(self, reload: u32, n: u32) -> WavePhase
        requires wave_phase_held { WavePhaseHeld self }
        requires reload_bound { reload ≤ 2047 }
        requires le_n { (1 ≤ n) × (n * 2 ≤ reload + 1) }
        ensures { result ≡ iterate n (wave_phase_clocked reload) self }
    {
        let run = count_near(self.frequency_timer, reload + 1, n * 2);
        WavePhase {
            buffer_position: (self.buffer_position + run.steps) % 32,
            buffer_position_just_clocked: (run.steps != 0) & (run.timer == reload),
            frequency_timer: run.timer,
        }
    }
}
