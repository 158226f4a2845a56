// What the working clocks of a noise move, small enough to be carried through a loop.
ghost use Rattle.std.specs.Prelude.{◌≡◌, ◌≤◌};
ghost use Rattle.ground.specs.Iterate.{iterate};
ghost use Rattle.channel_noise.specs.Phase.{NoisePhaseHeld, noise_phase_clocked};

use crate::feedback::{step_one, step_times};
use ground::timer::count_down;

// The register and the timer, wider than in the channel: a loop over them then masks nothing.
#[derive(Clone, Copy)]
pub struct NoisePhase {
    pub feedback_shift_register: u32,
    pub frequency_timer: u32,
}

impl NoisePhase {
    // So many clocks of a noise of this mode and reload.
    pub fn advance(self, narrow: bool, reload: u32, n: u32) -> NoisePhase
        requires noise_phase_held { NoisePhaseHeld self }
        requires reload_bound { reload ≤ 16383 }
        requires n_bound { n ≤ 32769 }
        ensures { result ≡ iterate n (noise_phase_clocked narrow reload) self }
    {
        let run = count_down(self.frequency_timer, reload + 1, n);
        let register = self.feedback_shift_register;
        // mostly none or one step: chosen without a jump
        if run.steps <= 1 {
            let once = step_one(register, narrow);
            return NoisePhase {
                feedback_shift_register: if run.steps == 0 { register } else { once },
                frequency_timer: run.timer,
            };
        }
        NoisePhase {
            feedback_shift_register: step_times(register, narrow, run.steps),
            frequency_timer: run.timer,
        }
    }
}
