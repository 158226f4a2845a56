// The converter of a channel, `Dac` of channel.rs: one f32 capacitor, stepped by value once per frame.
ghost use Rattle.std.specs.Prelude.{◌≡◌};
ghost use Rattle.frame.specs.Converter.{fresh, stepped};

#[derive(Clone, Copy)]
pub struct Converter {
    pub capacitor: f32,
}

// The converter after a step, and what it gives out.
#[derive(Clone, Copy)]
pub struct Converted {
    pub converter: Converter,
    pub dac_out: f32,
}

impl Converter {
    // The capacitor at 0.
    pub fn new() -> Converter
        ensures { result ≡ fresh }
    {
        Converter { capacitor: 0.0 }
    }

    // A muted channel gives 0 and leaves the capacitor. Else the capacitor drifts towards the input; a subnormal is kept as it is.
    pub fn dac_output(self, output: u8, muted: bool) -> Converted
        ensures { result ≡ stepped self output muted }
    {
        if muted {
            return Converted {
                converter: self,
                dac_out: 0.0,
            };
        }
        let dac_in = output as f32 / 15.0;
        let dac_out = dac_in - self.capacitor;
        let next = Converter {
            capacitor: dac_in - dac_out * 0.996,
        };
        Converted {
            converter: next,
            dac_out: dac_out,
        }
    }
}
