// What a host gets over an envelope that it lends: the fields behind the reference are updated. They may hold any numbers.
#![tactic(auto)]

ghost use Rattle.std.specs.Prelude.{◌≡◌};
ghost use Rattle.channel_parts.specs.Envelope.{clocked, triggered};

use channel_parts::envelope::Envelope;

// The trigger of its channel.
#[unsafe(no_mangle)]
pub extern "C" fn envelope_trigger(e: &mut Envelope)
    ensures { e.new ≡ triggered e.old }
{
    *e = e.trigger();
}

// A clock of the sequencer.
#[unsafe(no_mangle)]
pub extern "C" fn envelope_clock(e: &mut Envelope)
    ensures { e.new ≡ clocked e.old }
{
    *e = e.clock();
}
