//! Laws of a world whose server lasts. Nothing here runs.

ghost use Rattle.std.specs.Prelude.{List};
ghost use Rattle.ft_model.specs.Legal.{machines};
ghost use Rattle.ft_model.specs.declared.event.Event.{Event};
ghost use Rattle.ft_model.specs.declared.schedule.Lasting.{Lasting};
ghost use Rattle.ft_model.specs.declared.schedule.Schedule.{Schedule};
ghost use Rattle.lasting_laws.specs.LastingWorld.{LastingMoment};
ghost use Rattle.lasting_world.specs.SentParcels.{KeepsAllLasting};
ghost use Rattle.lasting_world.specs.Along.{StandsAfter};
ghost use Rattle.lasting_world.specs.WorldView.{KeptWorld};

use lasting_unseen::lasting_parcels_are_written;
use server_trait::Saved;

/// Whatever the world stores at the end of a legal trace is what was sent, lost or not: it has the direction of a parcel and its bytes, which can be read.
pub fn lasting_worlds_keep_what_was_sent<S: Saved>()
    ensures all { (waits : Lasting) (schedule : Schedule) (events : List Event) (trace : List LastingMoment) (w : KeptWorld S)
        → StandsAfter (machines S.started S.after S.greeting) waits schedule events trace w → KeepsAllLasting schedule w.around.network.packets }
{
    // A theorem for the proof. It does nothing when it is called.
    lasting_parcels_are_written::<S>();
}
