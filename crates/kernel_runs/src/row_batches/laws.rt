// The laws of batches that run aside, each as the contract of a function that does nothing.

ghost use Rattle.kernel_runs.specs.Asides.{AsidesStay, PlacesStayApart};

/// A law: a batch that ran aside from one memory ran so from any other that has the same in the cells that it reads.
pub fn asides_stay()
    ensures { AsidesStay }
{}

/// A law: what one place of a loop modifies that runs in rows, no other place reads.
pub fn places_stay_apart()
    ensures { PlacesStayApart }
{}
