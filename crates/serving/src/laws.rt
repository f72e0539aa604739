//! What follows from the server's contract, each the contract of a function that does nothing.

ghost use Rattle.serving.specs.Laws.{EndsWellWithoutFaults, PortFaultGaveFewer};

use outside::Keeper;
use site_core::open_rows_pass;

/// A server over rows that continue each other ends with `Done` where no count of faults rose, or memory ran out.
pub fn ends_well_without_faults<K: Keeper>()
    ensures { EndsWellWithoutFaults K.rows K.faults }
{
    open_rows_pass();
}

/// At `PortFault` the port gave fewer links than were asked for, or its count stands at its last value.
pub fn port_fault_gave_fewer()
    ensures { PortFaultGaveFewer }
{}
